// The one loop over an input that is read to its end, or to where its consumer has enough.
ghost use Rattle.std.specs.Prelude.{◌≡◌, ◌<◌, ℕ, List, [], ◌++◌, length, Option, Result, Ok, IfOk, IfErr};
ghost use Rattle.std.specs.Bool.{MatchBool};
ghost use Rattle.nx_host.specs.Host.{IsAtEnd};
ghost use Rattle.nx_host.specs.Input.{HasTaken, most_input};
ghost use Rattle.nx_host.specs.Phase.{TakesAlone};
ghost use Rattle.nx_filters.specs.Consumer.{StopsAt, StopsFeeding};
ghost use Rattle.nx_filters.specs.declared.refusal.Refusal.{Refusal};

use crate::take_error::TakeError;
use nx_host::{Disk, Host, Input};

// What reads an input block by block.
pub trait Consumer {
    // It has read these bytes, and reads on.
    ghost has_read: { Self → List ℕ → Type 0 };

    // It has read these bytes, and needs no more.
    ghost has_enough: { Self → List ℕ → Type 0 };

    // What bytes show before the input's end.
    ghost shows: { List ℕ → Result (List ℕ) Refusal → Type 0 };

    // Reads the next bytes, and says whether it reads on.
    fn take(&mut self, block: &[u8]) -> Result<bool, TakeError>
        ensures ok { IfOk result (λ more. (s : List ℕ) → has_read self.old s → MatchBool more (has_read self.new (s ++ block.now)) (has_enough self.new (s ++ block.now))) }
        ensures err { IfErr result (λ stop. (s : List ℕ) → has_read self.old s → StopsAt shows stop (s ++ block.now)) };

    // What was read shows no refusal.
    ghost shows_none: { (c : Self) (s : List ℕ) → has_read c s → shows s (Ok []) };
}

// Has the consumer read what is left of the input, and says whether that was to the input's end.
pub fn feed<H: Host, C: Consumer>(
    host: &mut H,
    input: &mut Input,
    consumer: &mut C,
) -> Result<bool, TakeError>
    ensures ok { IfOk result (λ ended. (taken : List ℕ) (first : Option (List ℕ)) → HasTaken input.old taken first (H.beside host.old).input → C.has_read consumer.old taken →
        (more : List ℕ) × HasTaken input.new (taken ++ more) first (H.beside host.new).input
        × MatchBool ended (IsAtEnd (H.beside host.new).input × (length (taken ++ more) < most_input) × C.has_read consumer.new (taken ++ more)) (C.has_enough consumer.new (taken ++ more))) }
    ensures err { IfErr result (λ stop. (taken : List ℕ) (first : Option (List ℕ)) → HasTaken input.old taken first (H.beside host.old).input → C.has_read consumer.old taken →
        StopsFeeding C.shows stop first (H.beside host.old) (H.beside host.new)) }
    ensures taken { (taken : List ℕ) (first : Option (List ℕ)) → HasTaken input.old taken first (H.beside host.old).input →
        (more : List ℕ) × HasTaken input.new (taken ++ more) first (H.beside host.new).input }
    ensures alone { TakesAlone ⟦<H as Disk>⟧ host.old host.new }
{
    while input.fill(host)? > 0 {
        if !consumer.take(input.block())? {
            return Ok(false);
        }
    }
    Ok(true)
}
