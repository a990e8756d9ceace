// The document that an input is.
ghost use Rattle.std.specs.Prelude.{◌≡◌, ℕ, List, refl};
ghost use Rattle.nx_host.specs.Phase.{TakesAlone};
ghost use Rattle.nx_pyx.specs.Reader.{HasRead};
ghost use Rattle.nx_filters.specs.Outcome.{ReadsTo, TakesFew};
ghost use Rattle.nx_filters.specs.Tidy.{ShowsDocument, tidy, Finishes};

use crate::consumer::{Consumer, feed};
use crate::take_error::TakeError;
use nx_host::{Disk, Host, Input};
use nx_pyx::Reader;
use nx_tree::Tree;
use std::alloc::Global;

impl Consumer for Reader {
    ghost has_read = { λ reader taken. HasRead reader taken };

    ghost has_enough = { λ _ _. ⊥ };

    ghost shows = { ShowsDocument };

    fn take(&mut self, block: &[u8]) -> Result<bool, TakeError> {
        self.feed(block)?;
        Ok(true)
    }

    ghost shows_none = { λ reader taken read. (refl, read.shows_none) };
}

// The document that the whole input says.
pub fn read<H: Host>(alloc: Global, host: &mut H) -> Result<Tree, TakeError>
    ensures reads { ReadsTo tidy result (H.beside host.old) (H.beside host.new) }
    ensures bounded { TakesFew (H.beside host.old).input (H.beside host.new).input }
    ensures alone { TakesAlone ⟦<H as Disk>⟧ host.old host.new }
{
    let mut reader = Reader::new(alloc)?;
    let mut input = Input::new(alloc)?;
    feed(host, &mut input, &mut reader)?;
    finish(reader)
}

// The document of the whole input.
fn finish(reader: Reader) -> Result<Tree, TakeError>
    ensures { (taken : List ℕ) → HasRead reader taken → Finishes taken result }
{
    Ok(reader.finish()?)
}
