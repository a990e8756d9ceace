// Which records a walk reads.
ghost use Rattle.std.specs.Prelude.{◌≡◌};
ghost use Rattle.nx_hold.specs.Changes.{place_of};
ghost use Rattle.nx_find.specs.Wanted.{is_wanted};

use nx_names::Holders;
use nx_records::Rid;

// Which records a walk reads below the root's.
#[derive(Drop)]
pub enum Wanted {
    All,
    // Those that hold a label.
    Those(Holders),
}

impl Wanted {
    // Whether the record at a place is one of them.
    pub fn wants(&self, rid: Rid) -> bool
        ensures { result ≡ is_wanted self.now (place_of rid) }
    {
        match self {
            Wanted::All => true,
            Wanted::Those(holders) => holders.has(rid.page, rid.slot),
        }
    }
}
