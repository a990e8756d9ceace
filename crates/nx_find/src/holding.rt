// Which labels names hold.
ghost use Rattle.std.specs.Prelude.{◌≡◌};
ghost use Rattle.nx_hold.specs.Changes.{place_of};
ghost use Rattle.nx_find.specs.Over.{holds_of};

use crate::Names;
use nx_records::Rid;

impl Names {
    /// Whether a node in the part of the record at a place, or in a part below it, has the label. It takes no memory.
    pub fn holds(&self, rid: Rid, label: &[u8]) -> bool
        ensures { result ≡ holds_of self.now (place_of rid) label.now }
    {
        self.map.holds(rid.page, rid.slot, label)
    }
}
