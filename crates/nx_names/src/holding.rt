// Which records have a label at or below them.
ghost use Rattle.std.specs.Prelude.{◌≡◌, ◌+◌, ◌*◌, ◌<◌, ℕ, Bool, true, false, length, IfOk};
ghost use Rattle.std.specs.Option.{option_map_or};
ghost use Rattle.nx_layouts.specs.Layout.{RecordPlace};
ghost use Rattle.nx_names.specs.Serials.{has_noted, is_in, serials_at, those_noted};
ghost use Rattle.nx_names.specs.Gathered.{holds_label};
ghost use Rattle.nx_names.specs.Holders.{is_holder};

use crate::LabelMap;
use crate::holders::Holders;
use crate::noted::Noted;
use nx_tree::NoMemory;

impl LabelMap {
    /// Whether a node in the part of the record at a page's slot, or in a part below it, has the label. It takes no memory.
    pub fn holds(&self, page: u32, slot: u16, label: &[u8]) -> bool
        ensures { result ≡ holds_label self.now (record { page = page; slot = slot }) label.now }
    {
        match self.serial_at(page, slot) {
            Some(serial) => self.serials.at(label).binary_search(&serial).is_ok(),
            None => false,
        }
    }

    /// The records that have the label at or below them. It takes 12 bytes for each of them, and for a while as much again.
    ///
    /// Errors: `NoMemory`.
    pub fn holders(&self, label: &[u8]) -> Result<Holders, NoMemory>
        ensures { IfOk result (λ holders. (place : RecordPlace) → is_holder holders place ≡ holds_label self.now place label.now) }
    {
        let mut records = self.records_of(self.serials.at(label))?;
        records.sort_by_key(|noted| key_of(noted.page, noted.slot))?;
        Ok(Holders { records })
    }

    // The records of these numbers.
    fn records_of(&self, serials: &[u32]) -> Result<Vec<Noted>, NoMemory>
        requires { (serial : ℕ) → is_in serials.now serial ≡ true → serial < length self.now.noted.items }
        ensures { IfOk result (λ records. records.items ≡ those_noted self.now.noted.items serials.now) }
    {
        let mut records = Vec::with_capacity(self.alloc, serials.len())?;
        for serial in serials {
            records.push(self.noted[*serial as usize])?;
        }
        Ok(records)
    }

    // The number of the record at a page's slot.
    fn serial_at(&self, page: u32, slot: u16) -> Option<u32>
        ensures { (test : ℕ → Bool) → has_noted self.now.placed.items (record { page = page; slot = slot }) test ≡ option_map_or test result false }
    {
        let key = key_of(page, slot);
        match self
            .placed
            .binary_search_by_key(&key, |noted| key_of(noted.page, noted.slot))
        {
            Ok(index) => Some(self.placed[index].serial),
            Err(_) => None,
        }
    }
}

impl Holders {
    /// Whether the record at a page's slot is one of them. It takes no memory.
    pub fn has(&self, page: u32, slot: u16) -> bool
        ensures { result ≡ is_holder self.now (record { page = page; slot = slot }) }
    {
        let key = key_of(page, slot);
        self.records
            .binary_search_by_key(&key, |noted| key_of(noted.page, noted.slot))
            .is_ok()
    }
}

// A number by which places are in order.
pub(crate) fn key_of(page: u32, slot: u16) -> u64
    ensures { result ≡ page * 65536 + slot }
{
    u64::from(page) * 65536 + u64::from(slot)
}
