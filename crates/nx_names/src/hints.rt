// Labels that come again, found without a search.
ghost use Rattle.std.specs.Prelude.{◌≡◌, IfSome, Some, OnOk};
ghost use Rattle.nx_matrix.specs.Label.{label_by};
ghost use Rattle.nx_names.specs.Serials.{LabelNumbers, label_number};
ghost use Rattle.nx_names.specs.Numbering.{AreRight};

use nx_reach::is_label;
use nx_tree::{Kind, NoMemory};
use std::alloc::Global;

// How many there are from the first label on, and at most: powers of two.
const FEWEST: usize = 64;

const MOST: usize = 4_096;
// So many times as many hints as labels are wanted.
const SPARE: usize = 8;
// No longer label is kept.
const LONGEST: usize = 64;

// Short labels that came, with their numbers, each in the place that its hash says or in the one beside it. Of three with these
// places it has two.
#[derive(Drop)]
pub(crate) struct Hints {
    alloc: Global,
    hints: Vec<Hint>,
}

// A label and its number; no label where it is empty.
#[derive(Drop)]
pub(crate) struct Hint {
    label: Vec<u8>,
    number: u32,
}

impl Hints {
    pub(crate) fn new(alloc: Global) -> Hints
        ensures { (numbers : LabelNumbers) → AreRight numbers result }
    {
        Hints {
            alloc,
            hints: Vec::new(alloc),
        }
    }

    // The number of the label of nodes of this kind and name, if it is there.
    pub(crate) fn number_of(&self, kind: Kind, name: &[u8]) -> Option<u32>
        ensures { IfSome result (λ number. (numbers : LabelNumbers) → AreRight numbers self.now → label_number numbers (label_by kind name.now) ≡ Some number) }
    {
        let place = self.place_of(kind, name);
        match self.number_in(place, kind, name) {
            Some(number) => Some(number),
            None => self.number_in(place ^ 1, kind, name),
        }
    }

    // The same, if it is in this place.
    fn number_in(&self, place: usize, kind: Kind, name: &[u8]) -> Option<u32>
        ensures { IfSome result (λ number. (numbers : LabelNumbers) → AreRight numbers self.now → label_number numbers (label_by kind name.now) ≡ Some number) }
    {
        let hint = self.hints.get(place)?;
        if hint.label.is_empty() || !is_label(hint.label.as_slice(), kind, name) {
            return None;
        }
        Some(hint.number)
    }

    // Keeps the label of nodes of this kind and name with its number, unless it is long. There are so many labels now.
    //
    // Errors: `NoMemory`.
    pub(crate) fn keep(
        &mut self,
        kind: Kind,
        name: &[u8],
        label: &[u8],
        number: u32,
        labels: usize,
    ) -> Result<(), NoMemory>
        ensures { OnOk result ((numbers : LabelNumbers) → AreRight numbers self.old → label_number numbers label.now ≡ Some number → AreRight numbers self.new) }
    {
        if label.len() > LONGEST {
            return Ok(());
        }
        if self.hints.len() < MOST && self.hints.len() / SPARE < labels {
            self.double()?;
        }
        let mut place = self.place_of(kind, name);
        if self.is_taken(place) {
            place ^= 1;
        }
        if let Some(hint) = self.hints.get_mut(place) {
            *hint = Hint {
                label: Vec::from_slice(self.alloc, label)?,
                number,
            };
        }
        Ok(())
    }

    // Whether there is a label in this place.
    fn is_taken(&self, place: usize) -> bool {
        match self.hints.get(place) {
            Some(hint) => !hint.label.is_empty(),
            None => false,
        }
    }

    // Makes twice as many of them. Those that were there stay where they are, whether they are found there or not.
    fn double(&mut self) -> Result<(), NoMemory>
        ensures { OnOk result ((numbers : LabelNumbers) → AreRight numbers self.old → AreRight numbers self.new) }
    {
        for _ in 0..self.hints.len().max(FEWEST) {
            self.hints.push(Hint {
                label: Vec::new(self.alloc),
                number: 0,
            })?;
        }
        Ok(())
    }

    // Where the label of nodes of this kind and name belongs.
    fn place_of(&self, kind: Kind, name: &[u8]) -> usize {
        let mut hash = kind as u64;
        for byte in name {
            hash = hash.rotate_left(5) ^ u64::from(*byte);
        }
        // The upper bits of the product depend on all bytes.
        let mixed = hash.wrapping_mul(0x9e37_79b9_7f4a_7c15) >> 48;
        mixed as usize & self.hints.len().saturating_sub(1)
    }
}
