// The labels at or below records, gathered on a walk over all of them.
ghost use Rattle.std.specs.Prelude.{◌≡◌, ℕ, List, [], ◌∷◌, OnOk, IfOk, true, ◌↔◌};
ghost use Rattle.std.specs.Option.{MatchOption};
ghost use Rattle.nx_layouts.specs.Layout.{RecordPlace, ArePlacedOnce};
ghost use Rattle.nx_names.specs.Look.{RecordBegins, NodeBegins, RecordEnds};
ghost use Rattle.nx_names.specs.Serials.{PlacesRise, has_noted, noted_from};
ghost use Rattle.nx_matrix.specs.Label.{label_by};
ghost use Rattle.nx_names.specs.Numbering.{AreRight, NumbersLabel};
ghost use Rattle.nx_names.specs.Gathered.{Gathered, GathersLabels, HasGathered, nothing_gathered, holds_label};

use crate::LabelMap;
use crate::hints::Hints;
use crate::holding::key_of;
use crate::labels::write_label;
use crate::noted::Noted;
use crate::serials::Serials;
use nx_tree::{Kind, NoMemory};
use std::alloc::Global;
use std::collections::BTreeMap;

/// The labels that came so far on a walk that is shown a document, and the records around it.
#[derive(Drop)]
pub struct Gatherer {
    alloc: Global,
    serials: Serials,
    hints: Hints,
    // In the order of their numbers.
    noted: Vec<Noted>,
    // The numbers of the records around the walk, the outermost's first.
    around: Vec<u32>,
    // Room for a label.
    label: Vec<u8>,
}

impl Gatherer {
    /// Before a document. It takes no memory.
    pub fn new(alloc: Global) -> Gatherer
        ensures { HasGathered result nothing_gathered }
    {
        Gatherer {
            alloc,
            serials: Serials {
                numbers: BTreeMap::new(alloc),
                lists: Vec::new(alloc),
            },
            hints: Hints::new(alloc),
            noted: Vec::new(alloc),
            around: Vec::new(alloc),
            label: Vec::new(alloc),
        }
    }

    /// The interval of the record at a page's slot begins.
    ///
    /// Errors: `NoMemory`, also where it would be the record of number 4,294,967,296.
    pub fn enter(&mut self, page: u32, slot: u16) -> Result<(), NoMemory>
        ensures { OnOk result (GathersLabels self.old (RecordBegins (record { page = page; slot = slot }) ∷ []) self.new) }
    {
        let Ok(serial) = u32::try_from(self.noted.len()) else {
            return Err(NoMemory);
        };
        self.noted.push(Noted { page, serial, slot })?;
        self.around.push(serial)?;
        Ok(())
    }

    /// A node begins, of this kind and name.
    ///
    /// Errors: `NoMemory`.
    pub fn begin(&mut self, kind: Kind, name: &[u8]) -> Result<(), NoMemory>
        ensures { OnOk result (GathersLabels self.old (NodeBegins kind name.now ∷ []) self.new) }
    {
        let number = self.number_of(kind, name)?;
        self.serials.add(self.alloc, number, self.around.as_slice())
    }

    // The number of the label of nodes of this kind and name.
    fn number_of(&mut self, kind: Kind, name: &[u8]) -> Result<u32, NoMemory>
        ensures number { IfOk result (λ number. AreRight self.old.serials.numbers self.old.hints → NumbersLabel self.old.serials (label_by kind name.now) self.new.serials number × AreRight self.new.serials.numbers self.new.hints) }
        ensures noted { OnOk result (self.new.noted ≡ self.old.noted) }
        ensures around { OnOk result (self.new.around ≡ self.old.around) }
    {
        if let Some(number) = self.hints.number_of(kind, name) {
            return Ok(number);
        }
        write_label(&mut self.label, kind, name)?;
        let label = self.label.as_slice();
        let number = self.serials.number_of(self.alloc, label)?;
        let labels = self.serials.lists.len();
        self.hints.keep(kind, name, label, number, labels)?;
        Ok(number)
    }

    /// The interval ends that began last.
    pub fn leave(&mut self)
        ensures { GathersLabels self.old (RecordEnds ∷ []) self.new }
    {
        self.around.pop();
    }

    /// What was gathered, or `None` where a record came twice.
    ///
    /// Errors: `NoMemory`.
    pub fn finish(self) -> Result<Option<LabelMap>, NoMemory>
        requires { (g : Gathered) × HasGathered self g }
        ensures { IfOk result (λ found. (g : Gathered) → HasGathered self g → MatchOption found (ArePlacedOnce g.places → ⊥)
            (λ map. (place : RecordPlace) (name : List ℕ) → holds_label map place name ≡ has_noted (noted_from 0 g.places) place (g.heard name))) }
    {
        let Gatherer {
            alloc,
            serials,
            mut noted,
            ..
        } = self;
        noted.shrink_to_fit();
        let mut placed = Vec::from_slice(alloc, noted.as_slice())?;
        placed.sort_by_key(|noted| key_of(noted.page, noted.slot))?;
        if !rise(placed.as_slice()) {
            return Ok(None);
        }
        Ok(Some(LabelMap {
            alloc,
            serials,
            noted,
            placed,
        }))
    }
}

// Whether each record stands before the next one.
fn rise(noted: &[Noted]) -> bool
    ensures { (result ≡ true) ↔ PlacesRise noted.now }
{
    for index in 1..noted.len() {
        let (one, next) = (noted[index - 1], noted[index]);
        if key_of(next.page, next.slot) <= key_of(one.page, one.slot) {
            return false;
        }
    }
    true
}
