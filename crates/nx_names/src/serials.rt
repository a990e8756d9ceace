// Labels, numbered, and the records that have each of them.
ghost use Rattle.std.specs.Prelude.{◌≡◌, ◌≤◌, length, IfOk, OnOk};
ghost use Rattle.nx_names.specs.Serials.{serials_at};
ghost use Rattle.nx_names.specs.Opening.{AddsOpen, IsFirstNew};
ghost use Rattle.nx_names.specs.Numbering.{AddsAt, NumbersLabel};

use nx_tree::NoMemory;
use std::alloc::Global;
use std::collections::BTreeMap;

// The labels that came, and for each of them the numbers of the records that have it, in their order.
#[derive(Drop)]
pub(crate) struct Serials {
    // The labels' own numbers, from 0 on.
    pub(crate) numbers: BTreeMap<Vec<u8>, u32>,
    // In the order of the labels' numbers.
    pub(crate) lists: Vec<Vec<u32>>,
}

impl Serials {
    // The numbers of the records that have the label.
    pub(crate) fn at(&self, label: &[u8]) -> &[u32]
        ensures { result.now ≡ serials_at self.now label.now }
    {
        let Some(number) = self.numbers.get(label) else {
            return &[];
        };
        match self.lists.get(*number as usize) {
            Some(serials) => serials.as_slice(),
            None => &[],
        }
    }

    // The label's own number. A new label gets the next one, of which there is no list yet.
    //
    // Errors: `NoMemory`, also where it would be the label of number 4,294,967,296.
    pub(crate) fn number_of(&mut self, alloc: Global, label: &[u8]) -> Result<u32, NoMemory>
        ensures { IfOk result (λ number. NumbersLabel self.old label.now self.new number) }
    {
        if let Some(number) = self.numbers.get(label) {
            return Ok(*number);
        }
        let Ok(number) = u32::try_from(self.lists.len()) else {
            return Err(NoMemory);
        };
        let key = Vec::from_slice(alloc, label)?;
        self.numbers.insert(key, number)?;
        Ok(number)
    }

    // Adds the numbers of the records around a walk to the list of a label's number, which may be the next one.
    //
    // Errors: `NoMemory`.
    pub(crate) fn add(&mut self, alloc: Global, number: u32, around: &[u32]) -> Result<(), NoMemory>
        ensures { OnOk result (AddsAt self.old number around.now self.new) }
    {
        match self.lists.get_mut(number as usize) {
            Some(serials) => add_open(serials, around),
            None => {
                self.lists.push(Vec::from_slice(alloc, around)?)?;
                Ok(())
            }
        }
    }
}

// Adds the numbers of the records around the walk that aren't in the list. Where one is, those before it are.
fn add_open(serials: &mut Vec<u32>, around: &[u32]) -> Result<(), NoMemory>
    ensures { OnOk result (AddsOpen serials.old.items around.now serials.new.items) }
{
    let from = first_new(serials.as_slice(), around);
    serials.extend_from_slice(&around[from..])?;
    Ok(())
}

// Behind how many of these numbers all are greater than those in the list.
fn first_new(serials: &[u32], around: &[u32]) -> usize
    ensures bound { result ≤ length around.now }
    ensures parts { IsFirstNew serials.now around.now result }
{
    let Some(last) = serials.last().copied() else {
        return 0;
    };
    around.partition_point(|serial| *serial <= last)
}
