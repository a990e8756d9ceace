// The lightest intervals of the first children, by how many of them are in their second form.
ghost use Rattle.std.specs.Prelude.{◌≡◌, ℕ, ◌+◌, ◌*◌, ◌^◌, ◌<◌, ◌≤◌, List, [], ◌∷◌, ◌++◌, length, slice_index, OnOk};
ghost use Rattle.nx_choices.specs.Choice.{AreWeighed};
ghost use Rattle.nx_choices.specs.Lightest.{AreLightest, HasAddedChild, IsFewest, IsLengthened, IsSkipped};

use crate::Child;
use nx_lists::NoMemory;
use std::alloc::Global;

#[derive(Drop)]
pub(crate) struct Lightest {
    // What the lightest interval weighs with at most 0, 1 and so on members in their second form, where
    // that is at most k. More of them than there are weights don't make it lighter, or aren't asked for.
    pub(crate) weights: Vec<u32>,
    // How many of the weights come before the first that is at most k. They stay more than k, so they
    // aren't kept up to date.
    pub(crate) fewest: usize,
}

impl Lightest {
    // It takes no memory yet.
    pub(crate) fn new(alloc: Global) -> Lightest {
        Lightest {
            weights: Vec::new(alloc),
            fewest: 0,
        }
    }

    // Makes it that of these children, for fewer than `extras` members in their second form.
    pub(crate) fn weigh(
        &mut self,
        k: u32,
        extras: usize,
        children: &[Child],
    ) -> Result<(), NoMemory>
        requires number { length children.now ≤ 256 }
        requires weighed { AreWeighed 256 children.now }
        ensures { OnOk result (AreLightest k children.now extras self.new.weights.items self.new.fewest) }
    {
        self.clear()?;
        for child in children {
            self.add(k, extras, child)?;
        }
        Ok(())
    }

    // Makes it that of no children.
    pub(crate) fn clear(&mut self) -> Result<(), NoMemory>
        ensures { OnOk result ((k extras : ℕ) → AreLightest k [] extras self.new.weights.items self.new.fewest) }
    {
        self.weights.clear();
        self.weights.push(0)?;
        self.fewest = 0;
        Ok(())
    }

    // Adds a child behind the others.
    pub(crate) fn add(&mut self, k: u32, extras: usize, child: &Child) -> Result<(), NoMemory>
        requires lean { child.now.lean ≤ 256 }
        requires nearly { child.now.nearly ≤ 256 }
        requires some { 1 ≤ length self.old.weights.items }
        requires small { (index : ℕ) → slice_index self.old.weights.items index ≤ 2 ^ 31 }
        ensures { OnOk result ((children : List Child) → AreLightest k children extras self.old.weights.items self.old.fewest → AreLightest k (children ++ child.now ∷ []) extras self.new.weights.items self.new.fewest) }
    {
        let number = self.weights.len();
        self.lengthen(extras, child)?;
        self.update(number, child);
        self.skip(k);
        Ok(())
    }

    // Adds a weight for one member more in its second form, where that makes the interval lighter.
    fn lengthen(&mut self, extras: usize, child: &Child) -> Result<(), NoMemory>
        requires nearly { child.now.nearly ≤ 256 }
        requires some { 1 ≤ length self.old.weights.items }
        requires small { (index : ℕ) → slice_index self.old.weights.items index ≤ 2 ^ 31 }
        ensures fewest { self.new.fewest ≡ self.old.fewest }
        ensures weights { OnOk result (IsLengthened extras child.now self.old.weights.items self.new.weights.items) }
    {
        let number = self.weights.len();
        if child.nearly < child.lean && number < extras {
            let last = self.weights[number - 1];
            self.weights.push(last + child.nearly)?;
        }
        Ok(())
    }

    // Adds the child to the first `number` weights that are kept.
    fn update(&mut self, number: usize, child: &Child)
        requires lean { child.now.lean ≤ 256 }
        requires nearly { child.now.nearly ≤ 256 }
        requires number { number ≤ length self.old.weights.items }
        requires some { 1 ≤ number }
        requires small { (index : ℕ) → index < number → slice_index self.old.weights.items index ≤ 2 ^ 31 }
        ensures fewest { self.new.fewest ≡ self.old.fewest }
        ensures weights { HasAddedChild child.now self.old.fewest number self.old.weights.items self.new.weights.items }
    {
        let lean = child.lean;
        let nearly = child.nearly;
        for most in (self.fewest.max(1)..number).rev() {
            let first = self.weights[most] + lean;
            let second = self.weights[most - 1] + nearly;
            self.weights[most] = first.min(second);
        }
        if self.fewest == 0 {
            self.weights[0] += lean;
        }
    }

    // Goes on to the first weight that is at most k.
    fn skip(&mut self, k: u32)
        ensures weights { self.new.weights.items ≡ self.old.weights.items }
        ensures fewest { IsSkipped k self.new.weights.items self.old.fewest self.new.fewest }
    {
        while self.fewest < self.weights.len() && self.weights[self.fewest] > k {
            self.fewest += 1;
        }
    }

    // The fewest members in their second form with which the interval weighs at most k.
    pub(crate) fn fewest(&self) -> Option<u32>
        requires { length self.now.weights.items < 2 ^ 32 }
        ensures { IsFewest self.now.weights.items self.now.fewest result }
    {
        if self.fewest < self.weights.len() {
            Some(self.fewest as u32)
        } else {
            None
        }
    }
}
