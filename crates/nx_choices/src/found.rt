// What the choices over all children of a node give.
ghost use Rattle.std.specs.Prelude.{◌≡◌, ℕ, ◌+◌, ◌<◌, ◌≤◌, ◌^◌, List, length, vec_len, IfSome};
ghost use Rattle.nx_choices.specs.Choice.{leasts};
ghost use Rattle.nx_choices.specs.Claim.{FindsExceeded};
ghost use Rattle.nx_choices.specs.Least.{IsLeastChoice, IsLeastWithin};
ghost use Rattle.nx_choices.specs.Profile.{count_by_cost, AreCounts, IsBudget, IsCheapest, IsExcess, IsLeastLeft, IsProfile};

use crate::profile::{Profile, first_at_most, get_or_zero};
use crate::{Child, Field};

// The children of a node in sum.
#[derive(Clone, Copy)]
pub(crate) struct Counts {
    // How many there are.
    number: u64,
    // How many intervals there are within them, each in its first form.
    sum: u64,
}

// A node, as the choices over its children see it.
#[derive(Clone, Copy)]
pub(crate) struct Parent {
    // What it weighs.
    pub(crate) own: u32,
    // What may be left with it.
    pub(crate) room: u32,
    // Its children.
    pub(crate) counts: Counts,
}

impl Counts {
    // Those of these children.
    pub(crate) fn new(children: &[Child]) -> Counts
        requires { length children.now < 2 ^ 31 }
        ensures number { result.number ≡ length children.now }
        ensures sum { result.sum ≡ leasts children.now }
        ensures small { result.sum ≤ 2 ^ 63 }
    {
        let mut sum = 0;
        for child in children {
            sum += u64::from(child.least);
        }
        Counts {
            number: children.len() as u64,
            sum,
        }
    }

    // The count of a choice with this cost.
    fn count(self, cost: u32) -> u64
        requires { self.sum ≤ 2 ^ 63 }
        ensures { result ≡ count_by_cost self.sum self.number cost }
    {
        (1 + u64::from(cost) + self.sum)
            .saturating_sub(self.number)
            .max(1)
    }

    // What a choice may cost whose count is at most `most`; none where there is no such choice.
    fn budget(self, most: u64) -> Option<u64>
        requires sum { self.sum ≤ 2 ^ 63 }
        requires number { self.number < 2 ^ 31 }
        requires most { most ≤ 2 ^ 32 }
        ensures { IsBudget self.sum self.number most result }
    {
        if most == 0 {
            None
        } else {
            (most + self.number).checked_sub(1 + self.sum)
        }
    }
}

impl Profile {
    // The least cost of a choice that leaves no more than there is room for.
    pub(crate) fn cheapest(&self, room: u32) -> u32
        requires { self.now.base + vec_len self.now.lefts < 2 ^ 32 }
        ensures within { result ≤ self.now.base + vec_len self.now.lefts }
        ensures cheapest { (k : ℕ) (children : List Child) → IsProfile k room children self.now.base self.now.lefts.items → IsCheapest k room children result }
    {
        match first_at_most(&self.lefts, room) {
            Some(index) => self.base + index as u32,
            None => self.end(),
        }
    }

    // The least that is left by choices with at most this cost, where there is room for it.
    fn least_left(&self, cost: u64, room: u32) -> Option<u32>
        ensures small { IfSome result (λ left. left ≤ room) }
        ensures least { (k : ℕ) (children : List Child) → IsProfile k room children self.now.base self.now.lefts.items → IsLeastLeft k room children cost result }
    {
        let base = u64::from(self.base);
        if cost < base {
            return None;
        }
        let left = get_or_zero(&self.lefts, (cost - base) as usize);
        if left > room { None } else { Some(left) }
    }

    // The least that the node's part weighs by a choice with a count of at most `most`, where more is
    // claimed.
    fn exceeds(&self, parent: Parent, most: u64, claimed: u32) -> Option<u32>
        requires own { parent.own ≤ 256 }
        requires room { parent.room ≤ 256 }
        requires sum { parent.counts.sum ≤ 2 ^ 63 }
        requires number { parent.counts.number < 2 ^ 31 }
        requires most { most ≤ 2 ^ 32 }
        ensures { (children : List Child) → IsProfile (parent.own + parent.room) parent.room children self.now.base self.now.lefts.items → AreCounts children parent.counts.number parent.counts.sum → IsExcess (parent.own + parent.room) parent.own children most claimed result }
    {
        let Some(budget) = parent.counts.budget(most) else {
            return None;
        };
        let Some(left) = self.least_left(budget, parent.room) else {
            return None;
        };
        let found = parent.own + left;
        if found < claimed { Some(found) } else { None }
    }

    // The first number that is claimed and is more than the least that a choice gives, and that least.
    pub(crate) fn exceeded(&self, parent: Parent, claims: Child) -> Option<(Field, u32)>
        requires own { parent.own ≤ 256 }
        requires room { parent.room ≤ 256 }
        requires sum { parent.counts.sum ≤ 2 ^ 63 }
        requires number { parent.counts.number < 2 ^ 31 }
        requires end { self.now.base + vec_len self.now.lefts < 2 ^ 32 }
        ensures { (children : List Child) → IsProfile (parent.own + parent.room) parent.room children self.now.base self.now.lefts.items → AreCounts children parent.counts.number parent.counts.sum → FindsExceeded (parent.own + parent.room) (record { own = parent.own; children = children; bound = claims }) result }
    {
        let claimed = u64::from(claims.least);
        let least = parent.counts.count(self.cheapest(parent.room));
        if least < claimed {
            return Some((Field::Least, least as u32));
        }
        if let Some(found) = self.exceeds(parent, claimed, claims.lean) {
            return Some((Field::Lean, found));
        }
        if let Some(found) = self.exceeds(parent, claimed + 1, claims.nearly) {
            return Some((Field::Nearly, found));
        }
        None
    }

    // The least that the node's part weighs by a choice with a count of at most `most`. There has to be
    // such a choice, so that there is a budget, and something is left by it.
    fn lightest(&self, parent: Parent, most: u64) -> u32
        requires own { parent.own ≤ 256 }
        requires room { parent.room ≤ 256 }
        requires sum { parent.counts.sum ≤ 2 ^ 63 }
        requires number { parent.counts.number < 2 ^ 31 }
        requires most { most ≤ 2 ^ 32 }
        ensures { (children : List Child) (cheapest : ℕ) → IsProfile (parent.own + parent.room) parent.room children self.now.base self.now.lefts.items → AreCounts children parent.counts.number parent.counts.sum → IsCheapest (parent.own + parent.room) parent.room children cheapest → count_by_cost parent.counts.sum parent.counts.number cheapest ≤ most → IsLeastWithin (parent.own + parent.room) parent.own children most result }
    {
        let Some(budget) = parent.counts.budget(most) else {
            return parent.own;
        };
        let Some(left) = self.least_left(budget, parent.room) else {
            return parent.own;
        };
        parent.own + left
    }

    // The numbers of the node.
    pub(crate) fn least(&self, parent: Parent) -> Child
        requires own { parent.own ≤ 256 }
        requires room { parent.room ≤ 256 }
        requires sum { parent.counts.sum < 2 ^ 31 }
        requires number { parent.counts.number < 2 ^ 31 }
        requires end { self.now.base + vec_len self.now.lefts ≤ parent.counts.number }
        ensures { (children : List Child) → IsProfile (parent.own + parent.room) parent.room children self.now.base self.now.lefts.items → AreCounts children parent.counts.number parent.counts.sum → IsLeastChoice (parent.own + parent.room) parent.own children result }
    {
        let least = parent.counts.count(self.cheapest(parent.room));
        Child {
            least: least as u32,
            lean: self.lightest(parent, least),
            nearly: self.lightest(parent, least + 1),
        }
    }
}
