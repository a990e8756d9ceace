// What the choices over the children of a node give.
ghost use Rattle.std.specs.Prelude.{◌<◌, ◌≤◌, ◌^◌, length, IfOk, OnOk};
ghost use Rattle.nx_choices.specs.Choice.{leasts, AreWeighed};
ghost use Rattle.nx_choices.specs.Claim.{FindsExceeded};
ghost use Rattle.nx_choices.specs.Least.{IsLeastChoice};
ghost use Rattle.nx_choices.specs.Stand.{AddsChoice, HasChoice};
ghost use Rattle.nx_choices.specs.Profile.{AreProfiles, IsProfile};

use crate::build::Cuts;
use crate::found::{Counts, Parent};
use crate::lightest::Lightest;
use crate::profile::Profile;
use crate::profiles::Profiles;
use crate::reach::{Form, Reach};
use crate::walk::{follow, push_uncut, total};
use crate::{Child, Field, Stand};
use nx_lists::NoMemory;
use std::alloc::Global;

// With more children the profiles' memory is given back once a choice is told. What the caller makes of the
// choice then takes its place.
const MANY: usize = 4096;

/// The choices over the children of one node after another. It keeps the memory that it took for the nodes
/// that come after: for the node with the most children 16 bytes a child, and two bytes for each number of
/// their profiles, of which a child seldom has more than a few, and at most k + 1. `choose` gives back that
/// of a node with more than 4,096 children.
#[derive(Drop)]
pub struct Choices {
    alloc: Global,
    // What the choices may leave over all children.
    profile: Profile,
    // What they may leave over the last ones, where not all children fit into the node's part.
    profiles: Profiles,
    // The lightest intervals of the first children.
    lightest: Lightest,
}

impl Choices {
    /// It takes no memory yet.
    pub fn new(alloc: Global) -> Choices {
        Choices {
            alloc,
            profile: Profile::new(alloc),
            profiles: Profiles::new(alloc),
            lightest: Lightest::new(alloc),
        }
    }

    /// The first number that is claimed of a node and is more than the least that a choice over its children
    /// gives, and that least; none where each number is supported. The node weighs `own`, and no part may
    /// weigh more than `k`. Both forms of each child have to weigh at least 1 and at most `k`, which is at
    /// most 256.
    ///
    /// Errors: `NoMemory`, where there is none for what the choices have to keep.
    pub fn exceeded(
        &mut self,
        k: u32,
        own: u32,
        children: &[Child],
        claimed: Child,
    ) -> Result<Option<(Field, u32)>, NoMemory>
        requires some { 1 ≤ k }
        requires bound { k ≤ 256 }
        requires number { length children.now < 2 ^ 31 }
        requires weights { AreWeighed k children.now }
        ensures { IfOk result (λ found. FindsExceeded k (record { own = own; children = children.now; bound = claimed }) found) }
    {
        let Some(room) = k.checked_sub(own) else {
            return Ok(None);
        };
        self.run(k, room, children)?;
        let parent = Parent {
            own,
            room,
            counts: Counts::new(children),
        };
        Ok(self.profile.exceeded(parent, claimed))
    }

    /// What the least choices over the children give at a node that weighs `own`, where no part may weigh
    /// more than `k`: the least count, the least weight of the node's part with that count, and the least
    /// with at most one more. `own` is at most `k`, and `k` at most 256. Both forms of each child have to
    /// weigh at least 1 and at most `k`.
    ///
    /// Errors: `NoMemory`, where there is none for what the choices have to keep.
    pub fn least(&mut self, k: u32, own: u32, children: &[Child]) -> Result<Child, NoMemory>
        requires some { 1 ≤ k }
        requires bound { k ≤ 256 }
        requires own { own ≤ k }
        requires number { length children.now < 2 ^ 31 }
        requires sum { leasts children.now < 2 ^ 31 }
        requires weights { AreWeighed k children.now }
        ensures { IfOk result (λ node. IsLeastChoice k own children.now node) }
    {
        let room = k - own;
        self.run(k, room, children)?;
        let parent = Parent {
            own,
            room,
            counts: Counts::new(children),
        };
        Ok(self.profile.least(parent))
    }

    /// Adds to the list how each of the children stands in a choice that counts at most `most` intervals,
    /// where the node's part weighs at most `weight`. There has to be such a choice. The node weighs
    /// `own`, no part may weigh more than `k`, which is at most 256, and both forms of each child have to
    /// weigh at least 1 and at most `k`.
    ///
    /// Errors: `NoMemory`, where there is none for what the choices have to keep or for the list, which may
    /// then have grown by some of them.
    pub fn choose(
        &mut self,
        k: u32,
        own: u32,
        children: &[Child],
        most: u32,
        weight: u32,
        stands: &mut Vec<Stand>,
    ) -> Result<(), NoMemory>
        requires some { 1 ≤ k }
        requires bound { k ≤ 256 }
        requires number { length children.now < 2 ^ 31 }
        requires weights { AreWeighed k children.now }
        requires there { HasChoice k own most weight children.now }
        ensures { OnOk result (AddsChoice k own most weight children.now stands.old.items stands.new.items) }
    {
        let room = weight.min(k) - own;
        match total(children, room) {
            Some(_) => push_uncut(children.len(), stands),
            None => {
                self.make(k, room, children)?;
                let cost = self.profile.cheapest(room);
                let (profiles, lightest) = (&self.profiles, &mut self.lightest);
                follow(k, children, cost, room, profiles, lightest, stands)?;
                if children.len() > MANY {
                    self.profiles = Profiles::new(self.alloc);
                }
                Ok(())
            }
        }
    }

    // Makes the profile of all children.
    fn run(&mut self, k: u32, room: u32, children: &[Child]) -> Result<(), NoMemory>
        requires some { 1 ≤ k }
        requires bound { k ≤ 256 }
        requires room { room ≤ k }
        requires number { length children.now < 2 ^ 31 }
        requires weights { AreWeighed k children.now }
        ensures { OnOk result (IsProfile k room children.now self.new.profile.base self.new.profile.lefts.items) }
    {
        match total(children, room) {
            Some(total) => self.profile.fill(total),
            None => self.make(k, room, children),
        }
    }

    // Makes the profiles of all children and of the last ones, from the last one on.
    fn make(&mut self, k: u32, room: u32, children: &[Child]) -> Result<(), NoMemory>
        requires some { 1 ≤ k }
        requires bound { k ≤ 256 }
        requires room { room ≤ 256 }
        requires number { length children.now < 2 ^ 31 }
        requires weights { AreWeighed k children.now }
        ensures profile { OnOk result (IsProfile k room children.now self.new.profile.base self.new.profile.lefts.items) }
        ensures profiles { OnOk result (AreProfiles k room children.now self.new.profiles) }
    {
        self.profile.reset();
        self.profiles.reset()?;
        let mut plain = Reach::new();
        let mut light = Reach::new();
        for at in (0..children.len()).rev() {
            let rest = &children[at..];
            plain = plain.extend(k, Form::Plain, rest);
            light = light.extend(k, Form::Light, rest);
            let cuts = Cuts {
                k,
                room,
                plain: plain.len,
                light: light.len,
            };
            self.profile
                .build(cuts, rest, &self.profiles, &mut self.lightest)?;
            self.profiles.push(&self.profile)?;
        }
        Ok(())
    }
}
