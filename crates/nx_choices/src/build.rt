// The profile of children from those of the children without the first ones.
ghost use Rattle.std.specs.Prelude.{◌≡◌, ℕ, ◌+◌, ◌<◌, ◌≤◌, ◌^◌, drop, length, vec_len, OnOk};
ghost use Rattle.nx_choices.specs.Choice.{AreWeighed};
ghost use Rattle.nx_choices.specs.Profile.{AreProfiles, IsDraftOf, IsProfile, IsReach};
ghost use Rattle.nx_choices.specs.declared.reach.Form.TheVariants.{Plain, Light};

use crate::Child;
use crate::lightest::Lightest;
use crate::profile::Profile;
use crate::profiles::Profiles;
use nx_lists::NoMemory;

// How the first of some children may be cut.
#[derive(Clone, Copy)]
pub(crate) struct Cuts {
    // What an interval may weigh.
    pub(crate) k: u32,
    // What may be left with the node.
    pub(crate) room: u32,
    // How many children an interval has at most where each is in its first form.
    pub(crate) plain: usize,
    // How many it has at most.
    pub(crate) light: usize,
}

impl Profile {
    // Makes it the profile of these children, where `profiles` are those of the children without the
    // first. `lightest` is room to work in.
    pub(crate) fn build(
        &mut self,
        cuts: Cuts,
        children: &[Child],
        profiles: &Profiles,
        lightest: &mut Lightest,
    ) -> Result<(), NoMemory>
        requires k { cuts.k ≤ 256 }
        requires room { cuts.room ≤ 256 }
        requires some { 1 ≤ length children.now }
        requires number { length children.now < 2 ^ 31 }
        requires weighed { AreWeighed cuts.k children.now }
        requires plain { (sum : ℕ) × IsReach cuts.k Plain children.now cuts.plain sum }
        requires light { (sum : ℕ) × IsReach cuts.k Light children.now cuts.light sum }
        requires kept { length children.now ≤ vec_len profiles.now.rows }
        requires profiles { AreProfiles cuts.k cuts.room (drop 1 children.now) profiles.now }
        ensures { OnOk result (IsProfile cuts.k cuts.room children.now self.new.base self.new.lefts.items) }
    {
        self.begin(cuts, children, profiles)?;
        self.cut_longer(cuts, children, profiles, lightest)?;
        self.cut_start(cuts.room);
        Ok(())
    }

    // Makes it that of the choices that leave the first child uncut, or begin with an interval of children
    // in their first form. The longest such interval is as good as each shorter one.
    fn begin(&mut self, cuts: Cuts, children: &[Child], profiles: &Profiles) -> Result<(), NoMemory>
        requires k { cuts.k ≤ 256 }
        requires room { cuts.room ≤ 256 }
        requires some { 1 ≤ cuts.plain }
        requires number { length children.now < 2 ^ 31 }
        requires weighed { AreWeighed cuts.k children.now }
        requires plain { (sum : ℕ) × IsReach cuts.k Plain children.now cuts.plain sum }
        requires kept { length children.now ≤ vec_len profiles.now.rows }
        requires profiles { AreProfiles cuts.k cuts.room (drop 1 children.now) profiles.now }
        ensures { OnOk result (IsDraftOf cuts.k cuts.room children.now (cuts.plain + 1) self.new.base self.new.lefts.items) }
    {
        let lean = children[0].lean;
        let after = profiles.of_last(children.len() - 1);
        let beyond = profiles.of_last(children.len() - cuts.plain);
        self.start(lean, cuts.room, profiles, after, beyond)?;
        Ok(())
    }

    // Lowers the weights to those of choices that begin with a longer interval, some of whose members
    // are in their second form. With `extras` such members they cost as much as to leave nothing.
    fn cut_longer(
        &mut self,
        cuts: Cuts,
        children: &[Child],
        profiles: &Profiles,
        lightest: &mut Lightest,
    ) -> Result<(), NoMemory>
        requires k { cuts.k ≤ 256 }
        requires room { cuts.room ≤ 256 }
        requires some { 1 ≤ cuts.plain }
        requires longer { cuts.plain ≤ cuts.light }
        requires most { cuts.light ≤ 256 }
        requires number { length children.now < 2 ^ 31 }
        requires weighed { AreWeighed cuts.k children.now }
        requires light { (sum : ℕ) × IsReach cuts.k Light children.now cuts.light sum }
        requires kept { length children.now ≤ vec_len profiles.now.rows }
        requires profiles { AreProfiles cuts.k cuts.room (drop 1 children.now) profiles.now }
        requires draft { IsDraftOf cuts.k cuts.room children.now (cuts.plain + 1) self.old.base self.old.lefts.items }
        ensures { OnOk result (IsProfile cuts.k cuts.room children.now self.new.base self.new.lefts.items) }
    {
        if cuts.plain == cuts.light {
            return Ok(());
        }
        let last = profiles.of_last(children.len() - cuts.light);
        let extras = self.end().saturating_sub(last.base + 1) as usize;
        if extras == 0 {
            return Ok(());
        }
        lightest.weigh(cuts.k, extras, &children[..cuts.plain])?;
        for len in cuts.plain..cuts.light {
            lightest.add(cuts.k, extras, &children[len])?;
            if let Some(extra) = lightest.fewest() {
                let beyond = profiles.of_last(children.len() - (len + 1));
                self.lower(1 + extra, cuts.room, profiles, beyond);
            }
        }
        self.cut_end();
        Ok(())
    }
}
