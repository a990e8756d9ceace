// A choice that gives a wanted cost and weight, child by child.
ghost use Rattle.std.specs.Prelude.{◌≡◌, ℕ, ◌+◌, ◌<◌, ◌≤◌, ◌^◌, List, drop, length, vec_len, IfOk, OnOk};
ghost use Rattle.nx_choices.specs.Choice.{AreWeighed};
ghost use Rattle.nx_choices.specs.Profile.{AreProfiles, IsInterval, IsRowOf, IsAchievable};
ghost use Rattle.nx_choices.specs.Lightest.{AreLightest};
ghost use Rattle.nx_choices.specs.Walk.{stand_at as stand_behind, AddsInterval, AddsUncut, IsCutAt, IsFollowed, IsForm, IsTaken, IsTotal, IsTried, IsUncut};

use crate::lightest::Lightest;
use crate::profiles::{Profiles, Row};
use crate::{Child, Stand};
use nx_lists::NoMemory;

// How far a walk over the children came, and what the others may cost and leave.
#[derive(Clone, Copy)]
pub(crate) struct Walk {
    // How many children are behind it.
    pub(crate) at: usize,
    pub(crate) cost: u32,
    pub(crate) left: u32,
}

// An interval of the first children.
#[derive(Clone, Copy)]
struct Cut {
    // How many members it has.
    number: usize,
    // How many of them are in their second form.
    extra: u32,
}

// What the children weigh in their first form, if that is at most `most`.
pub(crate) fn total(children: &[Child], most: u32) -> Option<u32>
    requires most { most ≤ 256 }
    requires weighed { AreWeighed 256 children.now }
    ensures { IsTotal children.now most result }
{
    let mut sum = 0;
    for child in children {
        sum += child.lean;
        if sum > most {
            return None;
        }
    }
    Some(sum)
}

// Adds that so many children are uncut.
pub(crate) fn push_uncut(number: usize, stands: &mut Vec<Stand>) -> Result<(), NoMemory>
    ensures { OnOk result (AddsUncut number stands.old.items stands.new.items) }
{
    for _ in 0..number {
        stands.push(Stand::Uncut)?;
    }
    Ok(())
}

// Adds how the children stand in a choice that costs and leaves at most so much. There has to be such a
// choice.
pub(crate) fn follow(
    k: u32,
    children: &[Child],
    cost: u32,
    left: u32,
    profiles: &Profiles,
    lightest: &mut Lightest,
    stands: &mut Vec<Stand>,
) -> Result<(), NoMemory>
    requires k { k ≤ 256 }
    requires number { length children.now < 2 ^ 31 }
    requires weighed { AreWeighed k children.now }
    requires left { left ≤ 256 }
    requires profiles { AreProfiles k left children.now profiles.now }
    requires within { IsAchievable k children.now cost left }
    ensures { OnOk result (IsFollowed k children.now cost left stands.old.items stands.new.items) }
{
    let mut walk = Walk { at: 0, cost, left };
    while walk.at < children.len() {
        walk = walk.step(k, children, profiles, lightest, stands)?;
    }
    Ok(())
}

impl Walk {
    // Goes on by one child that is uncut, or by an interval.
    fn step(
        self,
        k: u32,
        children: &[Child],
        profiles: &Profiles,
        lightest: &mut Lightest,
        stands: &mut Vec<Stand>,
    ) -> Result<Walk, NoMemory>
        requires k { k ≤ 256 }
        requires number { length children.now < 2 ^ 31 }
        requires before { self.at < length children.now }
        requires weighed { AreWeighed k children.now }
        requires left { self.left ≤ 256 }
        requires rows { length children.now < vec_len profiles.now.rows }
        requires profiles { (room : ℕ) × (self.left ≤ room) × AreProfiles k room children.now profiles.now }
        requires within { IsAchievable k (drop self.at children.now) self.cost self.left }
        ensures { IfOk result (λ next. IsTaken k children.now self next stands.old.items stands.new.items) }
    {
        let rest = &children[self.at..];
        let lean = rest[0].lean;
        let after = profiles.of_last(rest.len() - 1);
        if let Some(left) = self.without(lean, profiles, after) {
            stands.push(Stand::Uncut)?;
            return Ok(Walk {
                at: self.at + 1,
                left,
                ..self
            });
        }
        let cut = self.find(k, rest, profiles, lightest)?;
        push_interval(k, &rest[..cut.number], cut.extra, lightest, stands)?;
        Ok(Walk {
            at: self.at + cut.number,
            cost: self.cost - 1 - cut.extra,
            ..self
        })
    }

    // What may be left by the others where a child that weighs `lean` stays uncut, if it may.
    fn without(self, lean: u32, profiles: &Profiles, after: Row) -> Option<u32>
        requires left { self.left ≤ 256 }
        requires base { after.base < 2 ^ 31 }
        requires inside { after.start + after.len ≤ length profiles.now.lefts.items }
        ensures { (k room : ℕ) (others : List Child) → self.left ≤ room → IsRowOf k room others profiles.now.lefts.items after → IsUncut k others lean self.cost self.left result }
    {
        let Some(left) = self.left.checked_sub(lean) else {
            return None;
        };
        if profiles.left_at(after, 0, self.cost, left + 1) <= left {
            Some(left)
        } else {
            None
        }
    }

    // An interval that begins a choice over the rest with the cost that is left, of as few members as will
    // do. With `extras` members in their second form it would cost too much, however few children are left.
    fn find(
        self,
        k: u32,
        rest: &[Child],
        profiles: &Profiles,
        lightest: &mut Lightest,
    ) -> Result<Cut, NoMemory>
        requires k { k ≤ 256 }
        requires number { length rest.now < 2 ^ 31 }
        requires weighed { AreWeighed k rest.now }
        requires left { self.left ≤ 256 }
        requires rows { length rest.now < vec_len profiles.now.rows }
        requires profiles { (room : ℕ) × (self.left ≤ room) × AreProfiles k room rest.now profiles.now }
        requires there { (number : ℕ) × (extra : ℕ) × IsCutAt k rest.now self.cost self.left number extra }
        ensures { IfOk result (λ cut. IsCutAt k rest.now self.cost self.left cut.number cut.extra) }
    {
        let most = rest.len().min(k as usize);
        let far = profiles.of_last(rest.len() - most);
        let extras = self.cost.saturating_sub(far.base) as usize;
        lightest.clear()?;
        for at in 0..most {
            lightest.add(k, extras, &rest[at])?;
            let beyond = profiles.of_last(rest.len() - (at + 1));
            if let Some(extra) = self.goes_on(lightest, profiles, beyond) {
                return Ok(Cut {
                    number: at + 1,
                    extra,
                });
            }
        }
        // There is an interval, so it was found.
        Ok(Cut {
            number: 0,
            extra: 0,
        })
    }

    // How many members are in their second form in the cheapest interval of these members, if there are
    // choices over the children beyond with what is left of the cost.
    fn goes_on(self, lightest: &Lightest, profiles: &Profiles, beyond: Row) -> Option<u32>
        requires weights { length lightest.now.weights.items < 2 ^ 16 }
        requires left { self.left ≤ 256 }
        requires base { beyond.base < 2 ^ 31 }
        requires inside { beyond.start + beyond.len ≤ length profiles.now.lefts.items }
        ensures { (k room extras : ℕ) (members others : List Child) → self.left ≤ room → AreLightest k members extras lightest.now.weights.items lightest.now.fewest → IsRowOf k room others profiles.now.lefts.items beyond → IsTried k members others self.cost self.left extras result }
    {
        let Some(extra) = lightest.fewest() else {
            return None;
        };
        if profiles.left_at(beyond, 1 + extra, self.cost, self.left + 1) <= self.left {
            Some(extra)
        } else {
            None
        }
    }
}

// Adds an interval of these members, of which so many may be in their second form.
fn push_interval(
    k: u32,
    members: &[Child],
    extra: u32,
    lightest: &mut Lightest,
    stands: &mut Vec<Stand>,
) -> Result<(), NoMemory>
    requires some { 1 ≤ length members.now }
    requires number { length members.now ≤ 256 }
    requires weighed { AreWeighed 256 members.now }
    requires interval { IsInterval k members.now extra }
    ensures { OnOk result (AddsInterval k members.now extra stands.old.items stands.new.items) }
{
    let mut limit = k;
    let mut extra = extra;
    for at in 0..members.len() {
        let rest = &members[at..];
        let first = may_be_first(limit, rest, extra, lightest)?;
        stands.push(stand_at(members.len() as u32, at, !first))?;
        if first {
            limit -= members[at].lean;
        } else {
            limit -= members[at].nearly;
            extra -= 1;
        }
    }
    Ok(())
}

// How a member stands behind `at` others.
fn stand_at(number: u32, at: usize, second: bool) -> Stand
    ensures { result ≡ stand_behind number at second }
{
    if at == 0 {
        Stand::Opens { number, second }
    } else {
        Stand::Joins { second }
    }
}

// Whether these members may be an interval where the first of them is in its first form. Otherwise it is
// in its second.
fn may_be_first(
    limit: u32,
    members: &[Child],
    extra: u32,
    lightest: &mut Lightest,
) -> Result<bool, NoMemory>
    requires some { 1 ≤ length members.now }
    requires number { length members.now ≤ 256 }
    requires weighed { AreWeighed 256 members.now }
    requires interval { IsInterval limit members.now extra }
    ensures { IfOk result (λ first. IsForm limit members.now extra first) }
{
    if extra == 0 {
        return Ok(true);
    }
    let lean = members[0].lean;
    if limit < lean {
        return Ok(false);
    }
    lightest.weigh(limit - lean, extra as usize + 1, &members[1..])?;
    match lightest.fewest() {
        Some(_) => Ok(true),
        None => Ok(false),
    }
}
