// The longest interval that may begin a list of children.
ghost use Rattle.std.specs.Prelude.{◌≡◌, ◌≤◌, ◌∷◌, length, drop, slice_get};
ghost use Rattle.nx_choices.specs.Choice.{AreWeighed};
ghost use Rattle.nx_choices.specs.Profile.{IsReach, weighs};

use crate::Child;

// What the members of an interval count with.
#[derive(Clone, Copy)]
pub(crate) enum Form {
    // Each in its first form.
    Plain,
    // Each in the lighter of its forms.
    Light,
}

impl Child {
    // What the child weighs as a member.
    pub(crate) fn weighs(&self, form: Form) -> u32
        ensures { result ≡ weighs form self.now }
    {
        match form {
            Form::Plain => self.lean,
            Form::Light => self.lean.min(self.nearly),
        }
    }
}

// How many of the first children may be an interval, and what they weigh together.
#[derive(Clone, Copy)]
pub(crate) struct Reach {
    pub(crate) len: usize,
    pub(crate) sum: u32,
}

impl Reach {
    // That of no children.
    pub(crate) fn new() -> Reach
        ensures len { result.len ≡ 0 }
        ensures sum { result.sum ≡ 0 }
    {
        Reach { len: 0, sum: 0 }
    }

    // That of these children, where `self` is that of all but the first.
    pub(crate) fn extend(self, k: u32, form: Form, children: &[Child]) -> Reach
        requires some { 1 ≤ length children.now }
        requires bound { k ≤ 256 }
        requires weighed { AreWeighed k children.now }
        requires reach { IsReach k form (drop 1 children.now) self.len self.sum }
        ensures { IsReach k form children.now result.len result.sum }
    {
        let mut len = self.len + 1;
        let mut sum = self.sum + children[0].weighs(form);
        while sum > k {
            len -= 1;
            sum -= children[len].weighs(form);
        }
        Reach { len, sum }
    }
}
