// What is known of a child, and how it stands in a choice.
ghost use Rattle.std.specs.Prelude.{◌≡◌};
ghost use Rattle.nx_choices.specs.Stand.{takes_second};

/// The numbers of a node, as the choices at its parent see them.
#[derive(Clone, Copy, Debug, PartialEq, Eq)]
pub struct Child {
    /// How many intervals there are in its subtree.
    pub least: u32,
    /// What its root's part weighs with so many.
    pub lean: u32,
    /// What its root's part weighs with one more.
    pub nearly: u32,
}

/// One of these numbers.
#[derive(Clone, Copy, Debug, PartialEq, Eq)]
pub enum Field {
    /// How many intervals there are at least.
    Least,
    /// What the root's part weighs at least with so many intervals.
    Lean,
    /// What the root's part weighs at least with so many intervals and one.
    Nearly,
}

/// How a child stands in a choice at its parent.
#[derive(Clone, Copy, Debug, PartialEq, Eq)]
pub enum Stand {
    /// In no interval, in its first form.
    Uncut,
    /// As the first member of an interval.
    Opens {
        /// How many members the interval has.
        number: u32,
        /// Whether the child takes its second form.
        second: bool,
    },
    /// In the interval of the child before it.
    Joins {
        /// Whether the child takes its second form.
        second: bool,
    },
}

impl Stand {
    /// Whether the child takes its second form: one interval more, and the weight that goes with it.
    pub fn takes_second(self) -> bool
        ensures { result ≡ takes_second self }
    {
        match self {
            Stand::Uncut => false,
            Stand::Opens { second, .. } | Stand::Joins { second } => second,
        }
    }
}
