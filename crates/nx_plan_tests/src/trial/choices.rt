// Numeric choices over the children of a node, all of them, one after the other.
use nx_bounds::Field;
use nx_parts::Bound;

/// What is claimed of a child, as the choices of its parent see it.
#[derive(Clone, Copy, Debug)]
pub(super) struct Child {
    pub(super) least: u32,
    pub(super) lean: u32,
    pub(super) nearly: u32,
}

// What a choice says of the children that it covers.
#[derive(Drop)]
struct Choice {
    intervals: u64,
    // The numbers of intervals in the children's subtrees.
    numbers: u64,
    // What is left with the node.
    left: u64,
    // Whether no interval weighs more than k.
    is_light: bool,
    // What the interval weighs in which the next child may follow.
    open: Option<u64>,
}

impl Choice {
    fn new() -> Choice {
        Choice {
            intervals: 0,
            numbers: 0,
            left: 0,
            is_light: true,
            open: None,
        }
    }

    // Covers one child more: by 0 it stays uncut, by 1 and 2 an interval begins with its first and second
    // form, by 3 and 4 it follows in one so. False where there is none to follow in.
    fn cover(&mut self, k: u32, child: Child, digit: u32) -> bool {
        let mut number = u64::from(child.least);
        let mut slots = u64::from(child.lean);
        if digit == 2 || digit == 4 {
            number = number.saturating_add(1);
            slots = u64::from(child.nearly);
        }
        self.numbers = self.numbers.saturating_add(number);
        if digit == 0 {
            self.left = self.left.saturating_add(slots);
            self.open = None;
            return true;
        }
        let weight = match self.open {
            _ if digit < 3 => {
                self.intervals = self.intervals.saturating_add(1);
                slots
            }
            Some(weight) => weight.saturating_add(slots),
            None => return false,
        };
        self.is_light = self.is_light && weight <= u64::from(k);
        self.open = Some(weight);
        true
    }

    // What it gives of which the number of the bound speaks, where the number speaks of it and it is admitted.
    fn given(&self, k: u32, field: Field, own: u64, children: u64, bound: Bound) -> Option<u32> {
        let root = own.saturating_add(self.left);
        let cells = self.intervals.saturating_add(1);
        let numbers = cells.saturating_add(self.numbers);
        let count = numbers.saturating_sub(children).max(1);
        let claimed = u64::from(bound.least);
        let (speaks, given) = match field {
            Field::Least => (true, count),
            Field::Lean => (count <= claimed, root),
            Field::Nearly => (count <= claimed.saturating_add(1), root),
        };
        if root <= u64::from(k) && self.is_light && speaks {
            return Some(u32::try_from(given).unwrap_or(u32::MAX));
        }
        None
    }
}

// The choice that a number codes by a digit for each child; `None` where it codes none.
fn coded(k: u32, children: &[Child], code: u32) -> Option<Choice> {
    let mut choice = Choice::new();
    let mut left = code;
    for child in children {
        if !choice.cover(k, *child, left % 5) {
            return None;
        }
        left /= 5;
    }
    Some(choice)
}

// The least that an admitted choice gives of which the number of the bound speaks; `None` where there
// is no such choice.
pub(super) fn least_given(
    k: u32,
    field: Field,
    own: u64,
    children: &[Child],
    bound: Bound,
) -> Option<u32> {
    let mut codes: u32 = 1;
    for _ in children {
        codes = codes.saturating_mul(5);
    }
    let mut least: Option<u32> = None;
    for code in 0..codes {
        if let Some(choice) = coded(k, children, code)
            && let Some(given) = choice.given(k, field, own, children.len() as u64, bound)
        {
            least = Some(least.unwrap_or(given).min(given));
        }
    }
    least
}

pub(super) fn claim(field: Field, bound: Bound) -> u32 {
    match field {
        Field::Least => bound.least,
        Field::Lean => bound.lean,
        Field::Nearly => bound.nearly,
    }
}

// The first number of the bound that is more than the least that a choice gives, and that least.
pub(super) fn first_exceeded(
    k: u32,
    own: u64,
    children: &[Child],
    bound: Bound,
) -> Option<(Field, u32)> {
    for field in [Field::Least, Field::Lean, Field::Nearly] {
        if let Some(found) = least_given(k, field, own, children, bound)
            && found < claim(field, bound)
        {
            return Some((field, found));
        }
    }
    None
}
