// Paths, members and owners.
ghost use Rattle.std.specs.Prelude.{◌≡◌, ◌∷◌, ◌++◌, [], ◌&&◌, nat_le};
ghost use Rattle.std.specs.Str.{bytes_eq};
ghost use Rattle.nx_parts.specs.Partitioning.{has_member, holder, is_child_path, owner, owns};
ghost use Rattle.nx_sketch.specs.Plan.{is_prefix};
ghost use Rattle.nx_sketch.specs.Separator.{is_before};
ghost use Rattle.nx_division_tests.specs.Tests.{share_test, starts_before};

use nx_parts::Interval;

// Whether the first path comes before the second in document order.
pub(super) fn is_before(path: &[u32], other: &[u32]) -> bool
    ensures { result ≡ is_before path.now other.now }
{
    path.cmp(&other).is_lt()
}

// The same of two children, by their parents and positions.
fn child_is_before(parent: &[u32], position: u32, other: &[u32], other_position: u32) -> bool
    ensures { result ≡ is_before (parent.now ++ position ∷ []) (other.now ++ other_position ∷ []) }
{
    match (parent.split_first(), other.split_first()) {
        (None, None) => position < other_position,
        (None, Some((step, _))) => position <= *step,
        (Some((step, _)), None) => *step < other_position,
        (Some((step, front)), Some((other_step, other_front))) => {
            step < other_step
                || step == other_step
                    && child_is_before(front, position, other_front, other_position)
        }
    }
}

// Whether the first path is a prefix of the second.
pub(super) fn is_prefix(prefix: &[u32], path: &[u32]) -> bool
    ensures { result ≡ is_prefix prefix.now path.now }
{
    path.starts_with(prefix)
}

// Whether the path is that of the child at the position.
pub(super) fn is_child(path: &[u32], parent: &[u32], position: u64) -> bool
    ensures { result ≡ bytes_eq path.now (parent.now ++ position ∷ []) }
{
    let Some((last, front)) = path.split_last() else {
        return false;
    };
    front == parent && u64::from(*last) == position
}

fn is_within(position: u32, first: u32, last: u32) -> bool
    ensures { result ≡ (nat_le first position && nat_le position last) }
{
    first <= position && position <= last
}

// Whether the path is that of a child from the first position to the last.
fn is_child_within(path: &[u32], parent: &[u32], first: u32, last: u32) -> bool
    ensures { result ≡ is_child_path parent.now first last path.now }
{
    let Some((position, front)) = path.split_last() else {
        return false;
    };
    front == parent && is_within(*position, first, last)
}

pub(super) fn has_member(interval: &Interval, path: &[u32]) -> bool
    ensures { result ≡ has_member interval.now path.now }
{
    match interval {
        Interval::Root => path.is_empty(),
        Interval::Run {
            parent,
            first,
            last,
        } => is_child_within(path, parent.as_slice(), *first, *last),
    }
}

// Whether some node is a member of both.
pub(super) fn share_member(one: &Interval, other: &Interval) -> bool
    ensures { result ≡ share_test one.now other.now }
{
    match (one, other) {
        (Interval::Root, Interval::Root) => true,
        (
            Interval::Run {
                parent,
                first,
                last,
            },
            Interval::Run {
                parent: other_parent,
                first: other_first,
                last: other_last,
            },
        ) => {
            parent.as_slice() == other_parent.as_slice()
                && (first <= other_last
                    && other_first <= last
                    && first <= last
                    && other_first <= other_last)
        }
        _ => false,
    }
}

// Whether the first member of the one comes before that of the other.
pub(super) fn starts_before(one: &Interval, other: &Interval) -> bool
    ensures { result ≡ starts_before one.now other.now }
{
    match (one, other) {
        (Interval::Root, Interval::Root) => false,
        (Interval::Root, Interval::Run { .. }) => true,
        (Interval::Run { .. }, Interval::Root) => false,
        (
            Interval::Run { parent, first, .. },
            Interval::Run {
                parent: other_parent,
                first: other_first,
                ..
            },
        ) => child_is_before(
            parent.as_slice(),
            *first,
            other_parent.as_slice(),
            *other_first,
        ),
    }
}

// The place of the interval that has the node as a member.
pub(super) fn holder(parts: &[Interval], path: &[u32]) -> Option<usize>
    ensures { result ≡ holder parts.now path.now }
{
    parts.iter().position(|interval| has_member(interval, path))
}

// The place of the interval that owns the node.
pub(super) fn owner(parts: &[Interval], path: &[u32]) -> Option<usize>
    ensures { result ≡ owner parts.now path.now }
{
    match (holder(parts, path), path.split_last()) {
        (Some(place), _) => Some(place),
        (None, Some((_, front))) => owner(parts, front),
        (None, None) => None,
    }
}

pub(super) fn owns(parts: &[Interval], index: usize, path: &[u32]) -> bool
    ensures { result ≡ owns parts.now index path.now }
{
    match owner(parts, path) {
        Some(place) => place == index,
        None => false,
    }
}
