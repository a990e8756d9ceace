// What comes in the place of an interval below which a tree is taken away.
ghost use Rattle.std.specs.Prelude.{◌≡◌, ◌<◌, ◌≤◌, ℕ, List as Elements, [], ◌∷◌, ◌++◌, Some, false, length, IfOk, IfErr, OnOk};
ghost use Rattle.std.specs.Option.{option_to_list};
ghost use Rattle.nx_host.specs.Still.{IsStill};
ghost use Rattle.nx_records.specs.Records.{KeepsSaved, HasChanges, has_ended};
ghost use Rattle.nx_records.specs.Refusals.{RunsOn, NotStored};
ghost use Rattle.nx_piece.specs.declared.piece.Far.{Far};
ghost use Rattle.nx_piece.specs.Gapped.{GappedTree, gapped_width};
ghost use Rattle.nx_piece.specs.Locate.{Inside, reached_in};
ghost use Rattle.nx_piece.specs.Valid.{HaveRoots, IsValidPiece};
ghost use Rattle.nx_hold.specs.Pieces.{HoldsNone, MayName};
ghost use Rattle.nx_hold.specs.Changes.{ComesTidy, ComesTidyWhere, place_of};
ghost use Rattle.nx_nav.specs.Route.{EndsInside};
ghost use Rattle.nx_edit.specs.Passing.{NotPassed, put_needs};
ghost use Rattle.nx_edit.specs.Rows.{DeletesAlong, DeletesIn, IsRestPut, NotDeletedAlong, NotDeletedIn, PassesLeft, with_left};

use crate::freeing::push_fars;
use crate::keeping::{is_left_same, own_proxy};
use crate::making::update_far;
use crate::removing::{damaged, remove_rows};
use nx_hold::{read_piece, remove_piece};
use nx_host::Disk;
use nx_nav::{PassedRecord, Route};
use nx_piece::{Far, Piece, Proxy, count_nodes};
use nx_piece_edits::{Removed, remove_proxy, remove_tree, replace_proxy};
use nx_records::{Records, Rid, StoreError};
use std::alloc::Global;

// What is left of an interval, and how many nodes went.
#[derive(Drop)]
pub(crate) struct Taken {
    // None where it lost its last member.
    pub(crate) left: Option<Proxy>,
    pub(crate) gone: u32,
}

// Takes the tree of a document away that the path leads to, by the way that was kept, as `delete_in`.
pub(crate) fn delete_at<D: Disk>(
    alloc: Global,
    records: &mut Records,
    disk: &mut D,
    root: Rid,
    path: &[u32],
    route: Route,
    limit: u32,
    gone: &mut Vec<Far>,
) -> Result<Taken, StoreError>
    requires runs { has_ended records.old ≡ false }
    requires ends { EndsInside 0 path.now route.passed.items route.last }
    ensures still { IsStill D.Disk disk.old disk.new }
    ensures few { IfOk result (λ taken. taken.gone ≤ limit) }
    ensures ok { IfOk result (λ taken. (fars : Elements Far) × (gone.new.items ≡ gone.old.items ++ fars) × DeletesAlong D.Disk records.old records.new disk.old disk.new route.passed.items route.last (place_of root) 0 path.now limit taken.gone (option_to_list taken.left) fars) }
    ensures keeps { OnOk result (RunsOn records.old records.new × KeepsSaved D.Disk records.old records.new disk.old disk.new × HasChanges records.new) }
    ensures refused { IfErr result (λ e. NotDeletedAlong D.Disk route.passed.items route.last (place_of root) 0 path.now limit e records.old records.new disk.old disk.new) }
{
    let Route { passed, last } = route;
    delete_in(
        alloc,
        records,
        disk,
        root,
        0,
        path,
        passed.as_slice(),
        last,
        limit,
        gone,
    )
}

// Takes the tree away that the path leads to, which begins with the position of a member of the interval whose record
// stands there, passes these records, and ends in the record of the last piece. It answers the proxy of what is left of
// the interval, and none where it lost its last member, and how many nodes went. It speaks of intervals of at most so many
// nodes.
fn delete_in<D: Disk>(
    alloc: Global,
    records: &mut Records,
    disk: &mut D,
    rid: Rid,
    member: u16,
    path: &[u32],
    passed: &[PassedRecord],
    last: Piece,
    limit: u32,
    gone: &mut Vec<Far>,
) -> Result<Taken, StoreError>
    requires runs { has_ended records.old ≡ false }
    requires ends { EndsInside member path.now passed.now last }
    ensures still { IsStill D.Disk disk.old disk.new }
    ensures few { IfOk result (λ taken. taken.gone ≤ limit) }
    ensures ranged { IfOk result (λ taken. HaveRoots (option_to_list taken.left)) }
    ensures ok { IfOk result (λ taken. (fars : Elements Far) × (gone.new.items ≡ gone.old.items ++ fars) × DeletesAlong D.Disk records.old records.new disk.old disk.new passed.now last (place_of rid) member path.now limit taken.gone (option_to_list taken.left) fars) }
    ensures keeps { OnOk result (RunsOn records.old records.new × KeepsSaved D.Disk records.old records.new disk.old disk.new × HasChanges records.new) }
    ensures refused { IfErr result (λ e. NotDeletedAlong D.Disk passed.now last (place_of rid) member path.now limit e records.old records.new disk.old disk.new) }
{
    let Some((first, more)) = passed.split_first() else {
        return delete_own(alloc, records, disk, rid, last, member, path, limit, gone);
    };
    let below = Rid {
        page: first.proxy.page,
        slot: first.proxy.slot,
    };
    let taken = delete_in(
        alloc,
        records,
        disk,
        below,
        first.member,
        &path[first.used as usize..],
        more,
        last,
        limit,
        gone,
    )?;
    let left = pass_left(alloc, records, disk, rid, first, taken.left)?;
    Ok(Taken {
        left: Some(left),
        gone: taken.gone,
    })
}

// The same where the tree is one of the record's own, whose piece this is.
fn delete_own<D: Disk>(
    alloc: Global,
    records: &mut Records,
    disk: &mut D,
    rid: Rid,
    piece: Piece,
    member: u16,
    path: &[u32],
    limit: u32,
    gone: &mut Vec<Far>,
) -> Result<Taken, StoreError>
    requires runs { has_ended records.old ≡ false }
    requires valid { IsValidPiece piece }
    requires here { (tree : GappedTree) × (first : ℕ) × (reached_in piece member path.now ≡ Inside tree first) }
    ensures still { IsStill D.Disk disk.old disk.new }
    ensures few { IfOk result (λ taken. taken.gone ≤ limit) }
    ensures ranged { IfOk result (λ taken. HaveRoots (option_to_list taken.left)) }
    ensures ok { IfOk result (λ taken. (fars : Elements Far) × (gone.new.items ≡ gone.old.items ++ fars) × DeletesIn D.Disk records.old records.new disk.old disk.new (Some piece) (place_of rid) member path.now limit taken.gone (option_to_list taken.left) fars) }
    ensures keeps { OnOk result (RunsOn records.old records.new × KeepsSaved D.Disk records.old records.new disk.old disk.new × HasChanges records.new) }
    ensures refused { IfErr result (λ e. NotDeletedIn D.Disk (Some piece) (place_of rid) member path.now limit e records.old records.new disk.old disk.new) }
{
    let Ok(found) = remove_tree(alloc, piece, member, path) else {
        return Err(StoreError::Memory);
    };
    let Some(removed) = found else {
        unreachable!();
    };
    let Removed {
        rest,
        tree,
        proxies,
    } = removed;
    let own = count_nodes(&tree);
    if limit < own {
        return Err(damaged(records, rid.page));
    }
    let Ok(()) = push_fars(&tree, gone) else {
        return Err(StoreError::Memory);
    };
    let room = limit - own;
    let below = remove_rows(alloc, records, disk, proxies.as_slice(), room, gone)?;
    let left = put_rest(alloc, records, disk, rid, rest)?;
    Ok(Taken {
        left,
        gone: own + below,
    })
}

// Puts what is left of a piece in the place of its record, and answers its proxy; or takes the record away, where no
// root is left.
fn put_rest<D: Disk>(
    alloc: Global,
    records: &mut Records,
    disk: &mut D,
    rid: Rid,
    rest: Piece,
) -> Result<Option<Proxy>, StoreError>
    requires runs { has_ended records.old ≡ false }
    requires valid { 1 ≤ gapped_width rest.body.roots → IsValidPiece rest }
    ensures still { IsStill D.Disk disk.old disk.new }
    ensures ranged { IfOk result (λ left. HaveRoots (option_to_list left)) }
    ensures ok { IfOk result (λ left. ComesTidyWhere D.Disk records.old records.new disk.old disk.new (λ was. MayName was rest.body.roots) (IsRestPut (place_of rid) rest left)) }
    ensures keeps { OnOk result (RunsOn records.old records.new × KeepsSaved D.Disk records.old records.new disk.old disk.new × HasChanges records.new) }
    ensures refused { IfErr result (λ e. (page : ℕ) × NotStored D.Disk (λ was. put_needs rest) (λ was. HoldsNone was (place_of rid)) page e records.old records.new disk.old disk.new) }
{
    if rest.body.roots.is_empty() {
        remove_piece(alloc, records, disk, rid)?;
        return Ok(None);
    }
    let proxy = update_far(alloc, records, disk, rid, rest)?;
    Ok(Some(proxy))
}

// Puts what is left of an interval in the place of the proxy by which the path left a record's piece; it answers the
// record's own proxy. Where the proxy stays, the record does so, and isn't read again.
fn pass_left<D: Disk>(
    alloc: Global,
    records: &mut Records,
    disk: &mut D,
    rid: Rid,
    passed: &PassedRecord,
    left: Option<Proxy>,
) -> Result<Proxy, StoreError>
    requires runs { has_ended records.old ≡ false }
    requires rooted { (1 ≤ passed.now.roots) × (passed.now.roots ≤ 256) }
    requires ranged { HaveRoots (option_to_list left) }
    ensures still { IsStill D.Disk disk.old disk.new }
    ensures unwritten { OnOk result (left ≡ Some passed.now.proxy → (records.new ≡ records.old) × (disk.new ≡ disk.old)) }
    ensures ranged { IfOk result (λ own. HaveRoots (own ∷ [])) }
    ensures ok { IfOk result (λ own. ComesTidy D.Disk records.old records.new disk.old disk.new (PassesLeft (place_of rid) passed.now left own)) }
    ensures keeps { OnOk result (RunsOn records.old records.new × KeepsSaved D.Disk records.old records.new disk.old disk.new × (HasChanges records.old → HasChanges records.new)) }
    ensures refused { IfErr result (λ e. NotPassed D.Disk (place_of rid) passed.now (with_left passed.now.index left) (λ piece. Unit {0}) e records.old records.new disk.old disk.new) }
{
    if is_left_same(left, passed.proxy) {
        return Ok(own_proxy(rid, passed.roots));
    }
    let piece = read_piece(alloc, records, disk, rid)?;
    if piece.proxies.len() <= passed.index as usize {
        return Err(damaged(records, rid.page));
    }
    let piece = put_left(alloc, piece, passed.index, left);
    update_far(alloc, records, disk, rid, piece)
}

// A piece in which what is left of an interval comes in the place of its proxy.
fn put_left(alloc: Global, piece: Piece, index: u32, left: Option<Proxy>) -> Piece
    requires valid { IsValidPiece piece }
    requires within { index < length piece.proxies }
    requires ranged { HaveRoots (option_to_list left) }
    ensures same { result ≡ with_left index left piece }
    ensures valid { IsValidPiece result }
{
    match left {
        Some(proxy) => replace_proxy(piece, index, proxy),
        None => remove_proxy(alloc, piece, index),
    }
}
