// What a crash would leave.
ghost use Rattle.std.specs.Prelude.{◌≡◌, ◌+◌, ◌≤◌, length, take, drop, reverse, IfOk, OnOk};
ghost use Rattle.nx_memory.specs.History.{spliced};
ghost use Rattle.nx_memory.specs.Crash.{is_area, ones_over};
ghost use Rattle.nx_memory.specs.Undo.{syncs, since, kept_by, undone, undone_all, filled, filled_all, area_by};

use crate::history::Change;
use crate::image::Choice;
use nx_host::Area;
use nx_lists::NoMemory;
use nx_tree::Bytes;
use std::alloc::Global;

// Whether a change is a sync of this area.
fn is_sync(change: Change, area: Area) -> bool
    ensures { result ≡ syncs area change }
{
    match change {
        Change::Sync { area: synced } => synced == area,
        _ => false,
    }
}

// How many changes there were up to the last sync of an area.
fn synced_at(changes: &[Change], area: Area) -> usize
    ensures within { result ≤ length changes.now }
    ensures since { reverse (drop result changes.now) ≡ since area (reverse changes.now) }
{
    let mut left = changes.len();
    while left > 0 {
        if is_sync(changes[left - 1], area) {
            return left;
        }
        left -= 1;
    }
    0
}

// Puts bytes in place of those at an offset, and cuts what is behind a length.
fn put_back(bytes: &mut Vec<u8>, at: u64, covered: &[u8], was: u64) -> Result<(), NoMemory>
    ensures { OnOk result (bytes.new.items ≡ take was (spliced at covered.now bytes.old.items)) }
{
    let at = bytes.len().min(at as usize);
    if covered.len() <= bytes.len() - at {
        bytes[at..at + covered.len()].copy_from_slice(covered);
    } else {
        bytes.truncate(at);
        bytes.extend_from_slice(covered)?;
    }
    bytes.truncate(was as usize);
    Ok(())
}

// Takes an area back to what it was before a change, and gives how many of the bytes that were written
// over those before it had.
fn undo(bytes: &mut Vec<u8>, change: Change, covered: &[u8], area: Area) -> Result<usize, NoMemory>
    ensures kept { IfOk result (λ n. n ≡ kept_by change (length covered.now)) }
    ensures bytes { OnOk result (bytes.new.items ≡ undone area change bytes.old.items covered.now) }
{
    let Change::Write {
        area: written,
        at,
        count,
        was,
    } = change
    else {
        return Ok(covered.len());
    };
    let kept = covered
        .len()
        .saturating_sub(count.min(was.saturating_sub(at)) as usize);
    if written == area {
        put_back(bytes, at, &covered[kept..], was)?;
    }
    Ok(kept)
}

// Takes an area back to what it was before these changes.
fn undo_all(
    bytes: &mut Vec<u8>,
    changes: &[Change],
    covered: &[u8],
    area: Area,
) -> Result<(), NoMemory>
    ensures { OnOk result (bytes.new.items ≡ undone_all area (reverse changes.now) bytes.old.items covered.now) }
{
    let mut left = changes.len();
    let mut kept = covered.len();
    while left > 0 {
        kept = undo(bytes, changes[left - 1], &covered[..kept], area)?;
        left -= 1;
    }
    Ok(())
}

// Writes ones at an offset, and into what lies between the end and the offset.
fn put_ones(bytes: &mut Vec<u8>, at: u64, count: u64) -> Result<(), NoMemory>
    ensures { OnOk result (bytes.new.items ≡ ones_over at count bytes.old.items) }
{
    let Some(end) = at.checked_add(count) else {
        return Err(NoMemory);
    };
    let end = end as usize;
    let from = bytes.len().min(at as usize);
    if bytes.len() < end {
        bytes.resize(end, 1)?;
    }
    bytes[from..end].fill(1);
    Ok(())
}

// Fills with ones what a change wrote to an area.
fn fill(bytes: &mut Vec<u8>, change: Change, area: Area) -> Result<(), NoMemory>
    ensures { OnOk result (bytes.new.items ≡ filled area change bytes.old.items) }
{
    match change {
        Change::Write {
            area: written,
            at,
            count,
            ..
        } if written == area => put_ones(bytes, at, count),
        _ => Ok(()),
    }
}

// Fills with ones what these changes wrote to an area.
fn fill_all(bytes: &mut Vec<u8>, changes: &[Change], area: Area) -> Result<(), NoMemory>
    ensures { OnOk result (bytes.new.items ≡ filled_all area (reverse changes.now) bytes.old.items) }
{
    for change in changes {
        fill(bytes, *change, area)?;
    }
    Ok(())
}

/// The bytes of an area as a crash leaves them by this choice, of what the area holds, the changes and
/// the bytes that they wrote over.
pub(crate) fn area_left(
    alloc: Global,
    bytes: &[u8],
    changes: &[Change],
    covered: &[u8],
    area: Area,
    choice: Choice,
) -> Result<Bytes, NoMemory>
    ensures { IfOk result (λ left. left ≡ area_by choice area (reverse changes.now) bytes.now covered.now) }
{
    let mut left = Vec::from_slice(alloc, bytes)?;
    let unsynced = &changes[synced_at(changes, area)..];
    match choice {
        Choice::Kept => {}
        Choice::Lost => undo_all(&mut left, unsynced, covered, area)?,
        Choice::Ones => {
            undo_all(&mut left, unsynced, covered, area)?;
            fill_all(&mut left, unsynced, area)?;
        }
    }
    Ok(Bytes::from_vec(left))
}
