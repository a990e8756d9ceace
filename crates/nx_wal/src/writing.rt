// Writing a group at a log's end, in blocks.
ghost use Rattle.std.specs.Prelude.{◌≡◌, ◌⊎◌, ◌+◌, ◌*◌, ◌^◌, ◌<◌, ◌≤◌, ◌++◌, ◌∷◌, [], length, take, drop, true, Some, IfOk, IfSome, OnOk, OnErr};
ghost use Rattle.std.specs.BTreeMap.{btree_map_len};
ghost use Rattle.nx_host.specs.Disk.{Image, Rose, ComesTorn, WritesTo, TearsIn, Keeps, IsDurable};
ghost use Rattle.nx_host.specs.declared.disk.Area.TheVariants.{Log};
ghost use Rattle.nx_host.specs.Still.{WritesAlone, IsSettled};
ghost use Rattle.nx_replay.specs.Log.{Group, group_size, entry_bytes, HasGroup, HasSame};
ghost use Rattle.nx_replay.specs.Commit.{IsOpened, IsBody, IsGroupLaid};
ghost use Rattle.byteorder.specs.Endian.{big_bytes};
ghost use Rattle.nx_numbers.specs.Sizes.{page_size, entry_size};
ghost use Rattle.nx_wal.specs.Own.{IsAsLong};
ghost use Rattle.nx_wal.specs.Gathering.{AddsBytes, WritesNoFurther};
ghost use Rattle.nx_wal.specs.Writing.{Lays, Writes, StandsBehind, body_of, head_of, entries_of};

use crate::PageBytes;
use crate::block::{Block, ROOM};
use byteorder::{BigEndian, ByteOrder};
use nx_host::{Area, Disk, Failed};
use std::collections::BTreeMap;

// Writes bytes to the log.
fn write_log<D: Disk>(disk: &mut D, at: u64, bytes: &[u8]) -> Result<(), Failed>
    requires { at + length bytes.now ≤ 2 ^ 63 }
    ensures writes { Writes D.Disk at (length bytes.now) disk.old disk.new }
    ensures lays { OnOk result (Lays D.Disk at bytes.now disk.old disk.new) }
    ensures cause { OnErr result (Rose (D.faults disk.old) (D.faults disk.new)) }
{
    disk.write_at(Area::Log, at, bytes)
}

// Writes what waits in the block.
fn flush<D: Disk>(disk: &mut D, block: &mut Block) -> Result<(), Failed>
    requires { block.old.at + length block.old.bytes.items ≤ 2 ^ 63 }
    ensures adds { OnOk result (AddsBytes D.Disk [] block.old block.new disk.old disk.new) }
    ensures empty { OnOk result ((block.new.bytes.items ≡ []) × (block.new.at ≡ block.old.at + length block.old.bytes.items)) }
    ensures reaches { WritesNoFurther D.Disk 0 block.old disk.old disk.new }
    ensures faults { D.faults disk.old ≤ D.faults disk.new }
    ensures cause { OnErr result (Rose (D.faults disk.old) (D.faults disk.new)) }
{
    write_log(disk, block.at, &block.bytes)?;
    block.at += block.bytes.len() as u64;
    block.bytes.clear();
    Ok(())
}

// Sees that so many bytes have room in the block.
fn make_room<D: Disk>(disk: &mut D, block: &mut Block, count: usize) -> Result<(), Failed>
    requires low { block.old.at + length block.old.bytes.items ≤ 2 ^ 63 }
    requires few { count ≤ page_size }
    ensures adds { OnOk result (AddsBytes D.Disk [] block.old block.new disk.old disk.new) }
    ensures room { OnOk result (length block.new.bytes.items + count ≤ 262285) }
    ensures ends { OnOk result (block.new.at + length block.new.bytes.items ≡ block.old.at + length block.old.bytes.items) }
    ensures reaches { WritesNoFurther D.Disk 0 block.old disk.old disk.new }
    ensures faults { D.faults disk.old ≤ D.faults disk.new }
    ensures cause { OnErr result (Rose (D.faults disk.old) (D.faults disk.new)) }
{
    if block.bytes.len() + count <= ROOM {
        return Ok(());
    }
    flush(disk, block)
}

// Puts bytes into a block that has room for them.
fn fill(block: &mut Block, bytes: &[u8])
    requires { length block.old.bytes.items + length bytes.now ≤ 262285 }
    ensures filled { block.new.bytes.items ≡ block.old.bytes.items ++ bytes.now }
    ensures stays { block.new.at ≡ block.old.at }
{
    let Ok(_) = block.bytes.extend_from_slice(bytes) else {
        unreachable!()
    };
}

// Gathers bytes.
fn add<D: Disk>(disk: &mut D, block: &mut Block, bytes: &[u8]) -> Result<(), Failed>
    requires low { block.old.at + length block.old.bytes.items ≤ 2 ^ 63 }
    requires few { length bytes.now ≤ page_size }
    ensures adds { OnOk result (AddsBytes D.Disk bytes.now block.old block.new disk.old disk.new) }
    ensures ends { OnOk result (block.new.at + length block.new.bytes.items ≡ block.old.at + length block.old.bytes.items + length bytes.now) }
    ensures reaches { WritesNoFurther D.Disk (length bytes.now) block.old disk.old disk.new }
    ensures faults { D.faults disk.old ≤ D.faults disk.new }
    ensures cause { OnErr result (Rose (D.faults disk.old) (D.faults disk.new)) }
{
    make_room(disk, block, bytes.len())?;
    fill(block, bytes);
    Ok(())
}

// Gathers the number of a group.
fn add_long<D: Disk>(disk: &mut D, block: &mut Block, number: u64) -> Result<(), Failed>
    requires { block.old.at + length block.old.bytes.items ≤ 2 ^ 63 }
    ensures adds { OnOk result (AddsBytes D.Disk (big_bytes 8 number) block.old block.new disk.old disk.new) }
    ensures ends { OnOk result (block.new.at + length block.new.bytes.items ≡ block.old.at + length block.old.bytes.items + 8) }
    ensures reaches { WritesNoFurther D.Disk 8 block.old disk.old disk.new }
    ensures faults { D.faults disk.old ≤ D.faults disk.new }
    ensures cause { OnErr result (Rose (D.faults disk.old) (D.faults disk.new)) }
{
    let mut bytes = [0u8; 8];
    BigEndian::write_u64(&mut bytes, number);
    add(disk, block, &bytes)
}

// Gathers the number of a page, or a count of pages.
fn add_number<D: Disk>(disk: &mut D, block: &mut Block, number: u32) -> Result<(), Failed>
    requires { block.old.at + length block.old.bytes.items ≤ 2 ^ 63 }
    ensures adds { OnOk result (AddsBytes D.Disk (big_bytes 4 number) block.old block.new disk.old disk.new) }
    ensures ends { OnOk result (block.new.at + length block.new.bytes.items ≡ block.old.at + length block.old.bytes.items + 4) }
    ensures reaches { WritesNoFurther D.Disk 4 block.old disk.old disk.new }
    ensures faults { D.faults disk.old ≤ D.faults disk.new }
    ensures cause { OnErr result (Rose (D.faults disk.old) (D.faults disk.new)) }
{
    let mut bytes = [0u8; 4];
    BigEndian::write_u32(&mut bytes, number);
    add(disk, block, &bytes)
}

// Gathers the number of a group and the count of its pages.
fn add_head<D: Disk>(disk: &mut D, block: &mut Block, number: u64, count: u32) -> Result<(), Failed>
    requires { block.old.at + length block.old.bytes.items + 12 ≤ 2 ^ 63 }
    ensures adds { OnOk result (AddsBytes D.Disk (head_of number count) block.old block.new disk.old disk.new) }
    ensures ends { OnOk result (block.new.at + length block.new.bytes.items ≡ block.old.at + length block.old.bytes.items + 12) }
    ensures reaches { WritesNoFurther D.Disk 12 block.old disk.old disk.new }
    ensures faults { D.faults disk.old ≤ D.faults disk.new }
    ensures cause { OnErr result (Rose (D.faults disk.old) (D.faults disk.new)) }
{
    add_long(disk, block, number)?;
    add_number(disk, block, count)
}

// The bytes of a page.
fn bytes_of(page: &PageBytes) -> &[u8]
    ensures value { result.now ≡ page.now.bytes }
    ensures long { length page.now.bytes ≡ page_size }
{
    &page.bytes
}

// Gathers a page behind its number.
fn add_page<D: Disk>(
    disk: &mut D,
    block: &mut Block,
    page: u32,
    bytes: &PageBytes,
) -> Result<(), Failed>
    requires { block.old.at + length block.old.bytes.items + entry_size ≤ 2 ^ 63 }
    ensures adds { OnOk result (AddsBytes D.Disk (big_bytes 4 page ++ bytes.now.bytes) block.old block.new disk.old disk.new) }
    ensures ends { OnOk result (block.new.at + length block.new.bytes.items ≡ block.old.at + length block.old.bytes.items + entry_size) }
    ensures long { OnOk result (length bytes.now.bytes ≡ page_size) }
    ensures reaches { WritesNoFurther D.Disk entry_size block.old disk.old disk.new }
    ensures faults { D.faults disk.old ≤ D.faults disk.new }
    ensures cause { OnErr result (Rose (D.faults disk.old) (D.faults disk.new)) }
{
    add_number(disk, block, page)?;
    add(disk, block, bytes_of(bytes))
}

// Gathers pages, each behind its number.
fn add_pages<D: Disk>(
    disk: &mut D,
    block: &mut Block,
    waiting: &BTreeMap<u32, Box<PageBytes>>,
) -> Result<(), Failed>
    requires { block.old.at + length block.old.bytes.items + entry_size * btree_map_len waiting.now ≤ 2 ^ 63 }
    ensures adds { OnOk result (AddsBytes D.Disk (entry_bytes (entries_of waiting.now.entries)) block.old block.new disk.old disk.new) }
    ensures ends { OnOk result (block.new.at + length block.new.bytes.items ≡ block.old.at + length block.old.bytes.items + entry_size * btree_map_len waiting.now) }
    ensures long { OnOk result (length (entry_bytes (entries_of waiting.now.entries)) ≡ entry_size * btree_map_len waiting.now) }
    ensures reaches { WritesNoFurther D.Disk (entry_size * btree_map_len waiting.now) block.old disk.old disk.new }
    ensures faults { D.faults disk.old ≤ D.faults disk.new }
    ensures cause { OnErr result (Rose (D.faults disk.old) (D.faults disk.new)) }
{
    for (page, bytes) in waiting {
        add_page(disk, block, *page, bytes.as_ref())?;
    }
    Ok(())
}

// Begins to gather at an offset.
fn begin(block: &mut Block, at: u64)
    ensures { (block.new.at ≡ at) × (block.new.bytes.items ≡ []) }
{
    block.at = at;
    block.bytes.clear();
}

// Writes a group of these pages behind its gate, and a closed gate behind it.
fn write_body<D: Disk>(
    disk: &mut D,
    block: &mut Block,
    at: u64,
    number: u64,
    waiting: &BTreeMap<u32, Box<PageBytes>>,
) -> Result<(), Failed>
    requires low { at + 13 + entry_size * btree_map_len waiting.now ≤ 2 ^ 63 }
    requires few { btree_map_len waiting.now < 2 ^ 32 }
    ensures writes { Writes D.Disk at (13 + entry_size * btree_map_len waiting.now) disk.old disk.new }
    ensures lays { OnOk result (Lays D.Disk at (body_of number waiting.now.entries) disk.old disk.new) }
    ensures cause { OnErr result (Rose (D.faults disk.old) (D.faults disk.new)) }
{
    begin(block, at);
    add_head(disk, block, number, waiting.len() as u32)?;
    add_pages(disk, block, waiting)?;
    add(disk, block, &[0])?;
    flush(disk, block)
}

// Makes durable what was written to the log.
fn sync_log<D: Disk>(disk: &mut D) -> Result<(), Failed>
    ensures goes { WritesAlone D.Disk disk.old disk.new (D.may_leave disk.old) }
    ensures images { (i : Image) → D.may_leave disk.new i → D.may_leave disk.old i }
    ensures durable { OnOk result ((now : Image) → D.contents disk.new ≡ Some now → (D.contents disk.old ≡ Some now) × ((i : Image) → D.may_leave disk.new i → i.log ≡ now.log)) }
    ensures reads { D.reads disk.new ≡ D.reads disk.old }
    ensures cause { OnErr result (Rose (D.faults disk.old) (D.faults disk.new)) }
{
    disk.sync(Area::Log)
}

// Writes one byte to the log and makes it durable.
pub(crate) fn write_gate<D: Disk>(disk: &mut D, at: u64, gate: u8) -> Result<(), Failed>
    requires { at + 1 ≤ 2 ^ 63 }
    ensures goes { WritesAlone D.Disk disk.old disk.new (ComesTorn Log at 1 (D.may_leave disk.old)) }
    ensures written { OnOk result ((was : Image) → IsSettled D.Disk disk.old was → at ≤ length was.log → (now : Image) → D.contents disk.new ≡ Some now
        → WritesTo Log at (gate ∷ []) was now × IsSettled D.Disk disk.new now) }
    ensures reads { D.reads disk.new ≡ D.reads disk.old }
    ensures cause { OnErr result (Rose (D.faults disk.old) (D.faults disk.new)) }
{
    write_log(disk, at, &[gate])?;
    sync_log(disk)
}

// Sees that a closed byte stands at the log's end.
fn shut_end<D: Disk>(disk: &mut D, end: u64, shut: bool) -> Result<(), Failed>
    requires { end + 1 ≤ 2 ^ 63 }
    ensures goes { WritesAlone D.Disk disk.old disk.new (λ i. (was : Image) → IsOpened D.Disk end shut disk.old was → HasSame was i) }
    ensures longer { WritesAlone D.Disk disk.old disk.new (IsAsLong D.Disk disk.old) }
    ensures ok { OnOk result ((was now : Image) → IsOpened D.Disk end shut disk.old was → D.contents disk.new ≡ Some now → HasSame was now × IsOpened D.Disk end true disk.new now) }
    ensures prefix { OnOk result ((was now : Image) → IsOpened D.Disk end shut disk.old was → D.contents disk.new ≡ Some now → take end now.log ≡ take end was.log) }
    ensures reads { D.reads disk.new ≡ D.reads disk.old }
    ensures cause { OnErr result (Rose (D.faults disk.old) (D.faults disk.new)) }
{
    if shut {
        return Ok(());
    }
    write_gate(disk, end, 0)
}

// Writes a group and a closed gate behind the closed gate at the log's end.
fn lay_waiting<D: Disk>(
    disk: &mut D,
    block: &mut Block,
    end: u64,
    number: u64,
    waiting: &BTreeMap<u32, Box<PageBytes>>,
) -> Result<(), Failed>
    requires low { end + 14 + entry_size * btree_map_len waiting.now ≤ 2 ^ 63 }
    requires few { btree_map_len waiting.now < 2 ^ 32 }
    ensures goes { WritesAlone D.Disk disk.old disk.new (λ i. (was : Image) → IsOpened D.Disk end true disk.old was → HasSame was i) }
    ensures longer { WritesAlone D.Disk disk.old disk.new (IsAsLong D.Disk disk.old) }
    ensures ok { OnOk result ((was now : Image) (g : Group) → IsOpened D.Disk end true disk.old was → IsBody g end (body_of number waiting.now.entries) → D.contents disk.new ≡ Some now
        → HasSame was now × IsGroupLaid D.Disk g end disk.new now) }
    ensures prefix { OnOk result ((was now : Image) → IsOpened D.Disk end true disk.old was → D.contents disk.new ≡ Some now → StandsBehind end (body_of number waiting.now.entries) was now) }
    ensures reads { D.reads disk.new ≡ D.reads disk.old }
    ensures cause { OnErr result (Rose (D.faults disk.old) (D.faults disk.new)) }
{
    write_body(disk, block, end + 1, number, waiting)?;
    sync_log(disk)
}

// Opens the gate of a group that stands behind it.
fn open_gate<D: Disk>(disk: &mut D, end: u64) -> Result<(), Failed>
    requires { end + 1 ≤ 2 ^ 63 }
    ensures goes { WritesAlone D.Disk disk.old disk.new (λ i. (was : Image) (g : Group) → IsGroupLaid D.Disk g end disk.old was → HasSame was i ⊎ HasGroup g was i) }
    ensures longer { WritesAlone D.Disk disk.old disk.new (IsAsLong D.Disk disk.old) }
    ensures ok { OnOk result ((was now : Image) (g : Group) → IsGroupLaid D.Disk g end disk.old was → D.contents disk.new ≡ Some now
        → HasGroup g was now × IsOpened D.Disk (end + group_size (length g.entries)) true disk.new now) }
    ensures prefix { OnOk result ((was now : Image) (g : Group) → IsGroupLaid D.Disk g end disk.old was → D.contents disk.new ≡ Some now
        → (take end now.log ≡ take end was.log) × (drop (end + 1) now.log ≡ drop (end + 1) was.log)) }
    ensures reads { D.reads disk.new ≡ D.reads disk.old }
    ensures cause { OnErr result (Rose (D.faults disk.old) (D.faults disk.new)) }
{
    write_gate(disk, end, 1)
}

// Writes a group of these pages at the log's end and opens its gate.
pub(crate) fn write_group<D: Disk>(
    disk: &mut D,
    block: &mut Block,
    end: u64,
    shut: bool,
    number: u64,
    waiting: &BTreeMap<u32, Box<PageBytes>>,
) -> Result<(), Failed>
    requires low { end + 14 + entry_size * btree_map_len waiting.now ≤ 2 ^ 63 }
    requires few { btree_map_len waiting.now < 2 ^ 32 }
    ensures goes { WritesAlone D.Disk disk.old disk.new (λ i. (was : Image) (g : Group) → IsOpened D.Disk end shut disk.old was → IsBody g end (body_of number waiting.now.entries) → HasSame was i ⊎ HasGroup g was i) }
    ensures longer { WritesAlone D.Disk disk.old disk.new (λ i. (was : Image) (g : Group) → IsOpened D.Disk end shut disk.old was → IsBody g end (body_of number waiting.now.entries) → length was.log ≤ length i.log) }
    ensures ok { OnOk result ((was now : Image) (g : Group) → IsOpened D.Disk end shut disk.old was → IsBody g end (body_of number waiting.now.entries) → D.contents disk.new ≡ Some now
        → HasGroup g was now × IsOpened D.Disk (end + group_size (length g.entries)) true disk.new now) }
    ensures prefix { OnOk result ((was now : Image) (g : Group) → IsOpened D.Disk end shut disk.old was → IsBody g end (body_of number waiting.now.entries) → D.contents disk.new ≡ Some now
        → StandsBehind end (body_of number waiting.now.entries) was now) }
    ensures reads { D.reads disk.new ≡ D.reads disk.old }
    ensures cause { OnErr result (Rose (D.faults disk.old) (D.faults disk.new)) }
{
    shut_end(disk, end, shut)?;
    lay_waiting(disk, block, end, number, waiting)?;
    open_gate(disk, end)
}
