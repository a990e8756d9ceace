// Groups of a store, given as a stream in blocks.
ghost use Rattle.std.specs.Prelude.{◌≡◌, ◌≤◌, ◌<◌, ℕ, List, [], ◌++◌, length, OnOk, IfOk, IfErr, OnErr};
ghost use Rattle.byteorder.specs.Endian.{big_bytes};
ghost use Rattle.nx_host.specs.Disk.{Image, Rose};
ghost use Rattle.nx_wal.specs.Wal.{group_count};
ghost use Rattle.nx_ship.specs.Sent.{SendsMore, SendsSome, IsSendFault, IsCutShort, SendsPage, SendsPages, StopsAtPage, StopsAtPages, SendsPart, StopsAtPart, SendsGroup, StopsAtGroup, SendsWanted, StopsAtWanted, SendsGroups, StopsAtGroups, EndsSendingAll, EndsSendingFrom};

use crate::ShipError;
use crate::error::error_of;
use crate::opening::following;
use byteorder::{BigEndian, ByteOrder};
use nx_host::{Disk, Host};
use nx_numbers::ENTRY_SIZE;
use nx_wal::{GroupHead, PageBytes, Wal};
use std::alloc::{AllocError, Global};

// Once the block has as many bytes, it is given.
const BLOCK: usize = 65_536;

// How many pages of a group are read at once, and how many bytes they are with their numbers.
const PART: u32 = 8;

const PART_SIZE: usize = 65_568;

// Adds the head of a group: its number and the count of its pages.
fn add_head(block: &mut Vec<u8>, number: u64, count: u32) -> Result<(), AllocError>
    ensures { OnOk result (block.new.items ≡ block.old.items ++ (big_bytes 8 number ++ big_bytes 4 count)) }
{
    let mut long = [0u8; 8];
    BigEndian::write_u64(&mut long, number);
    block.extend_from_slice(&long)?;
    let mut short = [0u8; 4];
    BigEndian::write_u32(&mut short, count);
    block.extend_from_slice(&short)
}

// Adds a page behind its number.
fn add_page(block: &mut Vec<u8>, page: u32, bytes: &PageBytes) -> Result<(), AllocError>
    ensures { OnOk result (block.new.items ≡ block.old.items ++ (big_bytes 4 page ++ bytes.now.bytes)) }
{
    let mut number = [0u8; 4];
    BigEndian::write_u32(&mut number, page);
    block.extend_from_slice(&number)?;
    block.extend_from_slice(&bytes.bytes)
}

// Gives what the block has, and empties it.
pub(crate) fn give<H: Host>(host: &mut H, block: &mut Vec<u8>) -> Result<(), ShipError>
    ensures ok { OnOk result (SendsMore ⟦<H as Disk>⟧ [] block.old.items block.new.items host.old host.new × (block.new.items ≡ [])) }
    ensures err { OnErr result (SendsSome ⟦<H as Disk>⟧ [] block.old.items host.old host.new) }
    ensures cut { IfErr result (λ e. IsCutShort e) }
    ensures cause { IfErr result (λ e. IsSendFault ⟦<H as Disk>⟧ e host.old host.new) }
{
    host.emit(block)?;
    block.clear();
    Ok(())
}

// Gives what the block has where that is much.
fn give_full<H: Host>(host: &mut H, block: &mut Vec<u8>) -> Result<(), ShipError>
    ensures ok { OnOk result (SendsMore ⟦<H as Disk>⟧ [] block.old.items block.new.items host.old host.new) }
    ensures err { OnErr result (SendsSome ⟦<H as Disk>⟧ [] block.old.items host.old host.new) }
    ensures cut { IfErr result (λ e. IsCutShort e) }
    ensures cause { IfErr result (λ e. IsSendFault ⟦<H as Disk>⟧ e host.old host.new) }
{
    if block.len() >= BLOCK {
        give(host, block)
    } else {
        Ok(())
    }
}

// Sends a page of the store, as a page of a group.
//
// Errors: `Damaged`, where it is missing; `Disk`, `Write`, `Memory`.
fn send_page<H: Host>(
    host: &mut H,
    wal: &mut Wal,
    block: &mut Vec<u8>,
    page: u32,
) -> Result<(), ShipError>
    ensures ok { OnOk result ((wal.new ≡ wal.old) × SendsPage ⟦<H as Disk>⟧ page wal.old block.old.items block.new.items host.old host.new) }
    ensures err { IfErr result (λ e. StopsAtPage ⟦<H as Disk>⟧ page wal.old e block.old.items host.old host.new) }
    ensures cause { IfErr result (λ e. IsSendFault ⟦<H as Disk>⟧ e host.old host.new) }
{
    let mut bytes = PageBytes { bytes: [0; 8192] };
    match wal.load(host, page, &mut bytes) {
        Ok(true) => {}
        Ok(false) => return Err(ShipError::Damaged { page }),
        Err(error) => return Err(error_of(error)),
    }
    add_page(block, page, &bytes)?;
    give_full(host, block)
}

// Sends the pages of the store below a number, as those of a group.
fn send_pages<H: Host>(
    host: &mut H,
    wal: &mut Wal,
    block: &mut Vec<u8>,
    count: u32,
) -> Result<(), ShipError>
    ensures ok { OnOk result (SendsPages ⟦<H as Disk>⟧ count wal.old block.old.items block.new.items host.old host.new) }
    ensures err { IfErr result (λ e. StopsAtPages ⟦<H as Disk>⟧ count wal.old e block.old.items host.old host.new) }
    ensures cause { IfErr result (λ e. IsSendFault ⟦<H as Disk>⟧ e host.old host.new) }
{
    for page in 0..count {
        send_page(host, wal, block, page)?;
    }
    Ok(())
}

// Sends all pages of the store as one group with this number.
pub(crate) fn send_all<H: Host>(
    host: &mut H,
    wal: &mut Wal,
    block: &mut Vec<u8>,
    number: u64,
    count: u32,
) -> Result<(), ShipError>
    requires { block.old.items ≡ [] }
    ensures ends { EndsSendingAll ⟦<H as Disk>⟧ number count wal.old result host.old host.new }
    ensures cause { IfErr result (λ e. IsSendFault ⟦<H as Disk>⟧ e host.old host.new) }
{
    add_head(block, number, count)?;
    send_pages(host, wal, block, count)?;
    give(host, block)?;
    Ok(())
}

// Gives what the block has where that is something.
fn give_some<H: Host>(host: &mut H, block: &mut Vec<u8>) -> Result<(), ShipError>
    ensures ok { OnOk result (SendsMore ⟦<H as Disk>⟧ [] block.old.items block.new.items host.old host.new × (block.new.items ≡ [])) }
    ensures err { OnErr result (SendsSome ⟦<H as Disk>⟧ [] block.old.items host.old host.new) }
    ensures cut { IfErr result (λ e. IsCutShort e) }
    ensures cause { IfErr result (λ e. IsSendFault ⟦<H as Disk>⟧ e host.old host.new) }
{
    if block.is_empty() {
        return Ok(());
    }
    give(host, block)
}

// Gives what the block has, and these bytes behind it.
fn give_behind<H: Host>(host: &mut H, block: &mut Vec<u8>, bytes: &[u8]) -> Result<(), ShipError>
    ensures ok { OnOk result (SendsMore ⟦<H as Disk>⟧ bytes.now block.old.items block.new.items host.old host.new) }
    ensures err { OnErr result (SendsSome ⟦<H as Disk>⟧ bytes.now block.old.items host.old host.new) }
    ensures cut { IfErr result (λ e. IsCutShort e) }
    ensures cause { IfErr result (λ e. IsSendFault ⟦<H as Disk>⟧ e host.old host.new) }
{
    give_some(host, block)?;
    host.emit(bytes)?;
    Ok(())
}

// Sends bytes: where they are many they aren't copied into the block.
fn send_bytes<H: Host>(host: &mut H, block: &mut Vec<u8>, bytes: &[u8]) -> Result<(), ShipError>
    ensures ok { OnOk result (SendsMore ⟦<H as Disk>⟧ bytes.now block.old.items block.new.items host.old host.new) }
    ensures err { OnErr result (SendsSome ⟦<H as Disk>⟧ bytes.now block.old.items host.old host.new) }
    ensures cut { IfErr result (λ e. IsCutShort e) }
    ensures cause { IfErr result (λ e. IsSendFault ⟦<H as Disk>⟧ e host.old host.new) }
{
    if bytes.len() >= BLOCK {
        return give_behind(host, block, bytes);
    }
    block.extend_from_slice(bytes)?;
    give_full(host, block)
}

// Sends so many pages of the group with this index, from the one with the index `first` in it on. They are read into the part.
fn send_part<H: Host>(
    host: &mut H,
    wal: &mut Wal,
    block: &mut Vec<u8>,
    part: &mut [u8],
    index: u64,
    first: u32,
    count: u32,
) -> Result<(), ShipError>
    requires index { index < group_count wal.old }
    requires room { length part.old ≡ 65568 }
    requires few { count ≤ 8 }
    ensures room { length part.new ≡ 65568 }
    ensures ok { OnOk result ((wal.new ≡ wal.old) × SendsPart ⟦<H as Disk>⟧ index first count wal.old block.old.items block.new.items host.old host.new) }
    ensures err { OnErr result (StopsAtPart ⟦<H as Disk>⟧ index first count wal.old block.old.items host.old host.new) }
    ensures cut { IfErr result (λ e. IsCutShort e) }
    ensures cause { IfErr result (λ e. IsSendFault ⟦<H as Disk>⟧ e host.old host.new) }
{
    let size = ENTRY_SIZE * count as usize;
    match wal.group_part(host, index, first, &mut part[..size]) {
        Ok(()) => {}
        Err(error) => return Err(error_of(error)),
    }
    send_bytes(host, block, &part[..size])
}

// Sends the pages of the group with this index, which are so many.
fn send_entries<H: Host>(
    host: &mut H,
    wal: &mut Wal,
    block: &mut Vec<u8>,
    part: &mut [u8],
    index: u64,
    count: u32,
) -> Result<(), ShipError>
    requires index { index < group_count wal.old }
    requires room { length part.old ≡ 65568 }
    ensures room { length part.new ≡ 65568 }
    ensures ok { OnOk result ((wal.new ≡ wal.old) × SendsPart ⟦<H as Disk>⟧ index 0 count wal.old block.old.items block.new.items host.old host.new) }
    ensures err { OnErr result (StopsAtPart ⟦<H as Disk>⟧ index 0 count wal.old block.old.items host.old host.new) }
    ensures cut { IfErr result (λ e. IsCutShort e) }
    ensures cause { IfErr result (λ e. IsSendFault ⟦<H as Disk>⟧ e host.old host.new) }
{
    let mut first = 0;
    while first < count {
        let more = PART.min(count - first);
        send_part(host, wal, block, part, index, first, more)?;
        first += more;
    }
    Ok(())
}

// Sends the group with this index, which has this head.
fn send_group<H: Host>(
    host: &mut H,
    wal: &mut Wal,
    block: &mut Vec<u8>,
    part: &mut [u8],
    index: u64,
    head: GroupHead,
) -> Result<(), ShipError>
    requires index { index < group_count wal.old }
    requires room { length part.old ≡ 65568 }
    ensures room { length part.new ≡ 65568 }
    ensures ok { OnOk result ((wal.new ≡ wal.old) × SendsGroup ⟦<H as Disk>⟧ index head wal.old block.old.items block.new.items host.old host.new) }
    ensures err { OnErr result (StopsAtGroup ⟦<H as Disk>⟧ index head wal.old block.old.items host.old host.new) }
    ensures cut { IfErr result (λ e. IsCutShort e) }
    ensures cause { IfErr result (λ e. IsSendFault ⟦<H as Disk>⟧ e host.old host.new) }
{
    add_head(block, head.number, head.count)?;
    send_entries(host, wal, block, part, index, head.count)
}

// Sends the group with this index where the first one with this number was found before, or is this one, and answers whether it did.
fn send_wanted<H: Host>(
    host: &mut H,
    wal: &mut Wal,
    block: &mut Vec<u8>,
    part: &mut [u8],
    index: u64,
    number: u64,
    found: bool,
) -> Result<bool, ShipError>
    requires index { index < group_count wal.old }
    requires room { length part.old ≡ 65568 }
    ensures room { length part.new ≡ 65568 }
    ensures ok { IfOk result (λ now. (wal.new ≡ wal.old) × SendsWanted ⟦<H as Disk>⟧ number index wal.old found now block.old.items block.new.items host.old host.new) }
    ensures err { OnErr result (StopsAtWanted ⟦<H as Disk>⟧ number index wal.old found block.old.items host.old host.new) }
    ensures cut { IfErr result (λ e. IsCutShort e) }
    ensures cause { IfErr result (λ e. IsSendFault ⟦<H as Disk>⟧ e host.old host.new) }
{
    let head = match wal.group_head(host, index) {
        Ok(head) => head,
        Err(error) => return Err(error_of(error)),
    };
    if !found && head.number != number {
        return Ok(false);
    }
    send_group(host, wal, block, part, index, head)?;
    Ok(true)
}

// Room for a part of a group.
fn part_room(alloc: Global) -> Result<Vec<u8>, AllocError>
    ensures { IfOk result (λ part. length part.items ≡ 65568) }
{
    let mut part = Vec::with_capacity(alloc, PART_SIZE)?;
    part.resize(PART_SIZE, 0)?;
    Ok(part)
}

// Sends the groups of the log from the first one with this number on, and answers whether there is one. Of a group before it the
// head alone is read.
fn send_groups<H: Host>(
    alloc: Global,
    host: &mut H,
    wal: &mut Wal,
    block: &mut Vec<u8>,
    number: u64,
) -> Result<bool, ShipError>
    ensures ok { IfOk result (λ found. SendsGroups ⟦<H as Disk>⟧ number wal.old found block.old.items block.new.items host.old host.new) }
    ensures err { IfErr result (λ e. StopsAtGroups ⟦<H as Disk>⟧ number wal.old e block.old.items host.old host.new) }
    ensures cause { IfErr result (λ e. IsSendFault ⟦<H as Disk>⟧ e host.old host.new) }
{
    let mut part = part_room(alloc)?;
    let mut found = false;
    for index in 0..wal.groups() {
        found = send_wanted(host, wal, block, &mut part, index, number, found)?;
    }
    Ok(found)
}

// Sends the groups of the log from the first one with this number on, where the last one has that number.
//
// Errors: `NoGroup`, where there is none, and it isn't the next one.
#[tactic(none)]
pub(crate) fn send_from<H: Host>(
    alloc: Global,
    host: &mut H,
    wal: &mut Wal,
    block: &mut Vec<u8>,
    number: u64,
    last: u64,
) -> Result<(), ShipError>
    requires { block.old.items ≡ [] }
    ensures ends { EndsSendingFrom ⟦<H as Disk>⟧ number last wal.old result host.old host.new }
    ensures cause { IfErr result (λ e. IsSendFault ⟦<H as Disk>⟧ e host.old host.new) }
{
    if send_groups(alloc, host, wal, block, number)? {
        give(host, block)?;
        return Ok(());
    }
    if number == following(last) {
        return Ok(());
    }
    Err(ShipError::NoGroup { from: number, last })
}
