// Byte lists, page by page.
ghost use Rattle.std.specs.Prelude.{◌≡◌, ◌<◌, ◌≤◌, ◌+◌, ◌*◌, ◌++◌, ◌∷◌, ℕ, min, List, [], true, false, length, take, drop, IfOk, IfErr, OnOk, MatchOption};
ghost use Rattle.std.specs.Option.{option_to_list};
ghost use Rattle.nx_host.specs.Disk.{Image};
ghost use Rattle.nx_host.specs.Still.{IsStill};
ghost use Rattle.nx_numbers.specs.Sizes.{page_room};
ghost use Rattle.nx_replay.specs.Log.{replay};
ghost use Rattle.nx_holdings.specs.Holdings.{times, Link, content_of, pages_of_links};
ghost use Rattle.nx_piece.specs.Encoding.{proxy_bytes, proxies_bytes};
ghost use Rattle.nx_piece.specs.Contents.{fars_in};
ghost use Rattle.nx_piece.specs.PieceNode.{MayBeFar};
ghost use Rattle.nx_piece.specs.Flat.{seen_node};
ghost use Rattle.nx_piece.specs.Gapped.{End};
ghost use Rattle.nx_piece.specs.Valid.{HaveNumbers, AreFar};
ghost use Rattle.nx_piece.specs.Viewing.{seen_items, begun_with};
ghost use Rattle.nx_layouts.specs.Layout.{RecordPlace};
ghost use Rattle.nx_rules.specs.declared.verdict.PageRule.TheVariants as rule;
ghost use Rattle.nx_rules.specs.Listed.{IsLinkTo, IsListOf};
ghost use Rattle.nx_rules.specs.Walked.{HaveRootNumbers};
ghost use Rattle.nx_rules.specs.Broken.{Blames, IsNoLink, FitsThere, BreaksList};
ghost use Rattle.nx_wal.specs.Wal.{wal_ended};
ghost use Rattle.nx_check.specs.Uses.{use_of};
ghost use Rattle.nx_check.specs.Come.{HasCome, StopsSo};
ghost use Rattle.nx_check.specs.Lists.{fars_of_item, WalksLists, SaysLists};

use crate::error::{Stop, broken};
use crate::reading::{Walk, load};
use crate::uses::{PageUse, Uses};
use nx_chain::view_chain_page;
use nx_host::Disk;
use nx_lists::NoMemory;
use nx_numbers::PAGE_ROOM;
use nx_piece::{ItemView, ItemsView, NodeView, Proxies, Proxy};
use nx_rules::PageRule;
use nx_slots::PageBytes;
use nx_tree::Bytes;
use std::alloc::Global;

// A list of so many bytes, which the header or a record of the page `by` names. Its pages are marked, and its bytes are added to
// `into`, where they are wanted.
pub fn walk_list<D: Disk>(
    walk: &mut Walk,
    disk: &mut D,
    by: u32,
    first: u32,
    size: u64,
    into: &mut Bytes,
) -> Result<(), Stop>
    requires runs { wal_ended walk.old.wal ≡ false }
    requires some { 1 ≤ size }
    ensures still { IsStill D.Disk disk.old disk.new }
    ensures same { OnOk result (walk.new ≡ record walk.old { uses = walk.new.uses; page = walk.new.page; at = walk.new.at }) }
    ensures long { OnOk result (length into.new ≡ length into.old + size) }
    ensures ok { OnOk result ((was : Image) (base : ℕ) (free used : List ℕ) (reached : List RecordPlace) → HasCome D.Disk walk.old disk.old was base free used reached
        → (links : List Link) × IsListOf (replay was) used first size links × (into.new ≡ into.old ++ content_of links) × HasCome D.Disk walk.new disk.new was base free (used ++ pages_of_links links) reached) }
    ensures refused { IfErr result (λ e. StopsSo D.Disk disk.old disk.new (λ broken page. (broken ≡ rule.Chain) × ((was : Image) (base : ℕ) (free used : List ℕ) (reached : List RecordPlace)
        → HasCome D.Disk walk.old disk.old was base free used reached → BreaksList (replay was) used by first size page)) e) }
{
    let mut by = by;
    let mut page = first;
    let mut left = size;
    while left > PAGE_ROOM as u64 {
        let next = step_list(walk, disk, by, page, left)?;
        into.extend_from_slice(content_in(&walk.page, PAGE_ROOM as u64))?;
        left -= PAGE_ROOM as u64;
        by = page;
        page = next;
    }
    step_list(walk, disk, by, page, left)?;
    into.extend_from_slice(content_in(&walk.page, left))?;
    Ok(())
}

// The next page of a list of which so many bytes are left, which the page `by` names. It is marked.
fn step_list<D: Disk>(
    walk: &mut Walk,
    disk: &mut D,
    by: u32,
    page: u32,
    left: u64,
) -> Result<u32, Stop>
    requires runs { wal_ended walk.old.wal ≡ false }
    requires some { 1 ≤ left }
    ensures still { IsStill D.Disk disk.old disk.new }
    ensures same { OnOk result (walk.new ≡ record walk.old { uses = walk.new.uses; page = walk.new.page; at = walk.new.at }) }
    ensures ok { IfOk result (λ next. (was : Image) (base : ℕ) (free used : List ℕ) (reached : List RecordPlace) → HasCome D.Disk walk.old disk.old was base free used reached
        → (link : Link) × (link.page ≡ page) × IsLinkTo (replay was) link next × (times page used ≡ 0) × FitsThere left next link.content × (link.content ≡ take (min left page_room) (drop 8 walk.new.page.bytes))
        × HasCome D.Disk walk.new disk.new was base free (used ++ page ∷ []) reached) }
    ensures refused { IfErr result (λ e. StopsSo D.Disk disk.old disk.new (λ broken blamed. (broken ≡ rule.Chain) × ((was : Image) (base : ℕ) (free used : List ℕ) (reached : List RecordPlace)
        → HasCome D.Disk walk.old disk.old was base free used reached → Blames (replay was) by page (IsNoLink used left page) blamed)) e) }
{
    if !load(walk, disk, page)? {
        return Err(broken(by, PageRule::Chain));
    }
    let (next, content) = match view_chain_page(&walk.page) {
        Some(found) => found,
        None => return Err(broken(page, PageRule::Chain)),
    };
    if !may_be_next(&walk.uses, page, left, next, content) {
        return Err(broken(page, PageRule::Chain));
    }
    walk.uses.set_use(page, PageUse::Chain)?;
    Ok(next)
}

// Whether a page wasn't come to, and as a chain page may have this content and this next page where so many bytes are left.
fn may_be_next(uses: &Uses, page: u32, left: u64, next: u32, content: &[u8]) -> bool
    ensures yes { result ≡ true → (use_of uses.now page ≡ PageUse.Unseen) × FitsThere left next content.now }
    ensures no { result ≡ false → FitsThere left next content.now → use_of uses.now page ≡ PageUse.Unseen → ⊥ }
{
    fits_there(left, next, content) && uses.is_unseen(page)
}

// Whether a chain page may have this content and this next page where so many bytes are left.
fn fits_there(left: u64, next: u32, content: &[u8]) -> bool
    ensures yes { result ≡ true → FitsThere left next content.now }
    ensures no { result ≡ false → FitsThere left next content.now → ⊥ }
{
    content.len() as u64 == left.min(PAGE_ROOM as u64) && (next != 0) == (left > PAGE_ROOM as u64)
}

// The content of a chain page that has so many bytes of one.
fn content_in(page: &PageBytes, len: u64) -> &[u8]
    requires { len ≤ page_room }
    ensures are { result.now ≡ take len (drop 8 page.now.bytes) }
    ensures long { length result.now ≡ len }
{
    &page.bytes[8..8 + len as usize]
}

// As `walk_list`, without the bytes.
fn pass_list<D: Disk>(
    walk: &mut Walk,
    disk: &mut D,
    by: u32,
    first: u32,
    size: u64,
) -> Result<(), Stop>
    requires runs { wal_ended walk.old.wal ≡ false }
    requires some { 1 ≤ size }
    ensures still { IsStill D.Disk disk.old disk.new }
    ensures same { OnOk result (walk.new ≡ record walk.old { uses = walk.new.uses; page = walk.new.page; at = walk.new.at }) }
    ensures ok { OnOk result ((was : Image) (base : ℕ) (free used : List ℕ) (reached : List RecordPlace) → HasCome D.Disk walk.old disk.old was base free used reached
        → (links : List Link) × IsListOf (replay was) used first size links × HasCome D.Disk walk.new disk.new was base free (used ++ pages_of_links links) reached) }
    ensures refused { IfErr result (λ e. StopsSo D.Disk disk.old disk.new (λ broken page. (broken ≡ rule.Chain) × ((was : Image) (base : ℕ) (free used : List ℕ) (reached : List RecordPlace)
        → HasCome D.Disk walk.old disk.old was base free used reached → BreaksList (replay was) used by first size page)) e) }
{
    let mut by = by;
    let mut page = first;
    let mut left = size;
    while left > PAGE_ROOM as u64 {
        let next = step_list(walk, disk, by, page, left)?;
        left -= PAGE_ROOM as u64;
        by = page;
        page = next;
    }
    step_list(walk, disk, by, page, left)?;
    Ok(())
}

// The lists of the far contents of these nodes, which a record of the page `by` has, in document order.
#[cycle(contents)]
pub fn walk_contents<D: Disk>(
    walk: &mut Walk,
    disk: &mut D,
    by: u32,
    items: ItemsView<'_>,
) -> Result<(), Stop>
    requires runs { wal_ended walk.old.wal ≡ false }
    requires far { AreFar (seen_items items) }
    ensures still { IsStill D.Disk disk.old disk.new }
    ensures same { OnOk result (walk.new ≡ record walk.old { uses = walk.new.uses; page = walk.new.page; at = walk.new.at }) }
    ensures ok { OnOk result (WalksLists D.Disk walk.old disk.old walk.new disk.new (fars_in (seen_items items.entry))) }
    ensures refused { IfErr result (λ e. StopsSo D.Disk disk.old disk.new (SaysLists D.Disk walk.old disk.old by (fars_in (seen_items items.entry))) e) }
{
    let mut left = items;
    while let Some((item, beside)) = left.split_first() {
        walk_item(walk, disk, by, item)?;
        left = beside;
    }
    Ok(())
}

// The lists of a tree.
#[cycle(contents)]
fn walk_item<D: Disk>(
    walk: &mut Walk,
    disk: &mut D,
    by: u32,
    item: ItemView<'_>,
) -> Result<(), Stop>
    requires runs { wal_ended walk.old.wal ≡ false }
    requires far { AreFar (begun_with item End) }
    ensures still { IsStill D.Disk disk.old disk.new }
    ensures same { OnOk result (walk.new ≡ record walk.old { uses = walk.new.uses; page = walk.new.page; at = walk.new.at }) }
    ensures ok { OnOk result (WalksLists D.Disk walk.old disk.old walk.new disk.new (fars_of_item item.entry)) }
    ensures refused { IfErr result (λ e. StopsSo D.Disk disk.old disk.new (SaysLists D.Disk walk.old disk.old by (fars_of_item item.entry)) e) }
{
    match item {
        ItemView::Tree(tree) => {
            pass_far(walk, disk, by, tree.node)?;
            walk_contents(walk, disk, by, tree.children)?;
            Ok(())
        }
        ItemView::Run { .. } => Ok(()),
    }
}

// The list of a node's content, where it is far.
fn pass_far<D: Disk>(walk: &mut Walk, disk: &mut D, by: u32, node: NodeView<'_>) -> Result<(), Stop>
    requires runs { wal_ended walk.old.wal ≡ false }
    requires far { MayBeFar (seen_node node) }
    ensures still { IsStill D.Disk disk.old disk.new }
    ensures same { OnOk result (walk.new ≡ record walk.old { uses = walk.new.uses; page = walk.new.page; at = walk.new.at }) }
    ensures ok { OnOk result (WalksLists D.Disk walk.old disk.old walk.new disk.new (option_to_list (seen_node node.entry).far)) }
    ensures refused { IfErr result (λ e. StopsSo D.Disk disk.old disk.new (SaysLists D.Disk walk.old disk.old by (option_to_list (seen_node node.entry).far)) e) }
{
    match node.far {
        None => Ok(()),
        Some(far) => {
            pass_list(walk, disk, by, far.first, u64::from(far.length))?;
            Ok(())
        }
    }
}

// The proxies that the bytes of a list say, whatever numbers of roots they have.
pub fn proxies_of(alloc: Global, bytes: &[u8], count: u32) -> Result<Proxies, NoMemory>
    requires { length bytes.now ≡ 8 * count }
    ensures are { IfOk result (λ proxies. bytes.now ≡ proxies_bytes proxies) }
    ensures many { IfOk result (λ proxies. length proxies ≡ count) }
    ensures numbers { IfOk result (λ proxies. HaveNumbers proxies × HaveRootNumbers proxies) }
{
    let mut proxies = Proxies::new(alloc);
    let mut rest = bytes;
    while let Some((proxy, behind)) = read_proxy(rest) {
        proxies.push(proxy)?;
        rest = behind;
    }
    Ok(proxies)
}

// A proxy with any number of roots, and what stands behind it.
fn read_proxy(bytes: &[u8]) -> Option<(Proxy, &[u8])>
    ensures { MatchOption result (length bytes.now < 8) (λ read. (bytes.now ≡ proxy_bytes read.0 ++ read.1.now) × (read.0.page < 4294967296) × (read.0.slot < 65536) × (read.0.roots < 65536)) }
{
    let [p3, p2, p1, p0, s1, s0, r1, r0, rest @ ..] = bytes else {
        return None;
    };
    let proxy = Proxy {
        page: u32::from_be_bytes([*p3, *p2, *p1, *p0]),
        slot: u16::from_be_bytes([*s1, *s0]),
        roots: u16::from_be_bytes([*r1, *r0]),
    };
    Some((proxy, rest))
}
