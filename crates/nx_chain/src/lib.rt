//! Chain pages: a list of bytes that is too long for a record stands on pages that name each other. It
//! stands on `nx_numbers` and on `nx_slots`, of which it takes the bytes of a page.
//!
//! The form of a chain page is said in `specs/Chain.antt`.
#![tactic(auto)]

ghost use Rattle.nx_chain.specs.Chain.{chain_bytes, chain_head, IsBegun, IsChainPage, IsNoChainPage};
ghost use Rattle.nx_numbers.specs.Numbers.{number_at};
ghost use Rattle.std.specs.Prelude.{◌≡◌, ◌+◌, ◌<◌, ◌≤◌, length, take, drop, IfOk, MatchOption, true, false};
ghost use Rattle.std.proofs.Math.ListN.{replicate};
ghost use Rattle.nx_numbers.specs.Sizes.{page_room};

use nx_lists::{List, NoMemory};
use nx_numbers::{PAGE_ROOM, PAGE_SIZE, set_u16_at, set_u32_at, u16_at, u32_at};
use nx_slots::PageBytes;
use std::alloc::Global;

/// What a chain page says.
#[derive(Drop)]
pub struct ChainPage {
    /// The page of what comes next, 0 where nothing does.
    pub next: u32,
    /// 1 to 8,184 bytes.
    pub content: List<u8>,
}

/// The chain page with this content, of 1 to 8,184 bytes, and this next page, 0 for none. It takes no
/// memory.
pub fn chain_page(next: u32, content: &[u8]) -> PageBytes
    requires some { 1 ≤ length content.now }
    requires few { length content.now ≤ page_room }
    ensures { result.bytes ≡ chain_bytes next content.now }
{
    let mut page = begun();
    set_u16_at(&mut page.bytes, 2, content.len() as u16);
    set_u32_at(&mut page.bytes, 4, next);
    page.bytes[8..8 + content.len()].copy_from_slice(content);
    page
}

// A page that has a chain page's kind, and zero bytes elsewhere.
fn begun() -> PageBytes
    ensures { IsBegun result.bytes }
{
    let mut page = PageBytes {
        bytes: [0; PAGE_SIZE],
    };
    page.bytes[0] = 2;
    page
}

/// The next page and the content of the chain page of these bytes, as they lie there, and none exactly where they
/// are no chain page. It takes no memory.
pub fn view_chain_page(bytes: &PageBytes) -> Option<(u32, &[u8])>
    ensures { MatchOption result (IsNoChainPage bytes.now.bytes) (λ page. IsChainPage bytes.now.bytes page.0 page.1.now) }
{
    let len = u16_at(&bytes.bytes, 2) as usize;
    if !is_chain_page(bytes, len) {
        return None;
    }
    Some((u32_at(&bytes.bytes, 4), &bytes.bytes[8..8 + len]))
}

/// What the chain page of these bytes says, and none exactly where they are no chain page.
///
/// Errors: `NoMemory`.
pub fn read_chain_page(alloc: Global, bytes: &PageBytes) -> Result<Option<ChainPage>, NoMemory>
    ensures { IfOk result (λ found. MatchOption found (IsNoChainPage bytes.now.bytes)
        (λ page. IsChainPage bytes.now.bytes page.next page.content)) }
{
    let Some((next, content)) = view_chain_page(bytes) else {
        return Ok(None);
    };
    let content = List::from_slice(alloc, content)?;
    Ok(Some(ChainPage { next, content }))
}

// Whether the bytes are the chain page of what they say, which is so many bytes.
fn is_chain_page(bytes: &PageBytes, len: usize) -> bool
    requires { len ≡ number_at 2 bytes.now.bytes 2 }
    ensures fits { result ≡ true → len ≤ page_room }
    ensures yes { result ≡ true → IsChainPage bytes.now.bytes (number_at 4 bytes.now.bytes 4) (take len (drop 8 bytes.now.bytes)) }
    ensures no { result ≡ false → IsNoChainPage bytes.now.bytes }
{
    if len < 1 || len > PAGE_ROOM {
        return false;
    }
    let head = chain_head(u32_at(&bytes.bytes, 4), len as u16);
    bytes.bytes[..8] == head[..] && are_zero(&bytes.bytes[8 + len..])
}

// What stands in front of a content of so many bytes.
fn chain_head(next: u32, len: u16) -> [u8; 8]
    ensures { result ≡ chain_head next len }
{
    let mut head = [2u8, 0, 0, 0, 0, 0, 0, 0];
    set_u16_at(&mut head, 2, len);
    set_u32_at(&mut head, 4, next);
    head
}

// Whether these are zero bytes. All are looked at, so that a processor can look at many at once.
fn are_zero(bytes: &[u8]) -> bool
    ensures yes { result ≡ true → bytes.now ≡ replicate (length bytes.now) 0 }
    ensures no { result ≡ false → bytes.now ≡ replicate (length bytes.now) 0 → ⊥ }
{
    let mut found = 0u8;
    for i in 0..bytes.len() {
        found |= bytes[i];
    }
    found == 0
}
