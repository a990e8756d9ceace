// Free pages.
ghost use Rattle.nx_holdings.specs.Holdings.{free_bytes};
ghost use Rattle.nx_holdings.specs.Free.{IsFreePage, IsNoFreePage};
ghost use Rattle.std.specs.Prelude.{◌≡◌, MatchOption};
ghost use Rattle.std.proofs.Math.ListN.{replicate};
ghost use Rattle.nx_numbers.specs.Sizes.{page_size};

use nx_numbers::{PAGE_SIZE, set_u32_at, u32_at};
use nx_slots::PageBytes;

// A page of zero bytes.
pub(crate) fn blank() -> PageBytes
    ensures { result.bytes ≡ replicate page_size 0 }
{
    PageBytes {
        bytes: [0; PAGE_SIZE],
    }
}

/// The free page with this next free page, 0 for none. It takes no memory.
pub fn free_page(next: u32) -> PageBytes
    ensures { result.bytes ≡ free_bytes next }
{
    let mut page = blank();
    set_u32_at(&mut page.bytes, 4, next);
    page
}

/// The next free page that a free page names, 0 for none, and none exactly where the bytes are no free
/// page. It takes no memory.
pub fn read_free_page(bytes: &PageBytes) -> Option<u32>
    ensures { MatchOption result (IsNoFreePage bytes.now.bytes) (λ next. IsFreePage bytes.now.bytes next) }
{
    let next = u32_at(&bytes.bytes, 4);
    let page = free_page(next);
    if page.bytes == bytes.bytes {
        Some(next)
    } else {
        None
    }
}
