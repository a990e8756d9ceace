// What the pages of a driven store hold.
ghost use Rattle.std.specs.Prelude.{◌≡◌, ◌+◌, ◌*◌, ◌<◌, ◌≤◌, ◌++◌, length, take, drop, IfSome};
ghost use Rattle.nx_wal_driver.specs.Stamp.{unit_bytes, stamped_bytes};

use nx_numbers::{set_u32_at, set_u64_at, u32_at, u64_at};
use nx_slots::PageBytes;

// What a page says in each of its 256 units: which run wrote it, in which group, and which page it is.
#[derive(Clone, Copy)]
pub struct Stamp {
    pub seed: u64,
    pub group: u64,
    pub page: u32,
}

// The page with this stamp.
pub fn stamped(stamp: Stamp) -> PageBytes
    ensures { result.bytes ≡ stamped_bytes stamp }
{
    let mut page = PageBytes { bytes: [0; 8192] };
    write_units(&mut page.bytes, stamp);
    page
}

// Writes all units of a page.
fn write_units(bytes: &mut [u8], stamp: Stamp)
    requires { length bytes.old ≡ 8192 }
    ensures { bytes.new ≡ stamped_bytes stamp }
{
    for i in 0..256u32 {
        write_unit(bytes, stamp, i);
    }
}

// Writes one unit of a page.
fn write_unit(bytes: &mut [u8], stamp: Stamp, i: u32)
    requires { 32 * i + 32 ≤ length bytes.old }
    ensures { bytes.new ≡ take (32 * i) bytes.old ++ (unit_bytes stamp i ++ drop (32 * i + 32) bytes.old) }
{
    let at = 32 * i as usize;
    bytes[at..at + 32].copy_from_slice(&unit(stamp, i));
}

fn unit(stamp: Stamp, i: u32) -> [u8; 32]
    ensures { result ≡ unit_bytes stamp i }
{
    let mut unit = *b"NATIXST1                        ";
    set_u64_at(&mut unit, 8, stamp.seed);
    set_u64_at(&mut unit, 16, stamp.group);
    set_u32_at(&mut unit, 24, stamp.page);
    set_u32_at(&mut unit, 28, i);
    unit
}

// The stamp of a page, all of whose bytes are those of that stamp.
pub fn stamp_of(page: &PageBytes) -> Option<Stamp>
    ensures { IfSome result (λ stamp. page.now.bytes ≡ stamped_bytes stamp) }
{
    let stamp = Stamp {
        seed: u64_at(&page.bytes, 8),
        group: u64_at(&page.bytes, 16),
        page: u32_at(&page.bytes, 24),
    };
    let whole = stamped(stamp);
    if whole.bytes == page.bytes {
        Some(stamp)
    } else {
        None
    }
}
