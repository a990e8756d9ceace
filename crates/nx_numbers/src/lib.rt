//! Numbers in bytes, the highest byte first, at a place of a slice; and the numbers of a store's format. It
//! stands on nothing of this repository. What the words of its contracts mean is said in `specs/Numbers.antt`.
#![tactic(auto)]

ghost use Rattle.nx_numbers.specs.Numbers.{number_at, with_number};
ghost use Rattle.std.specs.Prelude.{◌≡◌, ◌+◌, ◌≤◌, length};

mod sizes;

use byteorder::{BigEndian, ByteOrder};
pub use sizes::{ENTRY_SIZE, LONGEST_RECORD, MOST_PAGES, MOST_SLOTS, PAGE_ROOM, PAGE_SIZE};

/// The number in the two bytes from a place on.
#[tactic(auto, unfolding(crate::specs::Numbers::number_at))]
pub fn u16_at(bytes: &[u8], at: usize) -> u16
    requires { at + 2 ≤ length bytes.now }
    ensures { result ≡ number_at 2 bytes.now at }
{
    BigEndian::read_u16(&bytes[at..])
}

/// The number in the four bytes from a place on.
#[tactic(auto, unfolding(crate::specs::Numbers::number_at))]
pub fn u32_at(bytes: &[u8], at: usize) -> u32
    requires { at + 4 ≤ length bytes.now }
    ensures { result ≡ number_at 4 bytes.now at }
{
    BigEndian::read_u32(&bytes[at..])
}

/// The number in the eight bytes from a place on.
#[tactic(auto, unfolding(crate::specs::Numbers::number_at))]
pub fn u64_at(bytes: &[u8], at: usize) -> u64
    requires { at + 8 ≤ length bytes.now }
    ensures { result ≡ number_at 8 bytes.now at }
{
    BigEndian::read_u64(&bytes[at..])
}

/// Writes a number into the two bytes from a place on.
pub fn set_u16_at(bytes: &mut [u8], at: usize, number: u16)
    requires { at + 2 ≤ length bytes.old }
    ensures { bytes.new ≡ with_number 2 bytes.old at number }
{
    BigEndian::write_u16(&mut bytes[at..], number);
}

/// Writes a number into the four bytes from a place on.
pub fn set_u32_at(bytes: &mut [u8], at: usize, number: u32)
    requires { at + 4 ≤ length bytes.old }
    ensures { bytes.new ≡ with_number 4 bytes.old at number }
{
    BigEndian::write_u32(&mut bytes[at..], number);
}

/// Writes a number into the eight bytes from a place on.
pub fn set_u64_at(bytes: &mut [u8], at: usize, number: u64)
    requires { at + 8 ≤ length bytes.old }
    ensures { bytes.new ≡ with_number 8 bytes.old at number }
{
    BigEndian::write_u64(&mut bytes[at..], number);
}
