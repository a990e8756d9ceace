// The fields of a line, which single spaces separate, and numbers in decimal digits.
ghost use Rattle.std.specs.Prelude.{◌≡◌, ℕ, ◌+◌, ◌-◌, ◌*◌, ◌<◌, ◌≤◌, ◌&&◌, ◌++◌, true, false, None, Some, MatchOption, IfSome, OnOk, length, take, nat_le, decimal};
ghost use Rattle.std.specs.List.{position};
ghost use Rattle.nx_pyx.specs.Event.{is_space};
ghost use Rattle.nx_pyx.specs.Field.{field, behind_space, is_digit, is_number, value_of, greatest_position};

use itoa::Buffer;
use nx_tree::{Bytes, NoMemory};

/// The bytes before the first space, or all where there is none, and those behind it, where there is
/// one.
pub fn split_field(bytes: &[u8]) -> (&[u8], Option<&[u8]>)
    ensures field { result.0.now ≡ field bytes.now }
    ensures behind { MatchOption result.1 (behind_space bytes.now ≡ None) (λ rest. behind_space bytes.now ≡ Some rest.now) }
{
    match first_space(bytes) {
        Some(end) => (&bytes[..end], Some(&bytes[end + 1..])),
        None => (bytes, None),
    }
}

// Where the first space stands, if there is one.
fn first_space(bytes: &[u8]) -> Option<usize>
    ensures at { result ≡ position is_space bytes.now }
    ensures inside { IfSome result (λ end. end < length bytes.now) }
{
    bytes.iter().position(|b| *b == b' ')
}

/// The number that decimal digits stand for: `None` where a byte is no digit, or the number is more
/// than 4,294,967,295. It looks at no more digits then. No digits stand for 0.
pub fn number(digits: &[u8]) -> Option<u32>
    ensures { MatchOption result (is_number digits.now ≡ false) (λ n. (is_number digits.now ≡ true) × (n ≡ value_of digits.now)) }
{
    let mut number = 0u32;
    for digit in digits {
        number = with_digit(number, *digit)?;
    }
    Some(number)
}

// The number with one digit more, if it is a digit and the number isn't too great.
fn with_digit(number: u32, digit: u8) -> Option<u32>
    ensures { let more = 10 * number + (digit - 48) in MatchOption result ((is_digit digit && nat_le more greatest_position) ≡ false) (λ n. (is_digit digit ≡ true) × (n ≤ greatest_position) × (n ≡ more)) }
{
    if !digit.is_ascii_digit() {
        return None;
    }
    number.checked_mul(10)?.checked_add(u32::from(digit - b'0'))
}

/// Adds bytes, and behind them a number in decimal digits without a leading zero.
///
/// Errors: `NoMemory`. The first of these bytes may stand behind what the block had then.
pub fn push_number(block: &mut Bytes, before: &[u8], number: u64) -> Result<(), NoMemory>
    ensures ok { OnOk result (block.new ≡ block.old ++ before.now ++ decimal number) }
    ensures prefix { (n : ℕ) × (block.new ≡ block.old ++ take n (before.now ++ decimal number)) }
{
    let mut digits = Buffer::new();
    block.extend_from_slice(before)?;
    block.extend_from_slice(digits.format(number).as_bytes())?;
    Ok(())
}
