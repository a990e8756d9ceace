// The texts of paths.
ghost use Rattle.std.specs.Prelude.{◌≡◌, ℕ, ◌++◌, take, true, false, MatchOption, IfOk, OnOk};
ghost use Rattle.nx_pyx.specs.Field.{is_position, value_of, is_path, positions_of};
ghost use Rattle.nx_pyx.specs.Path.{path_text};

use crate::fields::{number, push_number};
use nx_tree::{Bytes, NoMemory, Path};
use std::alloc::Global;

/// The path that a text says: one slash alone for the root, or positions, each behind a slash.
/// `None` where it is no path.
///
/// Errors: `NoMemory`.
pub fn path(alloc: Global, text: &[u8]) -> Result<Option<Path>, NoMemory>
    ensures { IfOk result (λ found. MatchOption found (is_path text.now ≡ false) (λ path. (is_path text.now ≡ true) × (path ≡ positions_of text.now))) }
{
    let mut path = Path::new(alloc);
    let Some((b'/', steps)) = text.split_first() else {
        return Ok(None);
    };
    if steps.is_empty() {
        return Ok(Some(path));
    }
    for step in steps.split(|b| *b == b'/') {
        let Some(position) = position(step) else {
            return Ok(None);
        };
        path.push(position)?;
    }
    Ok(Some(path))
}

/// The position that decimal digits stand for, from 0 to 4,294,967,295: `None` where there is no
/// digit, a leading zero, another byte or too great a number.
pub fn position(digits: &[u8]) -> Option<u32>
    ensures { MatchOption result (is_position digits.now ≡ false) (λ n. (is_position digits.now ≡ true) × (n ≡ value_of digits.now)) }
{
    match digits {
        [] | [b'0', _, ..] => None,
        _ => number(digits),
    }
}

/// Adds the text of a path: one slash alone for the root, or a slash and a decimal for each position.
///
/// Errors: `NoMemory`. The first bytes of the text may stand behind what the block had then.
pub fn push_path(block: &mut Bytes, positions: &[u32]) -> Result<(), NoMemory>
    ensures ok { OnOk result (block.new ≡ block.old ++ path_text positions.now) }
    ensures prefix { (n : ℕ) × (block.new ≡ block.old ++ take n (path_text positions.now)) }
{
    if positions.is_empty() {
        block.push(b'/')?;
        return Ok(());
    }
    for position in positions {
        push_number(block, b"/", u64::from(*position))?;
    }
    Ok(())
}
