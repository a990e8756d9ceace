// A matrix with many rules.
ghost use Rattle.std.specs.Prelude.{◌<◌};

use nx_matrix::{Entry, Matrix, MatrixError};
use std::alloc::Global;

// As many rules, 4,096 at most, for pairs of the 64 labels.
pub(crate) fn make_rules(alloc: Global, rules: u32) -> Result<Matrix, MatrixError> {
    let mut matrix = Matrix::new(alloc);
    for number in 0..rules.min(4096) {
        let (parent, child) = (label((number / 64) as u8), label((number % 64) as u8));
        matrix.set(&parent, &child, Entry::Cluster)?;
    }
    Ok(matrix)
}

// The label of a number below 64: `element` and a byte from `@` on.
fn label(number: u8) -> [u8; 8]
    requires { number < 64 }
{
    [b'e', b'l', b'e', b'm', b'e', b'n', b't', b'@' + number]
}
