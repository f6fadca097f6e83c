// Parts of a text that is held for reading.
ghost use Rattle.std.specs.Prelude.{◌≡◌, Some, None, MatchResult};
ghost use Rattle.code.specs.Shapes.{columns_of, rows_of};
ghost use Rattle.frames.specs.Columns.{column_refusal, IsColumn};

use crate::checks::check;
use crate::lines::stride;
use code::{Refusal, Shape};
use symbol::Symbol;

// The frames of one column, as one part of the text.
pub fn column_part<'t, X: Symbol>(
    shape: Shape,
    text: &'t [u8],
    column: usize,
) -> Result<&'t [u8], Refusal>
    ensures { MatchResult result (λ part. (column_refusal (columns_of shape) (rows_of shape) X.Symbol.width text.now column ≡ None) × IsColumn (rows_of shape) X.Symbol.width text.now column part.now) (λ e. column_refusal (columns_of shape) (rows_of shape) X.Symbol.width text.now column ≡ Some e) }
{
    check::<X>(shape, text)?;
    if !(1..=shape.columns()).contains(&column) {
        return Err(Refusal::NoSuchPlace { column, row: 0 });
    }
    let size = shape.rows() * stride::<X>();
    let start = (column - 1) * size;
    Ok(&text[start..start + size])
}
