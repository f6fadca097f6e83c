// The check of a text: its length, then its lines from the first.
ghost use Rattle.std.specs.Prelude.{◌+◌, ◌*◌, ◌/◌, ◌<◌, ◌≤◌, length};
ghost use Rattle.code.specs.Shapes.{columns_of, rows_of};
ghost use Rattle.frames.specs.Lines.{stride as stride_of};
ghost use Rattle.frames.specs.Checks.{line_refusal, lines_refusal, text_refusal, Told, Passes, Back, There};

use crate::frame::is_frame;
use crate::lines::stride;
use code::{Refusal, Shape};
use symbol::Symbol;

fn check_line<X: Symbol>(text: &[u8], rows: usize, line: usize) -> Result<(), Refusal>
    requires room { line * stride_of X.Symbol.width + stride_of X.Symbol.width ≤ length text.now }
    requires column { line / rows < 255 }
    requires rows { (1 ≤ rows) × (rows ≤ 4096) }
    ensures { Told (line_refusal rows X.Symbol.width text.now line) result }
{
    let stride = stride::<X>();
    let at = line * stride;
    let (column, row) = ((line / rows + 1) as u8, (line % rows) as u16);
    if !is_frame::<X>(&text[at..at + stride], column, row) {
        return Err(Refusal::BadFrame { line: line + 1 });
    }
    let first = line / rows * rows * stride;
    if text[at] != text[first] {
        return Err(Refusal::MarkDiffers { line: line + 1 });
    }
    Ok(())
}

// The first line that is refused decides.
fn check_lines<X: Symbol>(text: &[u8], rows: usize, lines: usize) -> Result<(), Refusal>
    requires room { lines * stride_of X.Symbol.width ≤ length text.now }
    requires columns { lines ≤ 255 * rows }
    requires rows { (1 ≤ rows) × (rows ≤ 4096) }
    ensures { Told (lines_refusal rows X.Symbol.width text.now lines) result }
{
    // By number: column, row and the column's first line follow from it, and with chunks it would be needed all the same.
    for line in 0..lines {
        check_line::<X>(text, rows, line)?;
    }
    Ok(())
}

// A text passes exactly if it is the text of some array of the shape. It then stands for that array alone.
pub fn check<X: Symbol>(shape: Shape, text: &[u8]) -> Result<(), Refusal>
    ensures answer { Told (text_refusal (columns_of shape) (rows_of shape) X.Symbol.width text.now) result }
    ensures passes { Passes (columns_of shape) (rows_of shape) X.Symbol.width X.Symbol.bytes text.now }
    ensures back { Back X.Symbol.zero (columns_of shape) (rows_of shape) X.Symbol.width X.Symbol.bytes X.Symbol.symbol text.now }
    ensures there { There X.Symbol.zero (columns_of shape) (rows_of shape) X.Symbol.width X.Symbol.bytes X.Symbol.symbol text.now }
{
    let rows = shape.rows();
    let lines = shape.columns() * rows;
    let needed = lines * stride::<X>();
    if text.len() != needed {
        return Err(Refusal::TextLength { needed });
    }
    check_lines::<X>(text, rows, lines)
}
