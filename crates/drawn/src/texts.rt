// The text of an array whose columns are present.
ghost use Rattle.std.specs.Prelude.{◌≡◌, ◌<◌, ◌∷◌, ◌++◌, false, IfOk, OnOk};
ghost use Rattle.symbol.specs.Hex.{hex};
ghost use Rattle.code.specs.Places.{symbols_of};
ghost use Rattle.code.specs.Shapes.{columns_of, rows_of};
ghost use Rattle.frames.specs.Format.{label, frame, render};

use crate::digits::digits_of;
use code::Shape;
use frames::digits;
use std::alloc::{AllocError, Global};
use symbol::Symbol;

// Appends the mark and the label of a present column's frame. The label stands here again: that of `frames` is private,
// and a public one would be for this crate alone.
fn push_label(text: &mut Vec<u8>, column: u8, row: u16) -> Result<(), AllocError>
    ensures { OnOk result (text.new.items ≡ text.old.items ++ 80 ∷ label column row) }
{
    let [high, low] = row.to_be_bytes();
    let [a, b] = digits(column);
    let [c, d] = digits(high);
    let [e, f] = digits(low);
    text.extend_from_slice(&[b'P', b' ', a, b, b' ', c, d, e, f, b' '])?;
    Ok(())
}

// Appends the digits of a symbol.
fn push_digits<X: Symbol>(text: &mut Vec<u8>, symbol: X) -> Result<(), AllocError>
    ensures { OnOk result (text.new.items ≡ text.old.items ++ hex (X.Symbol.bytes symbol)) }
{
    text.extend_from_slice(digits_of(symbol, &mut [0; 32]))?;
    Ok(())
}

// Appends a present column's frame.
fn push_frame<X: Symbol>(
    text: &mut Vec<u8>,
    column: u8,
    row: u16,
    symbol: X,
) -> Result<(), AllocError>
    ensures { OnOk result (text.new.items ≡ text.old.items ++ frame 80 column row (hex (X.Symbol.bytes symbol))) }
{
    push_label(text, column, row)?;
    push_digits(text, symbol)?;
    text.push(b'\n')?;
    Ok(())
}

// The text of an array whose columns stand in the cells, one after another; symbols that are missing there are zero.
pub fn text_of<X: Symbol>(heap: Global, shape: Shape, cells: &[X]) -> Result<Vec<u8>, AllocError>
    ensures { IfOk result (λ text. text.items ≡ render (columns_of shape) (rows_of shape) X.Symbol.bytes (λ _. false) (symbols_of X.Symbol.zero (rows_of shape) cells.now)) }
{
    let rows = shape.rows();
    let mut text = Vec::new(heap);
    for column in 0..shape.columns() {
        for row in 0..rows {
            let symbol = cells.get(column * rows + row).copied().unwrap_or(X::zero());
            push_frame(&mut text, (column + 1) as u8, row as u16, symbol)?;
        }
    }
    Ok(text)
}
