// A parity column, worked out from the data columns in memory.
ghost use Rattle.std.specs.Prelude.{◌≡◌, ◌+◌, ◌≤◌, true, length};
ghost use Rattle.code.specs.Parities.{parity_of};
ghost use Rattle.code.specs.Places.{symbols_of};
ghost use Rattle.code.specs.Shapes.{rows_of};
ghost use Rattle.array.specs.Checks.{fits};
ghost use Rattle.array.specs.Steps.{Accepts};
ghost use Rattle.columns.specs.Columns.{data_of, WritesParity};
ghost use Rattle.columns.specs.Progress.{Refilled};

use array::{admit, check_fit, write};
use code::{Refusal, Shape};
use store::ColumnStore;
use sums::ParityRule;
use symbol::Symbol;

// The rows of a parity column, from the data columns one after another. That the cells have room is asked, and no struct's
// fact: one of shape and cells would stand beside the rule's shape, and ask that both are the same.
fn write_rows<X: Symbol, S: ColumnStore<X>>(
    store: &mut S,
    rule: &ParityRule,
    cells: &[X],
) -> Result<(), Refusal>
    requires fits { fits rule.now.shape (S.ColumnStore.view store.old) ≡ true }
    requires room { data_of rule.now.shape ≤ length cells.now }
    ensures { Accepts (λ _. Refilled (S.ColumnStore.view store.old) (rule.now.shape.k + rule.now.parity) (rows_of rule.now.shape) (parity_of X.Symbol.zero X.Symbol.plus rule.now.shape (symbols_of X.Symbol.zero (rows_of rule.now.shape) cells.now) rule.now.parity) (S.ColumnStore.view store.new)) result }
{
    for row in 0..rule.rows() {
        // The cells hold the data columns, and the ring each row.
        let symbol = rule.sum(cells, row).unwrap();
        write(store, rule.column(), row, symbol)?;
    }
    Ok(())
}

// The parity column of that number is written, lost or not, and marked present.
pub fn write_parity<X: Symbol, S: ColumnStore<X>>(
    store: &mut S,
    shape: Shape,
    column: usize,
    cells: &[X],
) -> Result<(), Refusal>
    ensures { WritesParity S.ColumnStore.view X.Symbol.zero X.Symbol.plus shape store.old column cells.now result store.new }
{
    check_fit(store, shape)?;
    let rule = column
        .checked_sub(shape.k)
        .and_then(|parity| ParityRule::of(shape, parity))
        .ok_or(Refusal::NoSuchPlace { column, row: 0 })?;
    let needed = shape.k * shape.rows();
    if cells.len() < needed {
        return Err(Refusal::WorkTooSmall { needed });
    }
    write_rows(store, &rule, cells)?;
    admit(store, column)
}
