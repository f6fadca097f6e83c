// Founding: the parity columns are worked out from the data columns and written.
ghost use Rattle.std.specs.Prelude.{◌≡◌, ◌≤◌, true, length, is_ok};
ghost use Rattle.code.specs.Parities.{parity_of};
ghost use Rattle.code.specs.Places.{symbols_of};
ghost use Rattle.code.specs.Shapes.{parities_of, rows_of};
ghost use Rattle.array.specs.Book.{founds, Keeps};
ghost use Rattle.array.specs.Checks.{fits};
ghost use Rattle.array.specs.Steps.{Accepts};
ghost use Rattle.columns.specs.Columns.{data_of};
ghost use Rattle.founding.specs.Found.{Extended, Founds};

use array::{Array, clear};
use code::{Refusal, Shape};
use columns::{load_data, write_parity};
use store::ColumnStore;
use symbol::Symbol;

// All parity columns, from the data columns one after another.
fn write_parities<X: Symbol, S: ColumnStore<X>>(
    store: &mut S,
    shape: Shape,
    cells: &[X],
) -> Result<(), Refusal>
    requires fits { fits shape (S.ColumnStore.view store.old) ≡ true }
    requires room { data_of shape ≤ length cells.now }
    ensures { Accepts (λ _. Extended (S.ColumnStore.view store.old) shape.k (parities_of shape) (rows_of shape) (parity_of X.Symbol.zero X.Symbol.plus shape (symbols_of X.Symbol.zero (rows_of shape) cells.now)) (S.ColumnStore.view store.new)) result }
{
    for column in shape.k + 1..=shape.columns() {
        write_parity(store, shape, column, cells)?;
    }
    Ok(())
}

// Reads each data symbol once, writes every parity column, lost ones too, marks them present, and answers its reads.
// The whole work area is zero then.
pub fn found<X: Symbol, S: ColumnStore<X>>(
    array: &Array,
    store: &mut S,
    work: &mut [X],
) -> Result<usize, Refusal>
    ensures answer { Founds S.ColumnStore.view X.Symbol.zero X.Symbol.plus array.now.shape store.old work.old result store.new work.new }
    ensures book { Keeps X.Symbol.zero X.Symbol.plus array.now.shape (founds (S.ColumnStore.view store.old).at) (is_ok result) (S.ColumnStore.view store.old) (S.ColumnStore.view store.new) }
{
    let shape = array.shape;
    load_data(store, shape, work)?;
    write_parities(store, shape, work)?;
    clear(work);
    Ok(shape.k * shape.rows())
}
