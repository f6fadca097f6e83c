// Data places, and the checks that a put and a get share.
ghost use Rattle.std.specs.Prelude.{◌≡◌, ◌<◌, ◌≤◌, IfOk};
ghost use Rattle.code.specs.Shapes.{rows_of};
ghost use Rattle.updates.specs.Updates.{Placed};

use array::check_fit;
use code::{Refusal, Shape};
use store::ColumnStore;
use symbol::Symbol;

// A row of a data column.
#[derive(Clone, Copy)]
pub(crate) struct Place {
    pub(crate) shape: Shape,
    pub(crate) column: usize,
    pub(crate) row: usize,
    ghost data_column: { (1 ≤ column) × (column ≤ shape.k) },
    ghost stored: { row < rows_of shape },
}

// The data place at a column and a row of a store, if its column is present.
pub(crate) fn check_place<X: Symbol, S: ColumnStore<X>>(
    store: &S,
    shape: Shape,
    column: usize,
    row: usize,
) -> Result<Place, Refusal>
    ensures passed { Placed shape (S.ColumnStore.view store.now) column row result }
    ensures place { IfOk result (λ p. (p.shape ≡ shape) × (p.column ≡ column) × (p.row ≡ row)) }
{
    check_fit(store, shape)?;
    if column < 1 || column > shape.k || row >= shape.rows() {
        return Err(Refusal::NoSuchPlace { column, row });
    }
    if store.is_lost(column) {
        return Err(Refusal::ColumnLost { column });
    }
    Ok(Place { shape, column, row })
}
