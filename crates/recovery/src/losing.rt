// Losing a column, and which one is lost.
ghost use Rattle.std.specs.Prelude.{◌≡◌, is_ok};
ghost use Rattle.store.specs.View.{counts_as_lost};
ghost use Rattle.array.specs.Book.{loses, Keeps};
ghost use Rattle.array.specs.Lost.{lowest_lost as lowest_of};
ghost use Rattle.recovery.specs.Rebuild.{Losable, Loses, TellsLost};

use array::{Array, check_fit, drop_column, lowest_lost};
use code::{Refusal, Shape};
use store::ColumnStore;
use symbol::Symbol;

// Whether the store fits, and the shape has such a column.
pub(crate) fn check_column<X: Symbol, S: ColumnStore<X>>(
    store: &S,
    shape: Shape,
    column: usize,
) -> Result<(), Refusal>
    ensures { Losable shape (S.ColumnStore.view store.now) column result }
{
    check_fit(store, shape)?;
    if !(1..=shape.columns()).contains(&column) {
        return Err(Refusal::NoSuchPlace { column, row: 0 });
    }
    Ok(())
}

// The column is lost; a lost one may be lost again.
pub fn lose<X: Symbol, S: ColumnStore<X>>(
    array: &Array,
    store: &mut S,
    column: usize,
) -> Result<(), Refusal>
    ensures answer { Loses S.ColumnStore.view array.now.shape store.old column result store.new }
    ensures book { Keeps X.Symbol.zero X.Symbol.plus array.now.shape (loses column) (is_ok result) (S.ColumnStore.view store.old) (S.ColumnStore.view store.new) }
{
    check_column(store, array.shape, column)?;
    drop_column(store, column)
}

// The lowest lost column of the store, if one is lost.
pub fn lost_column<X: Symbol, S: ColumnStore<X>>(store: &S) -> Option<usize>
    ensures answer { result ≡ lowest_of (counts_as_lost (S.ColumnStore.view store.now)) (S.ColumnStore.view store.now).columns }
    ensures book { TellsLost X.Symbol.zero X.Symbol.plus (S.ColumnStore.view store.now) result }
{
    lowest_lost(store, store.columns())
}
