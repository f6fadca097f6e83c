// Getting a data symbol.
ghost use Rattle.std.specs.Prelude.{is_ok};
ghost use Rattle.array.specs.Book.{looks, Keeps};
ghost use Rattle.updates.specs.Updates.{Gets, TellsTable};

use crate::places::check_place;
use array::{Array, read};
use code::Refusal;
use store::ColumnStore;
use symbol::Symbol;

// The symbol at a data place, with one read.
pub fn get<X: Symbol, S: ColumnStore<X>>(
    array: &Array,
    store: &mut S,
    column: usize,
    row: usize,
) -> Result<X, Refusal>
    ensures answer { Gets S.ColumnStore.view array.now.shape store.old column row result store.new }
    ensures book { Keeps X.Symbol.zero X.Symbol.plus array.now.shape looks (is_ok result) (S.ColumnStore.view store.old) (S.ColumnStore.view store.new) }
    ensures table { TellsTable X.Symbol.zero X.Symbol.plus array.now.shape (S.ColumnStore.view store.old) column row result }
{
    check_place(store, array.shape, column, row)?;
    read(store, column, row)
}
