// Putting a data symbol.
ghost use Rattle.std.specs.Prelude.{◌≡◌, true, false, is_ok};
ghost use Rattle.array.specs.Book.{puts, Keeps};
ghost use Rattle.array.specs.Checks.{fits};
ghost use Rattle.array.specs.Steps.{Accepts};
ghost use Rattle.updates.specs.Updates.{Puts, Put};

use crate::places::{Place, check_place};
use array::{Array, read, write};
use code::Refusal;
use store::ColumnStore;
use symbol::Symbol;

impl Place {
    // An accepted put.
    fn replace<X: Symbol, S: ColumnStore<X>>(
        self,
        store: &mut S,
        symbol: X,
    ) -> Result<usize, Refusal>
        requires fits { fits self.shape (S.ColumnStore.view store.old) ≡ true }
        requires present { (S.ColumnStore.view store.old).lost self.column ≡ false }
        ensures { Accepts (λ n. Put X.Symbol.plus self.shape (S.ColumnStore.view store.old) self.column self.row symbol n (S.ColumnStore.view store.new)) result }
    {
        let old = read(store, self.column, self.row)?;
        write(store, self.column, self.row, symbol)?;
        let rewritten = self.change_parities(store, old.add(symbol))?;
        Ok(1 + rewritten)
    }
}

// Writes a symbol at a data place and adds old plus new to each present parity where it takes the place in. Answers its
// reads: one, and one for each parity symbol that is rewritten.
pub fn put<X: Symbol, S: ColumnStore<X>>(
    array: &Array,
    store: &mut S,
    column: usize,
    row: usize,
    symbol: X,
) -> Result<usize, Refusal>
    ensures answer { Puts S.ColumnStore.view X.Symbol.plus array.now.shape store.old column row symbol result store.new }
    ensures book { Keeps X.Symbol.zero X.Symbol.plus array.now.shape (puts column row symbol) (is_ok result) (S.ColumnStore.view store.old) (S.ColumnStore.view store.new) }
{
    let place = check_place(store, array.shape, column, row)?;
    place.replace(store, symbol)
}
