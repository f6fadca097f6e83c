// The same column rebuilt in two arrays of one shape, over stores of any two makes.
ghost use Rattle.std.specs.Prelude.{is_ok};
ghost use Rattle.array.specs.Book.{rebuilds, Keeps};
ghost use Rattle.recovery.specs.Progress.{SpendsBoth};
ghost use Rattle.recovery.specs.Rebuild.{RebuildsBoth};

use crate::quotes::{BothRejected, Quote};
use crate::quoting::check_rebuild;
use crate::rebuilding::rebuild_column;
use array::Array;
use code::{Refusal, Shape};
use store::ColumnStore;
use symbol::Symbol;

// Both rebuilds, with the quotes lent. All checks come before the first read.
fn spend_both<X: Symbol, S: ColumnStore<X>, T: ColumnStore<X>>(
    shape: Shape,
    store: &mut S,
    other: &mut T,
    first: &Quote,
    second: &Quote,
    work: &mut [X],
) -> Result<(usize, usize), Refusal>
    ensures { SpendsBoth S.ColumnStore.view T.ColumnStore.view X.Symbol.zero X.Symbol.plus shape store.old other.old first.now second.now work.old result store.new other.new work.new }
{
    check_rebuild(store, shape, first, work.len())?;
    check_rebuild(other, shape, second, work.len())?;
    let one = rebuild_column(store, shape, first, work)?;
    let two = rebuild_column(other, shape, second, work)?;
    Ok((one, two))
}

// Spends a quote of each array, and answers both counts.
pub fn rebuild_both<X: Symbol, S: ColumnStore<X>, T: ColumnStore<X>>(
    array: &Array,
    store: &mut S,
    other: &mut T,
    first: Quote,
    second: Quote,
    work: &mut [X],
) -> Result<(usize, usize), BothRejected>
    ensures answer { RebuildsBoth S.ColumnStore.view T.ColumnStore.view X.Symbol.zero X.Symbol.plus array.now.shape store.old other.old first second work.old result store.new other.new work.new }
    ensures book { Keeps X.Symbol.zero X.Symbol.plus array.now.shape (rebuilds first.column) (is_ok result) (S.ColumnStore.view store.old) (S.ColumnStore.view store.new) }
    ensures other_book { Keeps X.Symbol.zero X.Symbol.plus array.now.shape (rebuilds second.column) (is_ok result) (T.ColumnStore.view other.old) (T.ColumnStore.view other.new) }
{
    spend_both(array.shape, store, other, &first, &second, work).map_err(|refusal| BothRejected {
        refusal,
        first,
        second,
    })
}
