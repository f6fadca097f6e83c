// The audit of a whole array.
ghost use Rattle.std.specs.Prelude.{is_ok};
ghost use Rattle.array.specs.Book.{looks, Keeps};
ghost use Rattle.audit.specs.Audit.{Audits};

use crate::comparing::compare_parities;
use array::{Array, check_fit, clear, lowest_lost};
use code::Refusal;
use columns::load_data;
use store::ColumnStore;
use symbol::Symbol;

// Reads each symbol of all columns once, whatever it finds, and answers whether every parity row is its sum. The whole
// work area is zero then.
pub fn audit<X: Symbol, S: ColumnStore<X>>(
    array: &Array,
    store: &mut S,
    work: &mut [X],
) -> Result<bool, Refusal>
    ensures answer { Audits S.ColumnStore.view X.Symbol.zero X.Symbol.plus array.now.shape store.old work.old result store.new work.new }
    ensures book { Keeps X.Symbol.zero X.Symbol.plus array.now.shape looks (is_ok result) (S.ColumnStore.view store.old) (S.ColumnStore.view store.new) }
{
    let shape = array.shape;
    check_fit(store, shape)?;
    if let Some(column) = lowest_lost(store, shape.columns()) {
        return Err(Refusal::ColumnLost { column });
    }
    // This checks the work area too.
    load_data(store, shape, work)?;
    let holds = compare_parities(store, shape, work)?;
    clear(work);
    Ok(holds)
}
