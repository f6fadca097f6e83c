// The data columns into a work area.
ghost use Rattle.std.specs.Prelude.{◌≡◌, ℕ, ◌+◌, ◌*◌, ◌≤◌, false, length};
ghost use Rattle.store.specs.View.{Column};
ghost use Rattle.array.specs.Steps.{Accepts};
ghost use Rattle.columns.specs.Columns.{Loads};
ghost use Rattle.columns.specs.Progress.{Loaded, Gathered};

use array::{check_fit, check_room, lowest_lost, read};
use code::{Refusal, Shape};
use store::ColumnStore;
use symbol::Symbol;

// The rows of a column into a part of the work area.
fn load_column<X: Symbol, S: ColumnStore<X>>(
    store: &mut S,
    column: usize,
    part: &mut [X],
) -> Result<(), Refusal>
    requires column { Column (S.ColumnStore.view store.old) column }
    requires rows { length part.old ≤ (S.ColumnStore.view store.old).rows }
    requires present { (S.ColumnStore.view store.old).lost column ≡ false }
    ensures { Accepts (λ _. Loaded X.Symbol.zero (S.ColumnStore.view store.old) column (S.ColumnStore.view store.new) part.new) result }
{
    for (row, cell) in part.iter_mut().enumerate() {
        *cell = read(store, column, row)?;
    }
    Ok(())
}

// The first columns into the work area, one after another. Parts by ranges: of chunks that an iterator lends, a proof does
// not know the symbols afterwards.
fn gather<X: Symbol, S: ColumnStore<X>>(
    store: &mut S,
    count: usize,
    rows: usize,
    work: &mut [X],
) -> Result<(), Refusal>
    requires columns { count ≤ (S.ColumnStore.view store.old).columns }
    requires rows { rows ≤ (S.ColumnStore.view store.old).rows }
    requires present { (c : ℕ) → 1 ≤ c → c ≤ count → (S.ColumnStore.view store.old).lost c ≡ false }
    requires room { count * rows ≤ length work.old }
    ensures { Accepts (λ _. Gathered X.Symbol.zero rows (S.ColumnStore.view store.old) count work.old (S.ColumnStore.view store.new) work.new) result }
{
    for c in 0..count {
        let start = c * rows;
        load_column(store, c + 1, &mut work[start..start + rows])?;
    }
    Ok(())
}

// All data columns into the work area, one after another. The work area is checked for the whole call that this begins.
pub fn load_data<X: Symbol, S: ColumnStore<X>>(
    store: &mut S,
    shape: Shape,
    work: &mut [X],
) -> Result<(), Refusal>
    ensures { Loads S.ColumnStore.view X.Symbol.zero shape store.old work.old result store.new work.new }
{
    check_fit(store, shape)?;
    if let Some(column) = lowest_lost(store, shape.k) {
        return Err(Refusal::ColumnLost { column });
    }
    check_room(shape, work.len())?;
    gather(store, shape.k, shape.rows(), work)
}
