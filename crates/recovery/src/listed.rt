// The reading list of a lost data column into the work area, and its rows out of it.
ghost use Rattle.std.specs.Prelude.{◌≡◌, ℕ, ◌<◌, ◌≤◌, true, false, length};
ghost use Rattle.array.specs.Checks.{fits, work_of};
ghost use Rattle.code.specs.Shapes.{columns_of, rows_of};
ghost use Rattle.repair.specs.Lists.{helper as helper_of, listed as listed_of, area as area_of};
ghost use Rattle.repair.specs.Rows.{rebuilt as rebuilt_of};
ghost use Rattle.store.specs.View.{Column};
ghost use Rattle.array.specs.Steps.{Accepts};
ghost use Rattle.columns.specs.Progress.{Refilled};
ghost use Rattle.recovery.specs.Progress.{Fetched, Filled, Collected};

use array::{read, write};
use code::Refusal;
use repair::Plan;
use store::ColumnStore;
use symbol::Symbol;

// The listed rows of a helper into its part of the work area. `load_column` of `columns` reads every row and counts none.
fn fetch<X: Symbol, S: ColumnStore<X>>(
    store: &mut S,
    plan: &Plan,
    column: usize,
    part: &mut [X],
) -> Result<usize, Refusal>
    requires column { Column (S.ColumnStore.view store.old) column }
    requires rows { length part.old ≤ (S.ColumnStore.view store.old).rows }
    requires present { (S.ColumnStore.view store.old).lost column ≡ false }
    ensures { Accepts (λ n. Fetched X.Symbol.zero (S.ColumnStore.view store.old) (listed_of plan.now.shape plan.now.lost column) column (length part.old) n (S.ColumnStore.view store.new) part.new) result }
{
    let mut count = 0;
    for (row, cell) in part.iter_mut().enumerate() {
        if !plan.listed(column, row) {
            continue;
        }
        *cell = read(store, column, row)?;
        count += 1;
    }
    Ok(count)
}

// The listed rows of any column.
fn fill<X: Symbol, S: ColumnStore<X>>(
    store: &mut S,
    plan: &Plan,
    column: usize,
    work: &mut [X],
) -> Result<usize, Refusal>
    requires column { Column (S.ColumnStore.view store.old) column }
    requires rows { rows_of plan.now.shape ≤ (S.ColumnStore.view store.old).rows }
    requires present { helper_of plan.now.shape plan.now.lost column ≡ true → (S.ColumnStore.view store.old).lost column ≡ false }
    requires room { work_of plan.now.shape ≤ length work.old }
    ensures { Accepts (λ n. Filled X.Symbol.zero plan.now.shape plan.now.lost (S.ColumnStore.view store.old) column work.old n (S.ColumnStore.view store.new) work.new) result }
{
    let Some(start) = plan.start(column) else {
        return Ok(0);
    };
    fetch(store, plan, column, &mut work[start..start + plan.rows()])
}

// The whole reading list. Plan and work area go side by side: a struct of both, lent on, would owe that both stay.
pub(crate) fn collect<X: Symbol, S: ColumnStore<X>>(
    store: &mut S,
    plan: &Plan,
    work: &mut [X],
) -> Result<usize, Refusal>
    requires fits { fits plan.now.shape (S.ColumnStore.view store.old) ≡ true }
    requires present { (c : ℕ) → 1 ≤ c → c ≤ columns_of plan.now.shape → helper_of plan.now.shape plan.now.lost c ≡ true → (S.ColumnStore.view store.old).lost c ≡ false }
    requires room { work_of plan.now.shape ≤ length work.old }
    ensures { Accepts (λ n. Collected X.Symbol.zero plan.now.shape plan.now.lost (S.ColumnStore.view store.old) (columns_of plan.now.shape) n (S.ColumnStore.view store.new) work.new) result }
{
    let mut count = 0;
    for column in 1..=plan.shape().columns() {
        count += fill(store, plan, column, work)?;
    }
    Ok(count)
}

// All rows of the lost column, out of the work area. What it has in common with writing a parity column would take a
// closure and ask that it may be called, and no public function asks anything.
pub(crate) fn restore<X: Symbol, S: ColumnStore<X>>(
    store: &mut S,
    plan: &Plan,
    work: &[X],
) -> Result<(), Refusal>
    requires column { Column (S.ColumnStore.view store.old) plan.now.lost }
    requires rows { rows_of plan.now.shape ≤ (S.ColumnStore.view store.old).rows }
    requires room { work_of plan.now.shape ≤ length work.now }
    ensures { Accepts (λ _. Refilled (S.ColumnStore.view store.old) plan.now.lost (rows_of plan.now.shape) (rebuilt_of X.Symbol.zero X.Symbol.plus plan.now.shape plan.now.lost (area_of X.Symbol.zero plan.now.shape plan.now.lost work.now)) (S.ColumnStore.view store.new)) result }
{
    for row in 0..plan.rows() {
        // The work area has room for all helpers, so there is a row.
        let symbol = plan.row(work, row).unwrap();
        write(store, plan.lost(), row, symbol)?;
    }
    Ok(())
}
