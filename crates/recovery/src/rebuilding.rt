// Rebuilding a lost column from a quote.
ghost use Rattle.std.specs.Prelude.{◌≡◌, ℕ, ◌<◌, ◌≤◌, true, false, length, is_ok, None};
ghost use Rattle.array.specs.Book.{rebuilds, Keeps};
ghost use Rattle.array.specs.Checks.{fits, work_of};
ghost use Rattle.code.specs.Shapes.{columns_of};
ghost use Rattle.repair.specs.Lists.{helper as helper_of};
ghost use Rattle.columns.specs.Columns.{found_refusal};
ghost use Rattle.array.specs.Steps.{Accepts};
ghost use Rattle.recovery.specs.Progress.{Spends};
ghost use Rattle.recovery.specs.Rebuild.{Rebuilt, Rebuilds, rebuild_refusal};

use crate::listed::{collect, restore};
use crate::quotes::{Quote, Rejected};
use crate::quoting::check_rebuild;
use array::{Array, admit, clear};
use code::{Refusal, Shape};
use columns::{load_data, write_parity};
use repair::Plan;
use store::ColumnStore;
use symbol::Symbol;

// A data column, by the repair rule.
fn rebuild_data<X: Symbol, S: ColumnStore<X>>(
    store: &mut S,
    plan: &Plan,
    work: &mut [X],
) -> Result<usize, Refusal>
    requires fits { fits plan.now.shape (S.ColumnStore.view store.old) ≡ true }
    requires present { (c : ℕ) → 1 ≤ c → c ≤ columns_of plan.now.shape → helper_of plan.now.shape plan.now.lost c ≡ true → (S.ColumnStore.view store.old).lost c ≡ false }
    requires room { work_of plan.now.shape ≤ length work.old }
    ensures { Accepts (λ n. Rebuilt X.Symbol.zero X.Symbol.plus plan.now.shape plan.now.lost (S.ColumnStore.view store.old) n (S.ColumnStore.view store.new) work.new) result }
{
    let count = collect(store, plan, work)?;
    restore(store, plan, work)?;
    admit(store, plan.lost())?;
    clear(work);
    Ok(count)
}

// A parity column, from all data columns.
fn rebuild_parity<X: Symbol, S: ColumnStore<X>>(
    store: &mut S,
    shape: Shape,
    lost: usize,
    work: &mut [X],
) -> Result<usize, Refusal>
    requires lost { (shape.k < lost) × (lost ≤ columns_of shape) }
    requires loadable { found_refusal shape (S.ColumnStore.view store.old) (length work.old) ≡ None }
    ensures { Accepts (λ n. Rebuilt X.Symbol.zero X.Symbol.plus shape lost (S.ColumnStore.view store.old) n (S.ColumnStore.view store.new) work.new) result }
{
    load_data(store, shape, work)?;
    write_parity(store, shape, lost, work)?;
    clear(work);
    Ok(shape.k * shape.rows())
}

// A rebuild that the checks allow.
pub(crate) fn rebuild_column<X: Symbol, S: ColumnStore<X>>(
    store: &mut S,
    shape: Shape,
    quote: &Quote,
    work: &mut [X],
) -> Result<usize, Refusal>
    requires { rebuild_refusal shape (S.ColumnStore.view store.old) quote.now.column quote.now.count (length work.old) ≡ None }
    ensures { Accepts (λ n. Rebuilt X.Symbol.zero X.Symbol.plus shape quote.now.column (S.ColumnStore.view store.old) n (S.ColumnStore.view store.new) work.new) result }
{
    match Plan::of(shape, quote.column) {
        Some(plan) => rebuild_data(store, &plan, work),
        None => rebuild_parity(store, shape, quote.column, work),
    }
}

// A rebuild with the quote lent.
fn spend<X: Symbol, S: ColumnStore<X>>(
    store: &mut S,
    shape: Shape,
    quote: &Quote,
    work: &mut [X],
) -> Result<usize, Refusal>
    ensures { Spends S.ColumnStore.view X.Symbol.zero X.Symbol.plus shape store.old quote.now work.old result store.new work.new }
{
    check_rebuild(store, shape, quote, work.len())?;
    rebuild_column(store, shape, quote, work)
}

// Spends the quote: reads the reading list, each symbol once, writes every row, marks the column present, and answers
// the count. The whole work area is zero then. A refused rebuild hands the quote back.
pub fn rebuild<X: Symbol, S: ColumnStore<X>>(
    array: &Array,
    store: &mut S,
    quote: Quote,
    work: &mut [X],
) -> Result<usize, Rejected>
    ensures answer { Rebuilds S.ColumnStore.view X.Symbol.zero X.Symbol.plus array.now.shape store.old quote work.old result store.new work.new }
    ensures book { Keeps X.Symbol.zero X.Symbol.plus array.now.shape (rebuilds quote.column) (is_ok result) (S.ColumnStore.view store.old) (S.ColumnStore.view store.new) }
{
    spend(store, array.shape, &quote, work).map_err(|refusal| Rejected { refusal, quote })
}
