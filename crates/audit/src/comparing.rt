// Parity columns of a store against the sums of the data columns in memory. All rows are read, whatever is found.
ghost use Rattle.std.specs.Prelude.{◌≡◌, ℕ, ◌+◌, ◌≤◌, true, false, length};
ghost use Rattle.code.specs.Parities.{parity_of};
ghost use Rattle.code.specs.Places.{symbols_of};
ghost use Rattle.code.specs.Shapes.{parities_of, columns_of, rows_of};
ghost use Rattle.array.specs.Checks.{fits};
ghost use Rattle.array.specs.Steps.{Accepts};
ghost use Rattle.columns.specs.Columns.{data_of};
ghost use Rattle.audit.specs.Progress.{Compared, Matched};

use array::read;
use code::{Refusal, Shape};
use store::ColumnStore;
use sums::ParityRule;
use symbol::Symbol;

// Whether the rows of a parity column are its sums.
fn compare_rows<X: Symbol, S: ColumnStore<X>>(
    store: &mut S,
    rule: &ParityRule,
    cells: &[X],
) -> Result<bool, Refusal>
    requires fits { fits rule.now.shape (S.ColumnStore.view store.old) ≡ true }
    requires present { (S.ColumnStore.view store.old).lost (rule.now.shape.k + rule.now.parity) ≡ false }
    requires room { data_of rule.now.shape ≤ length cells.now }
    ensures { Accepts (λ answer. Compared (S.ColumnStore.view store.old) (rule.now.shape.k + rule.now.parity) (rows_of rule.now.shape) (parity_of X.Symbol.zero X.Symbol.plus rule.now.shape (symbols_of X.Symbol.zero (rows_of rule.now.shape) cells.now) rule.now.parity) answer (S.ColumnStore.view store.new)) result }
{
    let mut holds = true;
    for row in 0..rule.rows() {
        let symbol = read(store, rule.column(), row)?;
        // The cells hold the data columns, and the ring each row.
        let sum = rule.sum(cells, row).unwrap();
        holds &= symbol.same(sum);
    }
    Ok(holds)
}

// Whether all parity columns are the sums of the data columns, which stand in the cells one after another.
pub(crate) fn compare_parities<X: Symbol, S: ColumnStore<X>>(
    store: &mut S,
    shape: Shape,
    cells: &[X],
) -> Result<bool, Refusal>
    requires fits { fits shape (S.ColumnStore.view store.old) ≡ true }
    requires present { (c : ℕ) → 1 ≤ c → c ≤ columns_of shape → (S.ColumnStore.view store.old).lost c ≡ false }
    requires room { data_of shape ≤ length cells.now }
    ensures { Accepts (λ answer. Matched (S.ColumnStore.view store.old) shape.k (rows_of shape) (parities_of shape) (parity_of X.Symbol.zero X.Symbol.plus shape (symbols_of X.Symbol.zero (rows_of shape) cells.now)) answer (S.ColumnStore.view store.new)) result }
{
    let mut holds = true;
    for parity in 1..=shape.parities() {
        // Each of these numbers is a parity's.
        let rule = ParityRule::of(shape, parity).unwrap();
        holds &= compare_rows(store, &rule, cells)?;
    }
    Ok(holds)
}
