// How the parities follow a change of a data symbol.
ghost use Rattle.std.specs.Prelude.{◌≡◌, ℕ, ◌+◌, ◌%◌, ◌<◌, ◌≤◌, true, false, ◌&&◌, if◌then◌else◌, ◌==◌, nat_lt};
ghost use Rattle.ring.specs.Sums.{sum_to};
ghost use Rattle.code.specs.Parities.{direct, through_class};
ghost use Rattle.code.specs.Shapes.{parities_of, classes_of, rows_of, positions_of};
ghost use Rattle.store.specs.View.{Column};
ghost use Rattle.array.specs.Checks.{fits};
ghost use Rattle.array.specs.Steps.{Accepts};
ghost use Rattle.updates.specs.Views.{Added};
ghost use Rattle.updates.specs.Updates.{carries, carried};

use crate::places::Place;
use array::{read, write};
use code::Refusal;
use store::ColumnStore;
use symbol::Symbol;

// Adds a change at one position of a column, if it is stored, and answers how many symbols that reads.
fn change_at<X: Symbol, S: ColumnStore<X>>(
    store: &mut S,
    column: usize,
    rows: usize,
    position: usize,
    change: X,
) -> Result<usize, Refusal>
    requires column { Column (S.ColumnStore.view store.old) column }
    requires rows { rows ≡ (S.ColumnStore.view store.old).rows }
    requires present { (S.ColumnStore.view store.old).lost column ≡ false }
    ensures { Accepts (λ n. Added X.Symbol.plus change (λ d y. (d == column) && y == position) (if nat_lt position (S.ColumnStore.view store.old).rows then 1 else 0) (S.ColumnStore.view store.old) n (S.ColumnStore.view store.new)) result }
{
    if position >= rows {
        return Ok(0);
    }
    let symbol = read(store, column, position)?;
    write(store, column, position, symbol.add(change))?;
    Ok(1)
}

impl Place {
    // The position of the extra symbol of the row's class.
    fn extra(self) -> usize
        ensures is { result ≡ rows_of self.shape + self.row % classes_of self.shape }
        ensures low { result < positions_of self.shape }
    {
        self.shape.rows() + self.row % self.shape.classes()
    }

    // The positions of a parity at which the row and that extra symbol are summed. A parity goes by its number here: a rule
    // would work out all shifts for the one that is asked.
    fn positions(self, parity: usize) -> (usize, usize)
        requires { (1 ≤ parity) × (parity ≤ parities_of self.shape) }
        ensures row { result.0 ≡ direct self.shape parity self.column self.row }
        ensures extra { result.1 ≡ through_class self.shape parity self.column self.row }
    {
        let shift = self.shape.shift(parity, self.column).unwrap();
        let positions = self.shape.positions();
        (
            (self.row + shift) % positions,
            (self.extra() + shift) % positions,
        )
    }

    // Adds a change of the place's symbol to a parity column; a lost one is not touched.
    fn change_parity<X: Symbol, S: ColumnStore<X>>(
        self,
        store: &mut S,
        rows: usize,
        parity: usize,
        change: X,
    ) -> Result<usize, Refusal>
        requires fits { fits self.shape (S.ColumnStore.view store.old) ≡ true }
        requires rows { rows ≡ rows_of self.shape }
        requires parity { (1 ≤ parity) × (parity ≤ parities_of self.shape) }
        ensures { Accepts (λ n. Added X.Symbol.plus change (λ d y. (d == self.shape.k + parity) && carries self.shape (S.ColumnStore.view store.old) self.column self.row d y) (carried self.shape (S.ColumnStore.view store.old) self.column self.row (self.shape.k + parity)) (S.ColumnStore.view store.old) n (S.ColumnStore.view store.new)) result }
    {
        let target = self.shape.k + parity;
        if store.is_lost(target) {
            return Ok(0);
        }
        let (direct, through_class) = self.positions(parity);
        let first = change_at(store, target, rows, direct, change)?;
        let second = change_at(store, target, rows, through_class, change)?;
        Ok(first + second)
    }

    // Adds a change of the place's symbol to every present parity column.
    pub(crate) fn change_parities<X: Symbol, S: ColumnStore<X>>(
        self,
        store: &mut S,
        change: X,
    ) -> Result<usize, Refusal>
        requires { fits self.shape (S.ColumnStore.view store.old) ≡ true }
        ensures { Accepts (λ n. Added X.Symbol.plus change (carries self.shape (S.ColumnStore.view store.old) self.column self.row) (sum_to 0 ◌+◌ (parities_of self.shape) (λ j. carried self.shape (S.ColumnStore.view store.old) self.column self.row (self.shape.k + (j + 1)))) (S.ColumnStore.view store.old) n (S.ColumnStore.view store.new)) result }
    {
        // Worked out once, and asked of the shape and not of the store.
        let rows = self.shape.rows();
        let mut count = 0;
        for parity in 1..=self.shape.parities() {
            count += self.change_parity(store, rows, parity, change)?;
        }
        Ok(count)
    }
}
