// Checks that several calls make. They change nothing.
ghost use Rattle.std.specs.Prelude.{◌≡◌};
ghost use Rattle.store.specs.View.{counts_as_lost};
ghost use Rattle.array.specs.Checks.{Fitting, Roomy};
ghost use Rattle.array.specs.Lost.{lowest_lost};

use code::{Refusal, Shape};
use store::ColumnStore;
use symbol::Symbol;

// Whether the store has the shape's columns and rows. That it does, and that a column is there and present, are facts that
// private calls ask for, and no struct of shape and store: one that is lent on would owe two facts in the place of each, that
// its shape and its store stay the same.
pub fn check_fit<X: Symbol, S: ColumnStore<X>>(store: &S, shape: Shape) -> Result<(), Refusal>
    ensures { Fitting shape (S.ColumnStore.view store.now) result }
{
    let columns = store.columns();
    let rows = store.rows();
    if columns != shape.columns() || rows != shape.rows() {
        return Err(Refusal::StoreDiffers { columns, rows });
    }
    Ok(())
}

// Whether a work area of so many symbols is large enough.
pub fn check_room(shape: Shape, room: usize) -> Result<(), Refusal>
    ensures { Roomy shape room result }
{
    let needed = shape.helpers() * shape.rows();
    if room < needed {
        return Err(Refusal::WorkTooSmall { needed });
    }
    Ok(())
}

// The lowest lost one of the first columns, if one is. A column outside counts as lost.
pub fn lowest_lost<X: Symbol, S: ColumnStore<X>>(store: &S, count: usize) -> Option<usize>
    ensures { result ≡ lowest_lost (counts_as_lost (S.ColumnStore.view store.now)) count }
{
    // From 0: over `1..=count` the search takes half as long again, or more.
    (0..count).find(|c| store.is_lost(c + 1)).map(|c| c + 1)
}
