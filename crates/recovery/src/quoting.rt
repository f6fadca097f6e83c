// Quoting a rebuild: nothing is read.
ghost use Rattle.std.specs.Prelude.{◌≡◌, ◌≤◌, ◌&&◌, is_ok};
ghost use Rattle.repair.specs.Lists.{helper as helper_of};
ghost use Rattle.store.specs.View.{counts_as_lost};
ghost use Rattle.array.specs.Book.{looks, Keeps};
ghost use Rattle.array.specs.Lost.{lowest_lost as lowest_of};
ghost use Rattle.code.specs.Shapes.{columns_of};
ghost use Rattle.recovery.specs.Rebuild.{lost_helper, count_of, Priced, Quotes, Allowed};

use crate::losing::check_column;
use crate::quotes::Quote;
use array::{Array, check_room, lowest_lost};
use code::{Refusal, Shape};
use repair::Plan;
use store::ColumnStore;
use symbol::Symbol;

// The lowest lost one of a plan's helpers, if one is lost.
fn lowest_helper<X: Symbol, S: ColumnStore<X>>(store: &S, plan: &Plan) -> Option<usize>
    ensures { result ≡ lowest_of (λ c. helper_of plan.now.shape plan.now.lost c && counts_as_lost (S.ColumnStore.view store.now) c) (columns_of plan.now.shape) }
{
    (0..plan.shape().columns())
        .find(|c| plan.helper(c + 1) && store.is_lost(c + 1))
        .map(|c| c + 1)
}

// The lowest lost helper of a column, if one is lost.
fn lowest_lost_helper<X: Symbol, S: ColumnStore<X>>(
    store: &S,
    shape: Shape,
    lost: usize,
) -> Option<usize>
    requires { 1 ≤ lost }
    ensures { result ≡ lost_helper shape lost (S.ColumnStore.view store.now) }
{
    match Plan::of(shape, lost) {
        Some(plan) => lowest_helper(store, &plan),
        None => lowest_lost(store, shape.k),
    }
}

// How many symbols a rebuild reads.
fn count(shape: Shape, lost: usize) -> usize
    requires { 1 ≤ lost }
    ensures { result ≡ count_of shape lost }
{
    Plan::of(shape, lost).map_or(shape.k * shape.rows(), |plan| plan.count())
}

// The count of a lost column whose helpers are present.
fn price<X: Symbol, S: ColumnStore<X>>(
    store: &S,
    shape: Shape,
    column: usize,
) -> Result<usize, Refusal>
    ensures { Priced shape (S.ColumnStore.view store.now) column result }
{
    check_column(store, shape, column)?;
    if !store.is_lost(column) {
        return Err(Refusal::ColumnPresent { column });
    }
    if let Some(helper) = lowest_lost_helper(store, shape, column) {
        return Err(Refusal::ColumnLost { column: helper });
    }
    Ok(count(shape, column))
}

// What a rebuild of a lost column will cost.
pub fn quote<X: Symbol, S: ColumnStore<X>>(
    array: &Array,
    store: &S,
    column: usize,
) -> Result<Quote, Refusal>
    ensures answer { Quotes array.now.shape (S.ColumnStore.view store.now) column result }
    ensures book { Keeps X.Symbol.zero X.Symbol.plus array.now.shape looks (is_ok result) (S.ColumnStore.view store.now) (S.ColumnStore.view store.now) }
{
    let count = price(store, array.shape, column)?;
    Ok(Quote { column, count })
}

// Whether a quote allows a rebuild.
pub(crate) fn check_rebuild<X: Symbol, S: ColumnStore<X>>(
    store: &S,
    shape: Shape,
    quote: &Quote,
    room: usize,
) -> Result<(), Refusal>
    ensures { Allowed shape (S.ColumnStore.view store.now) quote.now.column quote.now.count room result }
{
    let count = price(store, shape, quote.column)?;
    if quote.count != count {
        return Err(Refusal::CountDiffers { count });
    }
    check_room(shape, room)
}
