// A list of calls on an array.
ghost use Rattle.runs.specs.Law.{Runs};
ghost use Rattle.runs.specs.Steps.{state_of};

use crate::calls::{Call, Outcome};
use crate::stepping::step;
use array::Array;
use recovery::Quote;
use store::ColumnStore;
use symbol::Symbol;

// Makes the calls one after another, as many as there is room for answers, and says how many.
pub fn run<X: Symbol, S: ColumnStore<X>>(
    array: &Array,
    store: &mut S,
    hand: &mut [Option<Quote>],
    work: &mut [X],
    calls: &[Call<X>],
    answers: &mut [Outcome<X>],
) -> usize
    ensures { Runs S.ColumnStore.view X.Symbol.zero X.Symbol.plus array.now.shape calls.now answers.old result answers.new (state_of store.old hand.old work.old) (state_of store.new hand.new work.new) }
{
    let count = calls.len().min(answers.len());
    // Nothing is known of what a `zip` of `iter_mut` wrote.
    for (i, call) in calls[..count].iter().enumerate() {
        answers[i] = step(array, store, hand, work, *call);
    }
    count
}
