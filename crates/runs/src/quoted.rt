// The calls that take a quote into the hand, or spend one of it.
ghost use Rattle.std.specs.Prelude.{◌≡◌, length, nat_lt};
ghost use Rattle.array.specs.Book.{Keeps};
ghost use Rattle.runs.specs.Hands.{quote_at};
ghost use Rattle.runs.specs.Steps.{QuotesInto, RebuildsFrom, rebuild_event, accepted, state_of};

use crate::calls::{Answer, Outcome};
use crate::hand::{put_quote, take_quote};
use array::Array;
use recovery::{Quote, quote, rebuild};
use store::ColumnStore;
use symbol::Symbol;

// A quote goes into a slot of the hand.
pub(crate) fn quote_into<X: Symbol, S: ColumnStore<X>>(
    array: &Array,
    store: &S,
    hand: &mut [Option<Quote>],
    column: usize,
    slot: usize,
) -> Outcome<X>
    ensures { QuotesInto (nat_lt slot (length hand.old)) array.now.shape (S.ColumnStore.view store.now) column slot hand.old result hand.new }
{
    if slot >= hand.len() {
        return Ok(None);
    }
    let quote = quote(array, store, column)?;
    let (column, count) = (quote.column(), quote.count());
    put_quote(hand, slot, quote);
    Ok(Some(Answer::Quoted { column, count }))
}

// The quote in a slot is spent; if the rebuild is refused it stays there.
pub(crate) fn rebuild_from<X: Symbol, S: ColumnStore<X>>(
    array: &Array,
    store: &mut S,
    hand: &mut [Option<Quote>],
    work: &mut [X],
    slot: usize,
) -> Outcome<X>
    ensures made { RebuildsFrom S.ColumnStore.view X.Symbol.zero X.Symbol.plus array.now.shape (quote_at hand.old slot) slot (state_of store.old hand.old work.old) result (state_of store.new hand.new work.new) }
    ensures book { Keeps X.Symbol.zero X.Symbol.plus array.now.shape (rebuild_event (quote_at hand.old slot)) (accepted result) (S.ColumnStore.view store.old) (S.ColumnStore.view store.new) }
{
    let Some(quote) = take_quote(hand, slot) else {
        return Ok(None);
    };
    match rebuild(array, store, quote, work) {
        Ok(count) => Ok(Some(Answer::Reads(count))),
        Err(rejected) => {
            put_quote(hand, slot, rejected.quote);
            Err(rejected.refusal)
        }
    }
}
