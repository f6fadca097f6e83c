// One call on an array.
ghost use Rattle.runs.specs.Steps.{state_of, Stepped};

use crate::calls::{Answer, Call, Outcome};
use crate::quoted::{quote_into, rebuild_from};
use array::Array;
use audit::audit;
use founding::found;
use recovery::{Quote, lose, lost_column};
use store::ColumnStore;
use symbol::Symbol;
use updates::{get, put};

// Makes a call. Quotes are taken into the slots of the hand and spent from there, whichever array they are of.
// What is lent stays four parameters: a struct of them needs a clause for each loan, and one that is made gets no proof.
pub fn step<X: Symbol, S: ColumnStore<X>>(
    array: &Array,
    store: &mut S,
    hand: &mut [Option<Quote>],
    work: &mut [X],
    call: Call<X>,
) -> Outcome<X>
    ensures { Stepped S.ColumnStore.view X.Symbol.zero X.Symbol.plus array.now.shape call (state_of store.old hand.old work.old) result (state_of store.new hand.new work.new) }
{
    // A run is a list of calls, which the law speaks of as values.
    match call {
        Call::Found => Ok(Some(Answer::Reads(found(array, store, work)?))),
        Call::Put {
            column,
            row,
            symbol,
        } => Ok(Some(Answer::Reads(put(array, store, column, row, symbol)?))),
        Call::Get { column, row } => Ok(Some(Answer::Symbol(get(array, store, column, row)?))),
        Call::Lose { column } => {
            lose(array, store, column)?;
            Ok(Some(Answer::Lost))
        }
        Call::Quote { column, slot } => quote_into(array, store, hand, column, slot),
        Call::Rebuild { slot } => rebuild_from(array, store, hand, work, slot),
        Call::Audit => Ok(Some(Answer::Audited(audit(array, store, work)?))),
        Call::Ask => Ok(Some(Answer::Lowest(lost_column(store)))),
    }
}
