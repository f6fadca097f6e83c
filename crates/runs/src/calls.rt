// Calls on an array as values, and what accepted ones answer.
use code::Refusal;

#[derive(Clone, Copy, PartialEq, Debug)]
pub enum Call<X> {
    Found,
    Put {
        column: usize,
        row: usize,
        symbol: X,
    },
    Get {
        column: usize,
        row: usize,
    },
    Lose {
        column: usize,
    },
    // The quote goes into a slot of the hand; one that lies there is let go.
    Quote {
        column: usize,
        slot: usize,
    },
    // From the quote in a slot of the hand. If the rebuild is refused it stays there.
    Rebuild {
        slot: usize,
    },
    Audit,
    // The question for the lowest lost column.
    Ask,
}

#[derive(Clone, Copy, PartialEq, Debug)]
pub enum Answer<X> {
    // how many symbols a found, a put or a rebuild read
    Reads(usize),
    // what a get answers
    Symbol(X),
    // the column is lost
    Lost,
    // a quote lies in its slot
    Quoted { column: usize, count: usize },
    // what an audit answers
    Audited(bool),
    // the lowest lost column, if there is one
    Lowest(Option<usize>),
}

// What comes of a call; no answer if none was made, for the hand has no such slot, or no quote in it.
pub type Outcome<X> = Result<Option<Answer<X>>, Refusal>;
