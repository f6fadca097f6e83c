// A line of the input: which array, and the calls on it.
use anyhow::{Error, anyhow};
use array::Array;
use code::Shape;
use recovery::{Quote, lose, quote};
use runs::Call;
use std::alloc::Global;
use std::num::ParseIntError;
use std::str::{FromStr, SplitWhitespace};
use store::{ColumnStore, Table};
use symbol::{Byte, Symbol};

#[derive(Clone, Copy)]
pub(crate) enum Kind {
    Byte,
    Stand,
}

// Where the array lies.
#[derive(Clone, Copy)]
pub(crate) enum Place {
    Table,
    Text,
}

#[derive(Clone, Copy)]
pub(crate) struct Head {
    pub(crate) kind: Kind,
    pub(crate) place: Place,
    pub(crate) shape: Shape,
    pub(crate) seed: u32,
}

// The first of some words as numbers; one that is missing is 0. `vectors` reads its lines so too, in as few words.
fn numbers<T: FromStr<Err = ParseIntError> + Copy + Default, const N: usize>(
    words: SplitWhitespace,
) -> Result<[T; N], ParseIntError> {
    let mut numbers = [T::default(); N];
    for (number, word) in numbers.iter_mut().zip(words) {
        *number = word.parse::<T>()?;
    }
    Ok(numbers)
}

// `stand` and `text` are named; any other word is for bytes, or for a table. A number that is missing is 0.
impl FromStr for Head {
    type Err = Error;

    fn from_str(text: &str) -> Result<Head, Error> {
        let mut words = text.split_whitespace();
        let kind = match words.next() {
            Some("stand") => Kind::Stand,
            _ => Kind::Byte,
        };
        let place = match words.next() {
            Some("text") => Place::Text,
            _ => Place::Table,
        };
        // All four are read, as numbers of 32 bits, before the shape is tried.
        let [k, q, p, seed] = numbers::<u32, 4>(words)?;
        Ok(Head {
            kind,
            place,
            shape: Shape::new(k as usize, q as usize, p as usize)?,
            seed,
        })
    }
}

// A quote of another array, of zeros.
fn foreign(heap: Global, shape: Shape, column: usize) -> anyhow::Result<Quote> {
    let mut cells = vec![in heap; Byte::zero(); shape.columns() * shape.rows()]?;
    let mut table = Table::over(shape, &mut cells);
    let array = Array::open(shape, &table);
    lose(&array, &mut table, column)?;
    Ok(quote(&array, &table, column)?)
}

// A put: column, row and digits.
fn put_call<X: Symbol>(text: &str) -> anyhow::Result<Call<X>> {
    let mut words = text.split_whitespace();
    let (Some(column), Some(row), Some(digits)) = (words.next(), words.next(), words.next()) else {
        return Err(anyhow!("a put has a column, a row and digits"));
    };
    let symbol = X::read_digits(digits.as_bytes()).ok_or_else(|| anyhow!(
        "these are no digits of a symbol"
    ))?;
    Ok(Call::Put {
        column: column.parse::<usize>()?,
        row: row.parse::<usize>()?,
        symbol,
    })
}

// A call, by its letter and numbers. Calls are values that the law of runs speaks of, so a letter becomes one of them.
fn call<X: Symbol>(letter: &str, text: &str) -> anyhow::Result<Call<X>> {
    if letter == "P" {
        return put_call(text);
    }
    let [a, b, _, _, _] = numbers::<usize, 5>(text.split_whitespace())?;
    match letter {
        "F" => Ok(Call::Found),
        "G" => Ok(Call::Get { column: a, row: b }),
        "L" => Ok(Call::Lose { column: a }),
        "Q" => Ok(Call::Quote { column: a, slot: b }),
        "B" => Ok(Call::Rebuild { slot: a }),
        "A" => Ok(Call::Audit),
        "?" => Ok(Call::Ask),
        _ => Err(anyhow!("there is no such call")),
    }
}

// The calls of a line. Quotes of other arrays go into the hand.
pub(crate) fn calls<X: Symbol>(
    heap: Global,
    text: &str,
    hand: &mut [Option<Quote>],
) -> anyhow::Result<Vec<Call<X>>> {
    let mut calls = Vec::new(heap);
    for part in text.split(';') {
        let (letter, rest) = part.split_once(' ').unwrap_or((part, ""));
        match letter {
            "" => {}
            "X" => {
                let [k, q, p, column, slot] = numbers::<usize, 5>(rest.split_whitespace())?;
                let given = foreign(heap, Shape::new(k, q, p)?, column)?;
                if let Some(place) = hand.get_mut(slot) {
                    *place = Some(given);
                }
            }
            letter => calls.push(call(letter, rest)?)?,
        }
    }
    Ok(calls)
}
