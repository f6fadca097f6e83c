// Plays a run of calls for each line of the input, and prints each answer and what the store is afterwards. A line is
// `KIND STORE k q p seed;CALL;CALL;..`: the data symbols of a new array are drawn from the seed. Calls are `F` (found),
// `P column row digits` (put), `G column row` (get), `L column` (lose), `Q column slot` (quote), `B slot` (rebuild), `A`
// (audit) and `?` (the question). `X k q p column slot` puts a quote of another array into the hand before the calls.
// tools/trace.py works out the same lines on its own.
#![tactic(auto)]

mod input;
mod output;

use crate::input::{Head, Kind, Place, calls};
use crate::output::{Told, tell_store};
use array::Array;
use code::Shape;
use drawn::{Random, text_of};
use frames::Frames;
use recovery::Quote;
use runs::{Call, run};
use store::{ColumnStore, Table};
use symbol::{Byte, Stand, Symbol};

// Makes the calls on an array over a store.
fn play_over<X: Symbol, S: ColumnStore<X>>(
    rt: &HostRuntime,
    shape: Shape,
    store: &mut S,
    hand: &mut [Option<Quote>],
    calls: &[Call<X>],
) -> anyhow::Result<()> {
    let array = Array::open(shape, store);
    let mut work = vec![in rt.alloc(); X::zero(); shape.helpers() * shape.rows()]?;
    let mut answers = vec![in rt.alloc(); Ok(None); calls.len()]?;
    run(&array, store, hand, &mut work, calls, &mut answers);
    for answer in &answers {
        let told = Told(*answer);
        println!(rt; " {told}")?;
    }
    tell_store(rt, store)
}

// The same on an array of one kind of symbol.
fn play<X: Symbol>(rt: &HostRuntime, head: Head, rest: &str) -> anyhow::Result<()> {
    let shape = head.shape;
    let mut hand = [None, None, None, None];
    let calls = calls::<X>(rt.alloc(), rest, &mut hand)?;
    let mut cells = Random(head.seed).array::<X>(rt.alloc(), shape)?;
    match head.place {
        Place::Table => {
            let mut store = Table::over(shape, &mut cells);
            play_over(rt, shape, &mut store, &mut hand, &calls)
        }
        Place::Text => {
            let mut text = text_of(rt.alloc(), shape, &cells)?;
            let mut store: Frames<X> = Frames::over(shape, &mut text);
            play_over(rt, shape, &mut store, &mut hand, &calls)
        }
    }
}

// One line of the input.
fn play_line(rt: &HostRuntime, text: &str) -> anyhow::Result<()> {
    let (head, rest) = text.split_once(';').unwrap_or((text, ""));
    let read: Head = head.parse()?;
    println!(rt; "{head}")?;
    match read.kind {
        Kind::Byte => play::<Byte>(rt, read, rest),
        Kind::Stand => play::<Stand>(rt, read, rest),
    }
}

// `vectors` has this loop too: a call of a shared one would be no shorter.
fn play_all(rt: &HostRuntime) -> anyhow::Result<()> {
    for text in rt.lines(rt.alloc()) {
        play_line(rt, text?.as_str())?;
    }
    Ok(())
}

fn main(rt: HostRuntime) -> anyhow::Result<()> {
    play_all(&rt)
}
