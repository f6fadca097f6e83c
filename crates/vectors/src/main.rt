// Founds an array of bytes and one of stands for each line `k q p seed` of the input, and prints what the parity columns
// hold: a checksum of each, and its first symbol. Then it loses and rebuilds each column, and prints the reads and the
// column's checksum, and a checksum of the text in which the same array was founded. For each line `text width what a b`
// it checks a damaged text. tools/reference.py works out the same lines on its own.
#![tactic(auto)]

mod damage;
mod line;

use crate::damage::Damage;
use crate::line::{Kind, numbers};
use anyhow::anyhow;
use array::Array;
use code::{Refusal, Shape};
use drawn::{Digits, Random, checksum, column_checksum, text_checksum, text_of};
use frames::{Frames, check};
use recovery::{found, found_in, lose, lost_column, quote, rebuild};
use store::{ColumnStore, Table};
use symbol::{Byte, Stand, Symbol};

// A column's checksum, and its first symbol.
fn tell_column<X: Symbol>(rt: &HostRuntime, column: &[X]) -> anyhow::Result<()> {
    let Some(first) = column.first() else {
        return Err(anyhow!("a column without rows"));
    };
    let sum = checksum(column);
    let digits = Digits(*first);
    println!(rt; "  {sum:08X} {digits}")?;
    Ok(())
}

// Writes another symbol over each place of a column, as a dead board might.
fn spoil<X: Symbol, S: ColumnStore<X>>(
    store: &mut S,
    column: usize,
    symbol: X,
) -> Result<(), Refusal> {
    for row in 0..store.rows() {
        store.write(column, row, symbol)?;
    }
    Ok(())
}

// Loses each column in turn, rebuilds it, and prints what that read and what the column holds then.
fn rebuild_all<X: Symbol, S: ColumnStore<X>>(
    rt: &HostRuntime,
    array: &Array,
    store: &mut S,
    work: &mut [X],
    other: X,
) -> anyhow::Result<()> {
    for column in 1..=array.shape.columns() {
        lose(array, store, column)?;
        spoil(store, column, other)?;
        let quote = quote(array, store, column)?;
        let before = store.meter();
        rebuild(array, store, quote, work)?;
        let moved = store.meter().wrapping_sub(before);
        let sum = column_checksum(store, column)?;
        println!(rt; "  {column} {moved} {sum:08X}")?;
    }
    Ok(())
}

// Founds an array in a table, prints its parity columns, and rebuilds each column.
fn in_table<X: Symbol>(
    rt: &HostRuntime,
    shape: Shape,
    cells: &mut [X],
    work: &mut [X],
    other: X,
) -> anyhow::Result<()> {
    let reads = found_in(shape, cells, work)?;
    println!(rt; " {reads} reads")?;
    // `chunks` asks for a length of at least 1.
    for column in cells.chunks(shape.rows().max(1)).skip(shape.k) {
        tell_column(rt, column)?;
    }
    let mut table = Table::over(shape, cells);
    let array = Array::open(shape, &table);
    rebuild_all(rt, &array, &mut table, work, other)
}

// Founds an array in a text.
fn in_text<X: Symbol>(shape: Shape, text: &mut [u8], work: &mut [X]) -> Result<usize, Refusal> {
    check::<X>(shape, text)?;
    let mut store: Frames<X> = Frames::over(shape, text);
    let array = Array::open(shape, &store);
    found(&array, &mut store, work)
}

// An array of one kind of symbol, in a table and in a text.
fn tell_array<X: Symbol>(rt: &HostRuntime, shape: Shape, seed: u32) -> anyhow::Result<()> {
    let mut random = Random(seed);
    let mut cells = random.array::<X>(rt.alloc(), shape)?;
    let mut work = vec![in rt.alloc(); X::zero(); shape.helpers() * shape.rows()]?;
    let mut text = text_of(rt.alloc(), shape, &cells)?;
    in_table(rt, shape, &mut cells, &mut work, random.symbol())?;
    in_text(shape, &mut text, &mut work)?;
    let sum = text_checksum(&text);
    println!(rt; "  text {sum:08X}")?;
    Ok(())
}

// What the check says of a damaged text, and what is lost in it.
fn tell_check<X: Symbol>(rt: &HostRuntime, damage: Damage) -> anyhow::Result<()> {
    let shape = Shape::new(4, 2, 3)?;
    let cells = Random(77).array::<X>(rt.alloc(), shape)?;
    let mut text = text_of(rt.alloc(), shape, &cells)?;
    // A line has 11 bytes beside the digits of its symbol.
    let stride = 11 + 2 * X::width();
    damage.apply(rt.alloc(), &mut text, stride, shape.rows())?;
    if let Err(refusal) = check::<X>(shape, &text) {
        println!(rt; " refused, {refusal}")?;
        return Ok(());
    }
    let store: Frames<X> = Frames::over(shape, &mut text);
    match lost_column(&store) {
        Some(column) => println!(rt; " passes, column {column} is lost")?,
        None => println!(rt; " passes, nothing is lost")?,
    }
    Ok(())
}

// An array of each kind, if there is such a shape.
fn tell_arrays(rt: &HostRuntime, [k, q, p, seed]: [u32; 4]) -> anyhow::Result<()> {
    println!(rt; "{k} {q} {p}")?;
    match Shape::new(k as usize, q as usize, p as usize) {
        Ok(shape) => {
            tell_array::<Byte>(rt, shape, seed)?;
            tell_array::<Stand>(rt, shape, seed)
        }
        Err(refusal) => {
            println!(rt; " refused, {refusal}")?;
            Ok(())
        }
    }
}

// A damaged text of one kind.
fn tell_text(rt: &HostRuntime, [width, what, a, b]: [u32; 4]) -> anyhow::Result<()> {
    println!(rt; "{width} {what} {a} {b}")?;
    let damage = Damage::from([what, a, b]);
    match Kind::from(width) {
        Kind::Byte => tell_check::<Byte>(rt, damage),
        Kind::Stand => tell_check::<Stand>(rt, damage),
    }
}

fn tell(rt: &HostRuntime, line: &str) -> anyhow::Result<()> {
    match line.strip_prefix("text ") {
        Some(rest) => tell_text(rt, numbers(rest)?),
        None => tell_arrays(rt, numbers(line)?),
    }
}

// `trace` has this loop too: a call of a shared one would be no shorter.
fn tell_all(rt: &HostRuntime) -> anyhow::Result<()> {
    for line in rt.lines(rt.alloc()) {
        tell(rt, line?.as_str())?;
    }
    Ok(())
}

fn main(rt: HostRuntime) -> anyhow::Result<()> {
    tell_all(&rt)
}
