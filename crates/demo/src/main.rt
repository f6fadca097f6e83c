// A vending route of stands over a table in memory: its readings, its parity columns, and boards that die and come back.
#![tactic(auto)]

use anyhow::anyhow;
use array::Array;
use code::Shape;
use recovery::{found, lose, lost_column, quote, rebuild};
use route::{InWords, Told, cells};
use store::{ColumnStore, Table};
use symbol::{Stand, Symbol};

// The first rows of a column. A function for this and for the day of `sales` would have to say what reads that are
// refused half way leave.
fn tell_column<S: ColumnStore<Stand>>(
    rt: &HostRuntime,
    store: &mut S,
    column: usize,
) -> anyhow::Result<()> {
    print!(rt; "column {column:2}:")?;
    for row in 0..4 {
        let told = Told(store.read(column, row)?);
        print!(rt; "  {told}")?;
    }
    println!(rt; "")?;
    Ok(())
}

// A board dies: its column is quoted and rebuilt, and what that cost is told.
fn tell_rebuild<S: ColumnStore<Stand>>(
    rt: &HostRuntime,
    array: &Array,
    store: &mut S,
    work: &mut [Stand],
    column: usize,
) -> anyhow::Result<()> {
    lose(array, store, column)?;
    let lost = lost_column(store).ok_or_else(|| anyhow!("nothing is lost"))?;
    let quote = quote(array, store, lost)?;
    let count = quote.count();
    let whole = array.shape.k * array.shape.rows();
    println!(rt;
        "Board {lost} dies. Its column is quoted at {count} reads; whole columns would take {whole}."
    )?;
    let before = store.meter();
    rebuild(array, store, quote, work)?;
    let moved = store.meter().wrapping_sub(before);
    println!(rt; "Rebuilt; the meter moved by {moved}.")?;
    tell_column(rt, store, lost)
}

fn run(rt: &HostRuntime) -> anyhow::Result<()> {
    let shape = Shape::new(4, 2, 5)?;
    let words = InWords(shape);
    println!(rt; "{words}")?;
    let mut cells = cells(rt.alloc(), shape)?;
    let mut work = vec![in rt.alloc(); Stand::zero(); shape.helpers() * shape.rows()]?;
    let mut table = Table::over(shape, &mut cells);
    let array = Array::open(shape, &table);
    let reads = found(&array, &mut table, &mut work)?;
    let meter = table.meter();
    println!(rt; "Founded with {reads} reads; the meter stands at {meter}.")?;
    println!(rt; "Stock and cash of rows 0 to 3:")?;
    for column in 1..=shape.columns() {
        tell_column(rt, &mut table, column)?;
    }
    tell_rebuild(rt, &array, &mut table, &mut work, 2)?;
    tell_rebuild(rt, &array, &mut table, &mut work, 7)
}

fn main(rt: HostRuntime) -> anyhow::Result<()> {
    run(&rt)
}
