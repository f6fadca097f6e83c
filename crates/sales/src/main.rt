// A vending route of stands over a table in memory: its readings, its parity columns, sales, and boards that die and come
// back. A plain book is kept beside the array, and both are printed.
#![tactic(auto)]

mod book;
mod day;

use crate::book::Book;
use crate::day::Day;
use array::Array;
use code::Shape;
use founding::found;
use route::{InWords, cells};
use store::{ColumnStore, Table};
use symbol::{Stand, Symbol};

const SOLD: Stand = Stand {
    stock: 3,
    cash: 4400,
};

// Sales, a dead board, and its return.
fn tell_day(day: &mut Day) -> anyhow::Result<()> {
    day.tell_sale(3, 5, SOLD)?;
    day.tell_sale(3, 13, SOLD)?;
    day.tell_audit()?;
    day.tell_loss(3)?;
    day.tell_sale(3, 0, SOLD)?;
    day.tell_sale(2, 0, SOLD)?;
    day.tell_audit()?;
    for (column, row) in [(3, 5), (2, 0), (1, 1)] {
        day.tell_place(column, row)?;
    }
    day.tell_rebuild()?;
    day.tell_marks()?;
    for (column, row) in [(3, 5), (3, 13), (3, 0), (2, 0)] {
        day.tell_place(column, row)?;
    }
    day.tell_audit()?;
    day.tell_loss(7)?;
    day.tell_rebuild()
}

fn run(rt: &HostRuntime) -> anyhow::Result<()> {
    let shape = Shape::new(4, 2, 5)?;
    let words = InWords(shape);
    println!(rt; "{words}")?;
    let mut cells = cells(rt.alloc(), shape)?;
    let mut work = vec![in rt.alloc(); Stand::zero(); shape.helpers() * shape.rows()]?;
    let mut table = Table::over(shape, &mut cells);
    let array = Array::open(shape, &table);
    let reads = found(&array, &mut table, &mut work)?;
    let meter = table.meter();
    println!(rt; "Founded with {reads} reads; the meter stands at {meter}.")?;
    println!(rt; "Stock and cash of rows 0 to 3:")?;
    let book = Book::new(rt.alloc(), shape)?;
    let mut day = Day::new(rt, &array, table, work, book);
    for column in 1..=shape.columns() {
        day.tell_column(column)?;
    }
    tell_day(&mut day)
}

fn main(rt: HostRuntime) -> anyhow::Result<()> {
    run(&rt)
}
