// A day on the route: sales, boards that die and come back, and what is told of it.
use crate::book::Book;
use anyhow::anyhow;
use array::Array;
use audit::audit;
use recovery::{lose, lost_column, quote, rebuild};
use route::Told;
use store::{ColumnStore, Table};
use symbol::Stand;
use updates::{get, put};

// What the day is spent with.
#[derive(Drop)]
pub(crate) struct Day<'a, 't> {
    rt: &'a HostRuntime,
    array: &'a Array,
    table: Table<'t, Stand>,
    work: Vec<Stand>,
    book: Book,
}

impl<'a, 't> Day<'a, 't> {
    pub(crate) fn new(
        rt: &'a HostRuntime,
        array: &'a Array,
        table: Table<'t, Stand>,
        work: Vec<Stand>,
        book: Book,
    ) -> Day<'a, 't> {
        Day {
            rt,
            array,
            table,
            work,
            book,
        }
    }

    // The first rows of a column.
    pub(crate) fn tell_column(&mut self, column: usize) -> anyhow::Result<()> {
        print!(self.rt; "column {column:2}:")?;
        for row in 0..4 {
            let told = Told(self.table.read(column, row)?);
            print!(self.rt; "  {told}")?;
        }
        println!(self.rt; "")?;
        Ok(())
    }

    // A machine sells: its reading is put, and the parities follow. A sale from a dead board is refused.
    pub(crate) fn tell_sale(
        &mut self,
        column: usize,
        row: usize,
        sold: Stand,
    ) -> anyhow::Result<()> {
        let Stand { stock, cash } = sold;
        match put(self.array, &mut self.table, column, row, sold) {
            Ok(reads) => {
                self.book.put(column, row, sold)?;
                println!(self.rt;
                    "Column {column}, row {row} sells down to {stock} {cash}, with {reads} reads."
                )?;
            }
            Err(refusal) => println!(self.rt; "Column {column}, row {row} sells, but {refusal}.")?,
        }
        Ok(())
    }

    pub(crate) fn tell_audit(&mut self) -> anyhow::Result<()> {
        match audit(self.array, &mut self.table, &mut self.work) {
            Ok(true) => println!(self.rt; "The audit says yes.")?,
            Ok(false) => println!(self.rt; "The audit says no.")?,
            Err(refusal) => println!(self.rt; "The audit is refused, {refusal}.")?,
        }
        Ok(())
    }

    // One place, as the array gives it and as the book has it.
    pub(crate) fn tell_place(&mut self, column: usize, row: usize) -> anyhow::Result<()> {
        let noted = self
            .book
            .reading(column, row)
            .map(Told)
            .ok_or_else(|| anyhow!("the book has no such machine"))?;
        print!(self.rt; "column {column}, row {row}: book {noted}, ")?;
        match get(self.array, &mut self.table, column, row) {
            Ok(stand) => {
                let held = Told(stand);
                println!(self.rt; "array {held}")?;
            }
            Err(refusal) => println!(self.rt; "array {refusal}")?,
        }
        Ok(())
    }

    // The marks of the boards, as the store has them and as the book has them.
    pub(crate) fn tell_marks(&self) -> anyhow::Result<()> {
        print!(self.rt; "Marks, store and book:")?;
        for column in 1..=self.table.columns() {
            let held = if self.table.is_lost(column) { 'L' } else { 'P' };
            let noted = if self.book.is_lost(column) { 'L' } else { 'P' };
            print!(self.rt; " {held}{noted}")?;
        }
        println!(self.rt; "")?;
        Ok(())
    }

    // A board dies.
    pub(crate) fn tell_loss(&mut self, column: usize) -> anyhow::Result<()> {
        lose(self.array, &mut self.table, column)?;
        self.book.lose(column)?;
        println!(self.rt; "Board {column} dies.")?;
        self.tell_marks()
    }

    // The lowest lost column is quoted and rebuilt, and what that cost is told.
    pub(crate) fn tell_rebuild(&mut self) -> anyhow::Result<()> {
        let lost = lost_column(&self.table).ok_or_else(|| anyhow!("nothing is lost"))?;
        let quote = quote(self.array, &self.table, lost)?;
        let count = quote.count();
        let whole = self.array.shape.k * self.array.shape.rows();
        println!(self.rt;
            "Column {lost} is quoted at {count} reads; whole columns would take {whole}."
        )?;
        let before = self.table.meter();
        rebuild(self.array, &mut self.table, quote, &mut self.work)?;
        self.book.bring_back(lost);
        let moved = self.table.meter().wrapping_sub(before);
        println!(self.rt; "Rebuilt; the meter moved by {moved}.")?;
        self.tell_column(lost)
    }
}
