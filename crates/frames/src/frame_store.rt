// The frame store: its making, and its calls.
ghost use Rattle.std.specs.Prelude.{◌≡◌, ◌+◌, ◌-◌, ◌*◌, ◌≤◌, true, length, None};
ghost use Rattle.symbol.specs.Hex.{hex};
ghost use Rattle.std.specs.Option.{unwrap_or};
ghost use Rattle.symbol.specs.Kinds.{from_digits};
ghost use Rattle.code.specs.Shapes.{columns_of, rows_of};
ghost use Rattle.store.specs.Calls.{Reads, Writes, Drops, Admits};
ghost use Rattle.frames.specs.Lines.{stride as stride_of, part, Placed};
ghost use Rattle.frames.specs.Checks.{text_refusal, is_mark};
ghost use Rattle.frames.specs.Stores.{frames_view, Over, WellFormed, Stays, Remarks, Marks, Puts};

use crate::checks::check;
use crate::edits::{mark_lines, put_digits};
use crate::frames::Frames;
use crate::lines::stride;
use code::{Refusal, Shape};
use std::marker::PhantomData;
use store::ColumnStore;
use symbol::Symbol;

impl<'a, X: Symbol> Frames<'a, X> {
    // Frames over the text. Over what the check refuses they have no columns and no rows.
    pub fn over(shape: Shape, text: &'a mut [u8]) -> Frames<'a, X>
        ensures memory { result.text.now ≡ text.old }
        ensures view { Over X.Symbol.zero X.Symbol.width X.Symbol.symbol shape text.old text.entry.ghost_name (frames_view X.Symbol.zero X.Symbol.width X.Symbol.symbol result) }
        ensures formed { text_refusal (columns_of shape) (rows_of shape) X.Symbol.width text.old ≡ None → WellFormed X.Symbol.width result }
    {
        let (columns, rows) = match check::<X>(shape, text) {
            Ok(()) => (shape.columns(), shape.rows()),
            Err(_) => (0, 0),
        };
        Frames {
            columns,
            rows,
            text,
            meter: 0,
            kind: PhantomData,
        }
    }

    // Where the line of a place begins.
    fn line(&self, column: usize, row: usize) -> Result<usize, Refusal>
        ensures { Placed (stride_of X.Symbol.width) self.now.columns self.now.rows (length self.now.text.now) column row result }
    {
        if !(1..=self.columns).contains(&column) || row >= self.rows {
            return Err(Refusal::NoSuchPlace { column, row });
        }
        Ok(((column - 1) * self.rows + row) * stride::<X>())
    }

    // The symbol of the line that begins there. A part in place of the number would be found by it all the same.
    fn symbol(&self, at: usize) -> X
        requires { at + stride_of X.Symbol.width ≤ length self.now.text.now }
        ensures { result ≡ unwrap_or (from_digits X.Symbol.width X.Symbol.symbol (part self.now.text.now (at + 10) (2 * X.Symbol.width))) X.Symbol.zero }
    {
        let end = at + 10 + 2 * X::width();
        X::read_digits(&self.text[at + 10..end]).unwrap_or(X::zero())
    }

    // Marks a column: all of its lines. The mark is the byte as the text holds it.
    fn mark(&mut self, column: usize, mark: u8) -> Result<(), Refusal>
        ensures answer { Remarks (frames_view X.Symbol.zero X.Symbol.width X.Symbol.symbol) self.old column mark result self.new }
        ensures bytes { Marks X.Symbol.width self.old column mark result self.new }
        ensures stays { is_mark mark ≡ true → Stays X.Symbol.width self.old self.new }
    {
        self.line(column, 0)?;
        let rows = self.rows;
        mark_lines::<X>(self.text, (column - 1) * rows, rows, mark);
        Ok(())
    }
}

impl<'a, X: Symbol> ColumnStore<X> for Frames<'a, X> {
    ghost view = { frames_view X.Symbol.zero X.Symbol.width X.Symbol.symbol };

    ghost counted = { λ t. t.counted };

    fn columns(&self) -> usize {
        self.columns
    }

    fn rows(&self) -> usize {
        self.rows
    }

    fn meter(&self) -> u64 {
        self.meter
    }

    fn is_lost(&self, column: usize) -> bool {
        // Straight to the mark: by way of `line` and its refusal, asking for a mark takes twice as long.
        if column < 1 || column > self.columns {
            return true;
        }
        self.text[(column - 1) * self.rows * stride::<X>()] != b'P'
    }

    fn read(&mut self, column: usize, row: usize) -> Result<X, Refusal>
        ensures answer { Reads (frames_view X.Symbol.zero X.Symbol.width X.Symbol.symbol) self.old column row result self.new }
        ensures bytes { self.new.text.now ≡ self.old.text.now }
        ensures stays { Stays X.Symbol.width self.old self.new }
    {
        let at = self.line(column, row)?;
        if self.is_lost(column) {
            return Err(Refusal::ColumnLost { column });
        }
        let symbol = self.symbol(at);
        self.meter = self.meter.wrapping_add(1);
        Ok(symbol)
    }

    fn write(&mut self, column: usize, row: usize, symbol: X) -> Result<(), Refusal>
        ensures answer { Writes (frames_view X.Symbol.zero X.Symbol.width X.Symbol.symbol) self.old column row symbol result self.new }
        ensures bytes { Puts X.Symbol.width self.old column row (hex (X.Symbol.bytes symbol)) result self.new }
        ensures stays { Stays X.Symbol.width self.old self.new }
    {
        let at = self.line(column, row)?;
        put_digits(self.text, at + 10, symbol);
        Ok(())
    }

    fn drop_column(&mut self, column: usize) -> Result<(), Refusal>
        ensures answer { Drops (frames_view X.Symbol.zero X.Symbol.width X.Symbol.symbol) self.old column result self.new }
        ensures bytes { Marks X.Symbol.width self.old column 76 result self.new }
        ensures stays { Stays X.Symbol.width self.old self.new }
    {
        self.mark(column, b'L')
    }

    fn admit(&mut self, column: usize) -> Result<(), Refusal>
        ensures answer { Admits (frames_view X.Symbol.zero X.Symbol.width X.Symbol.symbol) self.old column result self.new }
        ensures bytes { Marks X.Symbol.width self.old column 80 result self.new }
        ensures stays { Stays X.Symbol.width self.old self.new }
    {
        self.mark(column, b'P')
    }
}
