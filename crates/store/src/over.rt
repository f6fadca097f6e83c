// The table store: its check, its making, and its calls.
ghost use Rattle.std.specs.Prelude.{◌≡◌, ◌-◌, ◌<◌, ◌≤◌, MatchResult, length};
ghost use Rattle.store.specs.Tables.{table_view, Checked, Over, PlaceIs};

use crate::column::ColumnStore;
use crate::table::Table;
use code::{Refusal, Shape};
use symbol::Symbol;

impl<'a, X: Symbol> Table<'a, X> {
    // Whether the memory has room for the shape.
    pub fn check(shape: Shape, cells: &[X]) -> Result<(), Refusal>
        ensures { Checked shape (length cells.now) result }
    {
        let needed = shape.columns() * shape.rows();
        if cells.len() < needed {
            return Err(Refusal::TableTooSmall { needed });
        }
        Ok(())
    }

    // A table over the memory, all its columns present. Over what the check refuses it has no columns and no rows.
    pub fn over(shape: Shape, cells: &'a mut [X]) -> Table<'a, X>
        ensures memory { result.cells.now ≡ cells.old }
        ensures view { Over X.Symbol.zero shape cells.old cells.entry.ghost_name (table_view X.Symbol.zero result) }
    {
        let (columns, rows) = match Self::check(shape, cells) {
            Ok(()) => (shape.columns(), shape.rows()),
            Err(_) => (0, 0),
        };
        Table {
            columns,
            rows,
            cells,
            lost: [false; 19],
            meter: 0,
        }
    }

    // Where a column's mark stands.
    fn mark(&self, column: usize) -> Result<usize, Refusal>
        ensures { MatchResult result
            (λ mark. (1 ≤ column) × (column ≤ self.now.columns) × (mark ≡ column - 1))
            (λ e. ((1 ≤ column) × (column ≤ self.now.columns) → ⊥) × (e ≡ Refusal.NoSuchPlace column 0)) }
    {
        if column < 1 || column > self.columns {
            return Err(Refusal::NoSuchPlace { column, row: 0 });
        }
        Ok(column - 1)
    }

    // Where a symbol stands, apart from all others.
    fn place(&self, column: usize, row: usize) -> Result<usize, Refusal>
        ensures { MatchResult result (PlaceIs self.now.columns self.now.rows (length self.now.cells.now) column row)
            (λ e. ((1 ≤ column) × (column ≤ self.now.columns) × (row < self.now.rows) → ⊥) × (e ≡ Refusal.NoSuchPlace column row)) }
    {
        match self.mark(column) {
            Ok(mark) if row < self.rows => Ok(mark * self.rows + row),
            _ => Err(Refusal::NoSuchPlace { column, row }),
        }
    }
}

impl<'a, X: Symbol> ColumnStore<X> for Table<'a, X> {
    ghost view = { table_view X.Symbol.zero };

    ghost counted = { λ t. t.counted };

    fn columns(&self) -> usize {
        self.columns
    }

    fn rows(&self) -> usize {
        self.rows
    }

    fn meter(&self) -> u64 {
        self.meter
    }

    fn is_lost(&self, column: usize) -> bool {
        match self.mark(column) {
            Ok(mark) => self.lost[mark],
            Err(_) => true,
        }
    }

    fn read(&mut self, column: usize, row: usize) -> Result<X, Refusal> {
        let place = self.place(column, row)?;
        if self.is_lost(column) {
            return Err(Refusal::ColumnLost { column });
        }
        self.meter = self.meter.wrapping_add(1);
        Ok(self.cells[place])
    }

    fn write(&mut self, column: usize, row: usize, symbol: X) -> Result<(), Refusal> {
        let place = self.place(column, row)?;
        self.cells[place] = symbol;
        Ok(())
    }

    fn drop_column(&mut self, column: usize) -> Result<(), Refusal> {
        let mark = self.mark(column)?;
        self.lost[mark] = true;
        Ok(())
    }

    fn admit(&mut self, column: usize) -> Result<(), Refusal> {
        let mark = self.mark(column)?;
        self.lost[mark] = false;
        Ok(())
    }
}
