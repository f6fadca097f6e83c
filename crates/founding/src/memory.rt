// An array in lent memory, founded at once.
ghost use Rattle.std.specs.Prelude.{◌≡◌, length};
ghost use Rattle.store.specs.Tables.{needed_of};
ghost use Rattle.founding.specs.Memory.{Fills};

use crate::founding::found;
use array::Array;
use code::{Refusal, Shape};
use store::{ColumnStore, Table};
use symbol::Symbol;

// The same in memory of just the shape's size.
fn found_over<X: Symbol>(shape: Shape, cells: &mut [X], work: &mut [X]) -> Result<usize, Refusal>
    requires { length cells.old ≡ needed_of shape }
    ensures { Fills X.Symbol.zero X.Symbol.plus shape cells.old work.old result cells.new work.new }
{
    let mut table = Table::over(shape, cells);
    let array = Array::open(shape, &table);
    found(&array, &mut table, work)
}

// Works out the parity columns of the data columns that stand in `cells`, one after another, and writes them behind.
// Symbols behind the last column are left alone.
pub fn found_in<X: Symbol>(shape: Shape, cells: &mut [X], work: &mut [X]) -> Result<usize, Refusal>
    ensures { Fills X.Symbol.zero X.Symbol.plus shape cells.old work.old result cells.new work.new }
{
    Table::check(shape, cells)?;
    let needed = shape.columns() * shape.rows();
    found_over(shape, &mut cells[0..needed], work)
}
