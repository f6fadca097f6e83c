// The symbol at a position of a column.
ghost use Rattle.std.specs.Prelude.{◌≡◌, ℕ, ◌+◌, ◌*◌, ◌<◌, ◌≤◌, length};
ghost use Rattle.ring.specs.Cyclic.{class_total, symbol_at};
ghost use Rattle.code.specs.Places.{rows_from};
ghost use Rattle.sums.specs.Sums.{symbol_in_column, symbol_in_cells};

use code::Shape;
use symbol::Symbol;

// The sum of the rows of a class of a column: one row of each block.
fn class_sum<X: Symbol>(column: &[X], classes: usize, class: usize) -> X
    requires { class < classes }
    ensures { (b : ℕ) → length column.now ≡ b * classes → result ≡ class_total X.Symbol.zero X.Symbol.plus b classes (rows_from X.Symbol.zero column.now 0) class }
{
    let mut sum = X::zero();
    for block in column.chunks_exact(classes) {
        sum = sum.add(block[class]);
    }
    sum
}

// The symbol at a position of a column: a row, or past the rows an extra symbol.
pub(crate) fn at<X: Symbol>(column: &[X], classes: usize, position: usize) -> X
    requires { position < length column.now + classes }
    ensures { (b : ℕ) → length column.now ≡ b * classes → result ≡ symbol_at X.Symbol.zero X.Symbol.plus b classes (rows_from X.Symbol.zero column.now 0) position }
{
    let rows = column.len();
    if position < rows {
        column[position]
    } else {
        class_sum(column, classes, position - rows)
    }
}

// The symbol at a position of a column of the shape; none if the column has not the shape's rows, or the ring not the
// position.
pub fn symbol_at<X: Symbol>(shape: Shape, column: &[X], position: usize) -> Option<X>
    ensures { result ≡ symbol_in_column X.Symbol.zero X.Symbol.plus shape column.now position }
{
    if column.len() != shape.rows() || position >= shape.positions() {
        return None;
    }
    Some(at(column, shape.classes(), position))
}

// The symbol at a position of the column of `blocks` times `classes` rows that begins at `start`; none if the cells do not
// hold its rows, or the ring has no such position. The start stands beside the cells, since every start has an answer.
pub fn symbol_from<X: Symbol>(
    cells: &[X],
    start: usize,
    blocks: usize,
    classes: usize,
    position: usize,
) -> Option<X>
    ensures { result ≡ symbol_in_cells X.Symbol.zero X.Symbol.plus cells.now start blocks classes position }
{
    let rows = blocks.checked_mul(classes)?;
    let end = start.checked_add(rows)?;
    if end > cells.len() || position.saturating_sub(rows) >= classes {
        return None;
    }
    Some(at(&cells[start..end], classes, position))
}
