// What the machines of the route tell.
ghost use Rattle.std.specs.Prelude.{◌≡◌, ◌*◌, ◌++◌, replicate, IfOk};
ghost use Rattle.symbol.specs.Stands.{stand};
ghost use Rattle.code.specs.Shapes.{parities_of, rows_of};
ghost use Rattle.route.specs.Readings.{reading_of, readings_of};

use code::Shape;
use std::alloc::{AllocError, Global};
use symbol::{Stand, Symbol};

// What the stand of a column and a row holds.
pub fn reading(column: usize, row: usize) -> Stand
    ensures { result ≡ reading_of column row }
{
    let seed = (column % 16) * 37 + (row % 4096) * 11;
    Stand {
        stock: (seed % 60) as u16,
        cash: (seed * 25) as u32,
    }
}

// An array that is not founded yet, its columns one after another: the data columns hold readings, the parity columns
// are zero.
pub fn cells(heap: Global, shape: Shape) -> Result<Vec<Stand>, AllocError>
    ensures { IfOk result (λ cells. cells.items ≡ readings_of (rows_of shape) (shape.k * rows_of shape) ++ replicate (parities_of shape * rows_of shape) (stand 0 0)) }
{
    let rows = shape.rows();
    let mut cells = Vec::new(heap);
    for column in 0..shape.k {
        for row in 0..rows {
            cells.push(reading(column + 1, row))?;
        }
    }
    cells.resize(shape.columns() * rows, Stand::zero())?;
    Ok(cells)
}
