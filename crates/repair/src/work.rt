// The work area: a part of as many symbols as a column has rows, for each helper.
ghost use Rattle.std.specs.Prelude.{◌≡◌, ◌*◌, ◌<◌, ◌≤◌, true, length};
ghost use Rattle.code.specs.Shapes.{helpers_of, rows_of, positions_of};
ghost use Rattle.code.specs.Parities.{symbol_of};
ghost use Rattle.repair.specs.Lists.{helper as is_helper, slot as slot_of, area};
ghost use Rattle.repair.specs.Plans.{start_of};

use crate::plan::Plan;
use sums::symbol_from;
use symbol::Symbol;

impl Plan {
    // The number of a helper's part.
    fn slot(&self, column: usize) -> usize
        requires { is_helper self.now.shape self.now.lost column ≡ true }
        ensures { result ≡ slot_of self.now.shape self.now.lost column }
    {
        if column < self.lost {
            column - 1
        } else if column <= self.shape.k {
            column - 2
        } else if column == self.shape.k + 1 {
            self.shape.k - 1
        } else if self.first_half {
            column - 2
        } else {
            column - self.shape.q - 1
        }
    }

    // Where a helper's part begins; none if the column is no helper.
    pub fn start(&self, column: usize) -> Option<usize>
        ensures { result ≡ start_of self.now.shape self.now.lost column }
    {
        if !self.helper(column) {
            return None;
        }
        Some(self.slot(column) * self.rows)
    }

    // The symbol at a position of a helper's part.
    pub(crate) fn symbol<X: Symbol>(&self, work: &[X], column: usize, position: usize) -> X
        requires room { helpers_of self.now.shape * rows_of self.now.shape ≤ length work.now }
        requires helper { is_helper self.now.shape self.now.lost column ≡ true }
        requires position { position < positions_of self.now.shape }
        ensures { result ≡ symbol_of X.Symbol.zero X.Symbol.plus self.now.shape (area X.Symbol.zero self.now.shape self.now.lost work.now column) position }
    {
        // The work area has a part for each helper, so there is a symbol.
        let start = self.slot(column) * self.rows;
        symbol_from(work, start, self.shape.p - 1, self.classes, position).unwrap()
    }
}
