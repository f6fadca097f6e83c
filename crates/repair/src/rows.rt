// A row of the lost column, from the helpers' parts of the work area.
ghost use Rattle.std.specs.Prelude.{◌≡◌, ◌+◌, ◌*◌, ◌<◌, ◌≤◌, length, if◌then◌else◌, nat_eq};
ghost use Rattle.ring.specs.Cyclic.{shifted as shifted_from};
ghost use Rattle.code.specs.Shapes.{helpers_of, rows_of, positions_of};
ghost use Rattle.code.specs.Parities.{symbol_of};
ghost use Rattle.repair.specs.Rows.{block as block_of, chosen, position as position_of};
ghost use Rattle.repair.specs.Steps.{step as step_of, gap as gap_of};
ghost use Rattle.repair.specs.Lists.{area};
ghost use Rattle.repair.specs.Plans.{row_from};

use crate::plan::Plan;
use symbol::Symbol;

impl Plan {
    // The block of its round that a row is in.
    fn block(&self, row: usize) -> usize
        ensures is { result ≡ block_of self.now.shape self.now.lost row }
        ensures low { result < self.now.shape.q }
    {
        row % self.round / self.span
    }

    // The parity that serves a row.
    fn parity(&self, row: usize) -> usize
        ensures { result ≡ chosen self.now.shape self.now.lost row }
    {
        let block = self.block(row);
        if block == 0 {
            1
        } else if self.first_half {
            self.shape.q - block + 1
        } else {
            self.shape.q + block
        }
    }

    // The steps of that parity.
    fn gap(&self, row: usize) -> usize
        ensures is { result ≡ gap_of self.now.shape self.now.lost row }
        ensures low { result < self.now.shape.q }
    {
        let block = self.block(row);
        if block == 0 { 0 } else { self.shape.q - block }
    }

    // The position of that parity whose sum takes in the row.
    fn position(&self, row: usize) -> usize
        requires { row < rows_of self.now.shape }
        ensures is { result ≡ position_of self.now.shape self.now.lost row }
        ensures low { result < positions_of self.now.shape }
    {
        let gap = self.gap(row);
        (row + gap * self.span) % self.positions
    }

    // What data column i + 1 adds to a sum of so many steps; the lost column adds nothing.
    fn term<X: Symbol>(&self, work: &[X], i: usize, gap: usize, position: usize) -> X
        requires room { helpers_of self.now.shape * rows_of self.now.shape ≤ length work.now }
        requires column { i < self.now.shape.k }
        requires gap { gap < self.now.shape.q }
        requires position { position < positions_of self.now.shape }
        ensures { result ≡ (if nat_eq (i + 1) self.now.lost then X.Symbol.zero else symbol_of X.Symbol.zero X.Symbol.plus self.now.shape (area X.Symbol.zero self.now.shape self.now.lost work.now (i + 1)) (shifted_from (positions_of self.now.shape) (gap * step_of self.now.shape self.now.lost (i + 1)) position)) }
    {
        if i + 1 == self.lost {
            return X::zero();
        }
        // The shift of `sums`, which is private there: a public one would answer an Option.
        let from = (position + (self.positions - gap * self.steps[i])) % self.positions;
        self.symbol(work, i + 1, from)
    }

    // None if the work area has too few symbols, or the column has no such row.
    pub fn row<X: Symbol>(&self, work: &[X], row: usize) -> Option<X>
        ensures { result ≡ row_from X.Symbol.zero X.Symbol.plus self.now.shape self.now.lost work.now row }
    {
        if work.len() < self.shape.helpers() * self.rows || row >= self.rows {
            return None;
        }
        let gap = self.gap(row);
        let position = self.position(row);
        let mut sum = X::zero();
        // By numbers: a column's number picks its part of the work area, its step, and whether it is the lost one. A chain
        // with `fold` was tried, and two goals stayed open.
        for i in 0..self.shape.k {
            sum = sum.add(self.term(work, i, gap, position));
        }
        let column = self.shape.k + self.parity(row);
        Some(self.symbol(work, column, position).add(sum))
    }
}
