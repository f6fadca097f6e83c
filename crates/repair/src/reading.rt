// The helpers, and the reading list.
ghost use Rattle.std.specs.Prelude.{◌≡◌, ◌≤◌};
ghost use Rattle.repair.specs.Halves.{near as near_of};
ghost use Rattle.repair.specs.Lists.{helper as is_helper, helping as is_helping, added as is_added, listed as is_listed};

use crate::plan::Plan;

impl Plan {
    // Whether a parity helps.
    fn helping(&self, parity: usize) -> bool
        ensures { result ≡ is_helping self.now.shape self.now.lost parity }
    {
        let others = if self.first_half {
            2..=self.shape.q
        } else {
            self.shape.q + 1..=self.shape.parities()
        };
        parity == 1 || others.contains(&parity)
    }

    // Whether a column helps.
    pub fn helper(&self, column: usize) -> bool
        ensures { result ≡ is_helper self.now.shape self.now.lost column }
    {
        if column <= self.shape.k {
            column >= 1 && column != self.lost
        } else {
            self.helping(column - self.shape.k)
        }
    }

    // The number of a data column counted from the lost column's end.
    fn near(&self, column: usize) -> usize
        requires { (1 ≤ column) × (column ≤ self.now.shape.k) }
        ensures is { result ≡ near_of self.now.shape self.now.lost column }
        ensures low { 1 ≤ result }
    {
        if self.first_half {
            column
        } else {
            self.shape.k + 1 - column
        }
    }

    // Whether a row is read besides the home rows.
    fn added(&self, column: usize, row: usize) -> bool
        requires { 1 ≤ column }
        ensures { result ≡ is_added self.now.shape self.now.lost column row }
    {
        if column > self.shape.k || self.near(column) >= self.depth {
            return false;
        }
        row % self.round >= self.round - (self.shape.q - 1) * self.steps[column - 1]
    }

    // Whether a place is on the reading list.
    pub fn listed(&self, column: usize, row: usize) -> bool
        ensures { result ≡ is_listed self.now.shape self.now.lost column row }
    {
        row < self.rows
            && self.helper(column)
            && (row % self.round < self.span || self.added(column, row))
    }
}
