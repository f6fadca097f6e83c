// How a plan is made, and the count of what it reads.
ghost use Rattle.std.specs.Prelude.{◌≡◌, cond};
ghost use Rattle.code.specs.Shapes.{parities_of, rows_of};
ghost use Rattle.repair.specs.Lists.{formula};
ghost use Rattle.repair.specs.Plans.{PlanOf};

use crate::plan::Plan;
use code::Shape;
use sums::ParityRule;

// The parity that shifts each data column by one step.
fn unit_parity(shape: Shape, first_half: bool) -> usize
    ensures { result ≡ cond first_half 2 (parities_of shape) }
{
    if first_half { 2 } else { shape.parities() }
}

impl Plan {
    // None if the lost column is no data column.
    pub fn of(shape: Shape, lost: usize) -> Option<Plan>
        ensures { PlanOf shape lost result }
    {
        if lost < 1 || lost > shape.k {
            return None;
        }
        let first_half = lost <= (shape.k + 1) / 2;
        let steps = ParityRule::of(shape, unit_parity(shape, first_half))?.shifts();
        let span = steps[lost - 1];
        Some(Plan {
            shape,
            lost,
            first_half,
            depth: lost.min(shape.k + 1 - lost),
            span,
            round: shape.q * span,
            classes: shape.classes(),
            rows: shape.rows(),
            positions: shape.positions(),
            steps,
        })
    }

    pub fn shape(&self) -> Shape
        ensures { result ≡ self.now.shape }
    {
        self.shape
    }

    // The column that is rebuilt.
    pub fn lost(&self) -> usize
        ensures { result ≡ self.now.lost }
    {
        self.lost
    }

    // The rows of a column.
    pub fn rows(&self) -> usize
        ensures { result ≡ rows_of self.now.shape }
    {
        self.rows
    }

    // How many symbols are read. One row in q is a home row of each helper; the added rows of all columns are as many as
    // one column's home rows, but for one in each round.
    pub fn count(&self) -> usize
        ensures { result ≡ formula self.now.shape self.now.lost }
    {
        (self.shape.helpers() + 1) * (self.rows / self.shape.q) - self.rows / self.round
    }
}
