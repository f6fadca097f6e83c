// A parity at a position: the sum of the data columns, each at its shift.
ghost use Rattle.std.specs.Prelude.{◌≡◌, ℕ, ◌+◌, ◌*◌, ◌<◌, ◌≤◌, length, slice_index};
ghost use Rattle.ring.specs.Cyclic.{shifted as shifted_from};
ghost use Rattle.code.specs.Parities.{term_of};
ghost use Rattle.code.specs.Places.{symbols_of};
ghost use Rattle.code.specs.Shapes.{parities_of, rows_of, positions_of, shift_of};
ghost use Rattle.sums.specs.Sums.{RuleOf, sum_at};

use crate::position::at;
use crate::rule::ParityRule;
use code::Shape;
use std::array;
use symbol::Symbol;

// The shifts of all data columns for a parity; 0 where there is no such column.
fn shifts(shape: Shape, parity: usize) -> [usize; 12]
    requires { (1 ≤ parity) × (parity ≤ parities_of shape) }
    ensures twelve { length result ≡ 12 }
    ensures are { (i : ℕ) → i < shape.k → slice_index result i ≡ shift_of shape parity (i + 1) }
{
    array::from_fn(|i| shape.shift(parity, i + 1).unwrap_or(0))
}

// The position from which a shift comes to `position`: a sum, and at most one turn of the ring back.
fn shifted(positions: usize, shift: usize, position: usize) -> usize
    requires few { positions ≤ 8192 }
    requires shift { shift ≤ positions }
    requires position { position < positions }
    ensures is { result ≡ shifted_from positions shift position }
    ensures below { result < positions }
{
    let x = position + (positions - shift);
    if x < positions { x } else { x - positions }
}

impl ParityRule {
    // None if there is no such parity.
    pub fn of(shape: Shape, parity: usize) -> Option<ParityRule>
        ensures { RuleOf shape parity result }
    {
        if parity < 1 || parity > shape.parities() {
            return None;
        }
        Some(ParityRule {
            shape,
            parity,
            classes: shape.classes(),
            rows: shape.rows(),
            positions: shape.positions(),
            shifts: shifts(shape, parity),
        })
    }

    // The column that holds the parity.
    pub fn column(&self) -> usize
        ensures { result ≡ self.now.shape.k + self.now.parity }
    {
        self.shape.k + self.parity
    }

    // The rows that are stored of it.
    pub fn rows(&self) -> usize
        ensures { result ≡ rows_of self.now.shape }
    {
        self.rows
    }

    // The shift of data column i + 1 at each i.
    pub fn shifts(&self) -> [usize; 12]
        ensures twelve { length result ≡ 12 }
        ensures are { (i : ℕ) → i < self.now.shape.k → slice_index result i ≡ shift_of self.now.shape self.now.parity (i + 1) }
    {
        self.shifts
    }

    // The parity at a position, from the data columns one after another; none if they are too few, or if the ring has
    // no such position.
    pub fn sum<X: Symbol>(&self, cells: &[X], position: usize) -> Option<X>
        ensures { result ≡ sum_at X.Symbol.zero X.Symbol.plus self.now.shape self.now.parity cells.now position }
    {
        if cells.len() < self.shape.k * self.rows || position >= self.positions {
            return None;
        }
        let columns = cells.chunks_exact(self.rows);
        let shifts = &self.shifts[..self.shape.k];
        let mut sum = X::zero();
        for (column, shift) in columns.zip(shifts) {
            let from = shifted(self.positions, *shift, position);
            sum = sum.add(at(column, self.classes, from));
        }
        Some(sum)
    }
}
