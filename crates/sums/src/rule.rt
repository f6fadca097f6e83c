// One parity of a shape, with its numbers and the shift of each data column worked out once for all positions.
ghost use Rattle.std.specs.Prelude.{◌≡◌, ℕ, ◌+◌, ◌<◌, ◌≤◌, length, slice_index};
ghost use Rattle.code.specs.Shapes.{parities_of, classes_of, rows_of, positions_of, shift_of};

use code::Shape;

#[derive(Clone, Copy)]
pub struct ParityRule {
    pub(crate) shape: Shape,
    pub(crate) parity: usize,
    pub(crate) classes: usize,
    pub(crate) rows: usize,
    pub(crate) positions: usize,
    // No heap here: a shape has at most 12 data columns.
    pub(crate) shifts: [usize; 12],
    ghost is_parity: { (1 ≤ parity) × (parity ≤ parities_of shape) },
    ghost classes_are: { classes ≡ classes_of shape },
    ghost rows_are: { rows ≡ rows_of shape },
    ghost positions_are: { positions ≡ positions_of shape },
    ghost twelve: { length shifts ≡ 12 },
    ghost shifts_are: { (i : ℕ) → i < shape.k → slice_index shifts i ≡ shift_of shape parity (i + 1) },
}
