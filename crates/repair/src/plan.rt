// The rebuilding of one lost data column, with its numbers worked out once for all rows.
ghost use Rattle.std.specs.Prelude.{◌≡◌, ℕ, ◌+◌, ◌<◌, ◌≤◌, length, slice_index};
ghost use Rattle.code.specs.Shapes.{classes_of, rows_of, positions_of};
ghost use Rattle.repair.specs.Halves.{first_half as is_first_half, depth as depth_of, round as round_of, span as span_of};
ghost use Rattle.repair.specs.Steps.{step as step_of};

use code::Shape;

#[derive(Clone, Copy)]
pub struct Plan {
    pub(crate) shape: Shape,
    pub(crate) lost: usize,
    // a yes or no, as in the definitions; an enum of two halves would say no more
    pub(crate) first_half: bool,
    pub(crate) depth: usize,
    pub(crate) span: usize,
    pub(crate) round: usize,
    pub(crate) classes: usize,
    pub(crate) rows: usize,
    pub(crate) positions: usize,
    // how far a step shifts data column i + 1; no heap here: a shape has at most 12
    pub(crate) steps: [usize; 12],
    ghost is_data: { (1 ≤ lost) × (lost ≤ shape.k) },
    ghost first_half_is: { first_half ≡ is_first_half shape lost },
    ghost depth_is: { depth ≡ depth_of shape lost },
    ghost span_is: { span ≡ span_of shape lost },
    ghost round_is: { round ≡ round_of shape lost },
    ghost classes_are: { classes ≡ classes_of shape },
    ghost rows_are: { rows ≡ rows_of shape },
    ghost positions_are: { positions ≡ positions_of shape },
    ghost twelve: { length steps ≡ 12 },
    ghost steps_are: { (i : ℕ) → i < shape.k → slice_index steps i ≡ step_of shape lost (i + 1) },
}
