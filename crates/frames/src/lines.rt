// The lines of a text.
ghost use Rattle.std.specs.Prelude.{◌≡◌, ◌≤◌};
ghost use Rattle.frames.specs.Lines.{stride as stride_of};

use symbol::Symbol;

// The bytes of a line.
pub(crate) fn stride<X: Symbol>() -> usize
    ensures is { result ≡ stride_of X.Symbol.width }
    ensures low { (13 ≤ result) × (result ≤ 43) }
{
    11 + 2 * X::width()
}
