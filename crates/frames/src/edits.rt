// What a frame store writes into its text.
ghost use Rattle.std.specs.Prelude.{◌≡◌, ◌+◌, ◌*◌, ◌≤◌, length};
ghost use Rattle.symbol.specs.Hex.{hex, Octets};
ghost use Rattle.frames.specs.Lines.{stride as stride_of, over as put_over, marked};

use crate::lines::stride;
use symbol::Symbol;

// The digits of a symbol, from a place of the whole text on, which the contract speaks of.
pub(crate) fn put_digits<X: Symbol>(text: &mut [u8], at: usize, symbol: X)
    requires { at + 2 * X.Symbol.width ≤ length text.old }
    ensures text { text.new ≡ put_over text.old at (hex (X.Symbol.bytes symbol)) }
    ensures real { Octets (X.Symbol.bytes symbol) }
{
    let end = at + 2 * X::width();
    // The part is as long as the digits.
    let _ = symbol.write_digits(&mut text[at..end]);
}

// The marks of so many lines from the first on.
pub(crate) fn mark_lines<X: Symbol>(text: &mut [u8], first: usize, count: usize, mark: u8)
    requires { (first + count) * stride_of X.Symbol.width ≤ length text.old }
    ensures { text.new ≡ marked X.Symbol.width text.old first count mark }
{
    let stride = stride::<X>();
    // By number: what is written through `chunks_exact_mut` is not known afterwards.
    for line in first..first + count {
        text[line * stride] = mark;
    }
}
