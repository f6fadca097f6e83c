// A symbol as its digits are printed.
ghost use Rattle.std.specs.Prelude.{◌≡◌};
ghost use Rattle.symbol.specs.Hex.{hex};

use std::fmt;
use symbol::Symbol;

// The digits of a symbol, over the start of a place. Twice the width is a computed length, and no const argument: the
// most is 32.
pub(crate) fn digits_of<X: Symbol>(symbol: X, place: &mut [u8; 32]) -> &[u8]
    ensures { result.now ≡ hex (X.Symbol.bytes symbol) }
{
    let digits = &mut place[..2 * X::width()];
    // The part has two digits for each byte.
    symbol.write_digits(digits).unwrap();
    digits
}

#[derive(Clone, Copy)]
pub struct Digits<X>(pub X);

impl<X: Symbol> fmt::Display for Digits<X> {
    fn fmt<W: fmt::Write>(&self, f: &mut fmt::Formatter<W>) -> fmt::Result {
        for digit in digits_of(self.0, &mut [0; 32]).iter() {
            f.write_char(char::from(*digit))?;
        }
        Ok(())
    }
}
