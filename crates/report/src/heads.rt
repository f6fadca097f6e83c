// Reading a head line.
ghost use Rattle.std.specs.Prelude.{◌≡◌, drop, IfSome};
ghost use Rattle.std.specs.Option.{option_map};
ghost use Rattle.report.specs.Heads.{head_of, number_in};

use crate::head::Head;
use symbol::{Byte, Symbol};

// The number of two digits.
fn number(digits: [u8; 2]) -> Option<usize>
    ensures { result ≡ number_in digits }
{
    let byte = Byte::read_digits(&digits)?;
    Some(usize::from(byte.value))
}

// The head, and the frames after it.
pub(crate) fn split_head(input: &[u8]) -> Option<(Head, &[u8])>
    ensures head { option_map (λ split. split.0) result ≡ head_of input.now }
    ensures frames { IfSome result (λ split. split.1.now ≡ drop 11 input.now) }
{
    let [b'H', b' ', a, b, b' ', c, d, b' ', e, f, b'\n', frames @ ..] = input else {
        return None;
    };
    let k = number([*a, *b])?;
    let q = number([*c, *d])?;
    let p = number([*e, *f])?;
    Some((Head { k, q, p }, frames))
}
