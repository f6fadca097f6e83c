// Whether a line is a frame.
ghost use Rattle.std.specs.Prelude.{◌≡◌, ◌*◌, ◌<◌, [], ◌∷◌, length};
ghost use Rattle.symbol.specs.Hex.{hex, is_hex};
ghost use Rattle.frames.specs.Lines.{stride as stride_of};
ghost use Rattle.frames.specs.Format.{label as label_of};
ghost use Rattle.frames.specs.Checks.{is_mark as is_mark_byte, is_frame as is_frame_of};

use symbol::{Byte, Symbol};

// The two digits of a byte.
pub fn digits(value: u8) -> [u8; 2]
    ensures { result ≡ hex (value ∷ []) }
{
    let mut digits = [0; 2];
    // The array is as long as the digits of a byte.
    let _ = Byte { value }.write_digits(&mut digits);
    digits
}

// What stands between the mark and the digits of a place's frame.
fn label(column: u8, row: u16) -> [u8; 9]
    ensures { result ≡ label_of column row }
{
    let [high, low] = row.to_be_bytes();
    let [a, b] = digits(column);
    let [c, d] = digits(high);
    let [e, f] = digits(low);
    [b' ', a, b, b' ', c, d, e, f, b' ']
}

fn is_mark(byte: u8) -> bool
    ensures { result ≡ is_mark_byte byte }
{
    matches!(byte, b'P' | b'L')
}

fn are_digits<X: Symbol>(part: &[u8]) -> bool
    ensures { result ≡ is_hex (2 * X.Symbol.width) part.now }
{
    X::read_digits(part).is_some()
}

// Whether a line is a frame of the column and row.
pub(crate) fn is_frame<X: Symbol>(line: &[u8], column: u8, row: u16) -> bool
    requires { length line.now ≡ stride_of X.Symbol.width }
    ensures { result ≡ is_frame_of X.Symbol.width column row line.now }
{
    let [mark, rest @ .., end] = line else {
        return false;
    };
    let (start, digits) = rest.split_at(9);
    if !is_mark(*mark) || !are_digits::<X>(digits) || start != label(column, row).as_slice() {
        return false;
    }
    *end == b'\n'
}
