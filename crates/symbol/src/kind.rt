// A kind of symbol. The code above the kinds is written once, for every one of them.
ghost use Rattle.std.specs.Prelude.{IfOk, ◌≡◌, ℕ, ◌*◌, ◌≤◌, List, length};
ghost use Rattle.ring.specs.Sums.{BooleanGroup};
ghost use Rattle.symbol.specs.Hex.{hex, Octets};
ghost use Rattle.symbol.specs.Kinds.{Tells, from_bytes, from_digits, Wrote};

use crate::hex::{read_hex, write_hex};
use crate::wrong_length::WrongLength;

pub trait Symbol: Copy {
    ghost zero: { Self };

    ghost plus: { Self → Self → Self };

    // How many bytes a symbol takes.
    ghost width: { ℕ };

    ghost bytes: { Self → List ℕ };

    ghost symbol: { List ℕ → Self };

    fn zero() -> Self
        ensures { result ≡ zero };

    fn add(self, other: Self) -> Self
        ensures { result ≡ plus self other };

    // Each kind's own: a body here would ask of every kind an `==`, and that it is exact.
    fn same(self, other: Self) -> bool
        ensures { Tells self other result };

    fn width() -> usize
        ensures { result ≡ width };

    // None exactly if the part is not `width` bytes long.
    fn read_bytes(part: &[u8]) -> Option<Self>
        ensures { result ≡ from_bytes width symbol part.now };

    // An error, and nothing is changed, exactly if the part is not `width` bytes long.
    fn write_bytes(self, part: &mut [u8]) -> Result<(), WrongLength>
        ensures { Wrote (bytes self) part.old part.new result };

    // None exactly if the part is not 2 * `width` uppercase hexadecimal digits.
    fn read_digits(part: &[u8]) -> Option<Self>
        ensures { result ≡ from_digits width symbol part.now }
    {
        let width = Self::width();
        // No heap here: a symbol has at most 16 bytes.
        let mut bytes = [0; 16];
        read_hex(part, &mut bytes[..width])?;
        Self::read_bytes(&bytes[..width])
    }

    // An error, and nothing is changed, exactly if the part is not 2 * `width` bytes long.
    fn write_digits(self, part: &mut [u8]) -> Result<(), WrongLength>
        ensures wrote { Wrote (hex (bytes self)) part.old part.new result }
        ensures real { IfOk result (λ _. Octets (bytes self)) }
    {
        let width = Self::width();
        let mut bytes = [0; 16];
        self.write_bytes(&mut bytes[..width])?;
        write_hex(&bytes[..width], part)
    }

    ghost group: { BooleanGroup zero plus };

    ghost narrow: { (1 ≤ width) × (width ≤ 16) };

    ghost wide: { (x : Self) → length (bytes x) ≡ width };

    ghost back: { (x : Self) → symbol (bytes x) ≡ x };

    ghost there: { (b : List ℕ) → length b ≡ width → Octets b → bytes (symbol b) ≡ b };
}
