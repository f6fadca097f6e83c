// The byte, summed by exclusive or.
ghost use Rattle.std.specs.Prelude.{[], ◌∷◌};
ghost use Rattle.symbol.specs.Bytes.{byte, byte_plus, byte_bytes, byte_of};
ghost use Rattle.std.proofs.Common.{ap, sym, rules};
ghost use Rattle.std.specs.Int.Bits.{xor_assoc, xor_zero_r, xor_self};
ghost use Rattle.std.proofs.lemmas.Nat.{xor_comm};
ghost use Rattle.symbol.specs.Laws.{elements};

use crate::kind::Symbol;
use crate::wrong_length::WrongLength;

#[derive(Clone, Copy, PartialEq, Eq, Debug)]
pub struct Byte {
    pub value: u8,
}

impl Symbol for Byte {
    ghost zero = { byte 0 };

    ghost plus = { byte_plus };

    ghost width = { 1 };

    ghost bytes = { byte_bytes };

    ghost symbol = { byte_of };

    ghost group = { record {
      monoid = record {
        assoc = λ x y z. ap byte (xor_assoc x.value y.value z.value);
        comm = λ x y. ap byte (xor_comm x.value y.value);
        unit = λ x. ap byte (xor_zero_r x.value);
      };
      own = λ x. ap byte (xor_self x.value);
    } };

    ghost narrow = { Prim.search rules };

    ghost wide = { Prim.search rules };

    ghost back = { Prim.search rules };

    ghost there = { λ b h o. sym (elements b 1 h) };

    fn zero() -> Byte {
        Byte { value: 0 }
    }

    fn add(self, other: Byte) -> Byte {
        Byte {
            value: self.value ^ other.value,
        }
    }

    fn same(self, other: Byte) -> bool {
        self == other
    }

    fn width() -> usize {
        1
    }

    fn read_bytes(part: &[u8]) -> Option<Byte> {
        let &[value] = part else {
            return None;
        };
        Some(Byte { value })
    }

    fn write_bytes(self, part: &mut [u8]) -> Result<(), WrongLength> {
        if part.len() != 1 {
            return Err(WrongLength);
        }
        part.copy_from_slice(&[self.value]);
        Ok(())
    }
}
