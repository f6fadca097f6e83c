// The stand of a vending machine: its stock and its cash, each summed by exclusive or.
ghost use Rattle.symbol.specs.Stands.{stand as made_of, stand_plus, stand_bytes, stand_of};
ghost use Rattle.std.specs.Int.Bits.{xor_assoc, xor_zero_r, xor_self};
ghost use Rattle.std.proofs.lemmas.Nat.{xor_comm};
ghost use Rattle.std.specs.Prelude.{◌≡◌, ◌/◌, ◌%◌, slice_index_or};
ghost use Rattle.std.proofs.Common.{arith, rules};
ghost use Rattle.symbol.specs.Laws.{elements, both};

use crate::kind::Symbol;
use crate::wrong_length::WrongLength;

#[derive(Clone, Copy, PartialEq, Eq, Debug)]
pub struct Stand {
    pub stock: u16,
    pub cash: u32,
}

impl Symbol for Stand {
    ghost zero = { made_of 0 0 };

    ghost plus = { stand_plus };

    ghost width = { 6 };

    ghost bytes = { stand_bytes };

    ghost symbol = { stand_of };

    ghost group = { record {
      monoid = record {
        assoc = λ x y z. both (xor_assoc x.stock y.stock z.stock) (xor_assoc x.cash y.cash z.cash);
        comm = λ x y. both (xor_comm x.stock y.stock) (xor_comm x.cash y.cash);
        unit = λ x. both (xor_zero_r x.stock) (xor_zero_r x.cash);
      };
      own = λ x. both (xor_self x.stock) (xor_self x.cash);
    } };

    ghost narrow = { Prim.search rules };

    ghost wide = { Prim.search rules };

    ghost back = { Prim.search rules };

    ghost there = { λ b h o.
        let o1 = o 1 (omega arith) in
        let o3 = o 3 (omega arith) in
        let o4 = o 4 (omega arith) in
        let o5 = o 5 (omega arith) in
        let s = stand_of b in
        let e0 : s.stock / 256 ≡ slice_index_or b 0 0 = omega arith in
        let e1 : s.stock % 256 ≡ slice_index_or b 1 0 = omega arith in
        let e2 : s.cash / 16777216 ≡ slice_index_or b 2 0 = omega arith in
        let e3 : s.cash / 65536 % 256 ≡ slice_index_or b 3 0 = omega arith in
        let e4 : s.cash / 256 % 256 ≡ slice_index_or b 4 0 = omega arith in
        let e5 : s.cash % 256 ≡ slice_index_or b 5 0 = omega arith in
        let w = elements b 6 h in
        cc };

    fn zero() -> Stand {
        Stand { stock: 0, cash: 0 }
    }

    fn add(self, other: Stand) -> Stand {
        Stand {
            stock: self.stock ^ other.stock,
            cash: self.cash ^ other.cash,
        }
    }

    fn same(self, other: Stand) -> bool {
        self == other
    }

    fn width() -> usize {
        6
    }

    fn read_bytes(part: &[u8]) -> Option<Stand> {
        let &[a, b, c, d, e, f] = part else {
            return None;
        };
        Some(Stand {
            stock: u16::from_be_bytes([a, b]),
            cash: u32::from_be_bytes([c, d, e, f]),
        })
    }

    fn write_bytes(self, part: &mut [u8]) -> Result<(), WrongLength> {
        if part.len() != 6 {
            return Err(WrongLength);
        }
        let [a, b] = self.stock.to_be_bytes();
        let [c, d, e, f] = self.cash.to_be_bytes();
        part.copy_from_slice(&[a, b, c, d, e, f]);
        Ok(())
    }
}
