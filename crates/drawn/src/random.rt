// Numbers and symbols that are drawn.
ghost use Rattle.std.specs.Prelude.{◌≡◌, ◌*◌, ◌/◌, ◌^◌, ◌++◌, replicate, IfOk, OnOk};
ghost use Rattle.code.specs.Shapes.{parities_of, rows_of};
ghost use Rattle.drawn.specs.Drawn.{next, after, drawn_bytes, drawn_symbol, drawn_symbols};

use code::Shape;
use std::alloc::{AllocError, Global};
use symbol::Symbol;

// A linear congruential generator: the high byte of each state is taken.
#[derive(Clone, Copy)]
pub struct Random(pub u32);

impl Random {
    fn byte(&mut self) -> u8
        ensures byte { result ≡ next self.old.0 / 2 ^ 24 }
        ensures state { self.new.0 ≡ next self.old.0 }
    {
        self.0 = self.0.wrapping_mul(1664525).wrapping_add(1013904223);
        (self.0 >> 24) as u8
    }

    fn bytes(&mut self) -> [u8; 16]
        ensures bytes { result ≡ drawn_bytes 16 self.old.0 }
        ensures state { self.new.0 ≡ after 16 self.old.0 }
    {
        let mut bytes = [0; 16];
        for byte in bytes.iter_mut() {
            *byte = self.byte();
        }
        bytes
    }

    // A symbol takes 16 bytes, whatever its width.
    pub fn symbol<X: Symbol>(&mut self) -> X
        ensures symbol { result ≡ drawn_symbol X.Symbol.width X.Symbol.symbol self.old.0 }
        ensures state { self.new.0 ≡ after 16 self.old.0 }
    {
        let bytes = self.bytes();
        // 16 bytes are enough for every kind.
        X::read_bytes(&bytes[..X::width()]).unwrap()
    }

    // The symbols of an array that is not founded yet, its columns one after another: the data columns are drawn, the
    // parity columns are zero.
    pub fn array<X: Symbol>(&mut self, heap: Global, shape: Shape) -> Result<Vec<X>, AllocError>
        ensures cells { IfOk result (λ cells. cells.items ≡ drawn_symbols X.Symbol.width X.Symbol.symbol (shape.k * rows_of shape) self.old.0 ++ replicate (parities_of shape * rows_of shape) X.Symbol.zero) }
        ensures state { OnOk result (self.new.0 ≡ after (16 * (shape.k * rows_of shape)) self.old.0) }
    {
        let rows = shape.rows();
        let mut cells = Vec::new(heap);
        for _drawn in 0..shape.k * rows {
            cells.push(self.symbol())?;
        }
        cells.resize(shape.columns() * rows, X::zero())?;
        Ok(cells)
    }
}
