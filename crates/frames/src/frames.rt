// A column store over a lent text, one line for each symbol. Where it has columns it has rows, and the text has the length
// that they ask; else it has neither.
ghost use Rattle.std.specs.Prelude.{◌≡◌, ◌*◌, ◌^◌, ◌<◌, ◌≤◌, length};
ghost use Rattle.frames.specs.Lines.{stride as stride_of};

use std::marker::PhantomData;
use symbol::Symbol;

#[derive(Drop)]
pub struct Frames<'a, X: Symbol> {
    pub(crate) columns: usize,
    pub(crate) rows: usize,
    pub(crate) text: &'a mut [u8],
    pub(crate) meter: u64,
    pub(crate) kind: PhantomData<X>,
    ghost some: { (1 ≤ columns → 1 ≤ rows) × (1 ≤ rows → 1 ≤ columns) },
    ghost whole: { 1 ≤ columns → columns * rows * stride_of X.Symbol.width ≡ length text.now },
    ghost counted: { meter < 2 ^ 64 },
}
