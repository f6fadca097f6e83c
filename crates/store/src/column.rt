// A store of columns of symbols. Each call's contract says what it answers and leaves, for every input.
ghost use Rattle.std.specs.Prelude.{◌≡◌, ◌^◌, ◌<◌};
ghost use Rattle.store.specs.View.{View, counts_as_lost};
ghost use Rattle.store.specs.Calls.{Reads, Writes, Drops, Admits};

use code::Refusal;
use symbol::Symbol;

// A place is a column and a row: `read(2, 5)` says as much as a struct of both.
pub trait ColumnStore<X: Symbol> {
    ghost view: { Self → View X };

    // The meter is a number of 64 bits.
    ghost counted: { (s : Self) → (view s).meter < 2 ^ 64 };

    fn columns(&self) -> usize
        ensures { result ≡ (view self.now).columns };

    fn rows(&self) -> usize
        ensures { result ≡ (view self.now).rows };

    fn meter(&self) -> u64
        ensures { result ≡ (view self.now).meter };

    fn is_lost(&self, column: usize) -> bool
        ensures { result ≡ counts_as_lost (view self.now) column };

    fn read(&mut self, column: usize, row: usize) -> Result<X, Refusal>
        ensures { Reads view self.old column row result self.new };

    // Goes to lost columns too.
    fn write(&mut self, column: usize, row: usize, symbol: X) -> Result<(), Refusal>
        ensures { Writes view self.old column row symbol result self.new };

    // The column is lost, and its symbols may become anything.
    fn drop_column(&mut self, column: usize) -> Result<(), Refusal>
        ensures { Drops view self.old column result self.new };

    // The column is present.
    fn admit(&mut self, column: usize) -> Result<(), Refusal>
        ensures { Admits view self.old column result self.new };
}
