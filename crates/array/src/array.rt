// An array: a shape with a column store, which is meant to have that shape's columns and rows. The store is lent to
// each call, so that its owner knows what it holds in between: an array that owned it would lose that, and one that
// borrowed it would owe in each call that shape and store stay the same.
ghost use Rattle.std.specs.Prelude.{◌≡◌};
ghost use Rattle.array.specs.Book.{new_book, Agrees};

use code::Shape;
use store::ColumnStore;
use symbol::Symbol;

#[derive(Drop)]
pub struct Array {
    pub shape: Shape,
}

impl Array {
    // Takes a store as it stands, in any state. Nothing is read, and nothing is asked of the store.
    pub fn open<X: Symbol, S: ColumnStore<X>>(shape: Shape, store: &S) -> Array
        ensures shape { result.shape ≡ shape }
        ensures book { Agrees X.Symbol.zero X.Symbol.plus shape (new_book (S.ColumnStore.view store.now)) (S.ColumnStore.view store.now) }
    {
        Array { shape }
    }
}
