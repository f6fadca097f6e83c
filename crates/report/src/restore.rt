// Bringing the lowest lost column of an array back, and the lines that tell of it.
ghost use Rattle.std.specs.Prelude.{◌≡◌, ◌<◌, ◌≤◌, true, false, ◌++◌, length, IfOk, Some, None, OnOk, string_bytes};
ghost use Rattle.symbol.specs.Bytes.{byte, byte_plus};
ghost use Rattle.frames.specs.Format.{lines};
ghost use Rattle.store.specs.View.{Inside, metered};
ghost use Rattle.array.specs.Checks.{fits};
ghost use Rattle.recovery.specs.Rebuild.{count_of, quote_refusal, rebuild_refusal, Rebuilt};
ghost use Rattle.report.specs.Printed.{present as present_of, restored, told};
ghost use Rattle.report.specs.Prints.{Prints};

use crate::failure::Failure;
use crate::lines::{put_frame, put_summary};
use array::Array;
use recovery::{Quote, lost_column, quote, rebuild};
use std::alloc::{AllocError, Global};
use store::ColumnStore;
use symbol::{Byte, Symbol};

// The symbol at a place of a present column.
fn symbol<S: ColumnStore<Byte>>(store: &mut S, column: usize, row: usize) -> Byte
    requires inside { Inside (S.ColumnStore.view store.old) column row }
    requires present { (S.ColumnStore.view store.old).lost column ≡ false }
    ensures is { result ≡ (S.ColumnStore.view store.old).at column row }
    ensures view { S.ColumnStore.view store.new ≡ metered 1 (S.ColumnStore.view store.old) }
{
    // No place inside a present column is refused.
    store.read(column, row).unwrap()
}

// Adds the frames of a present column.
fn put_frames<S: ColumnStore<Byte>>(
    out: &mut String,
    store: &mut S,
    column: usize,
) -> Result<(), AllocError>
    requires column { (1 ≤ column) × (column ≤ (S.ColumnStore.view store.old).columns) × (column < 256) }
    requires rows { (S.ColumnStore.view store.old).rows < 65536 }
    requires present { (S.ColumnStore.view store.old).lost column ≡ false }
    ensures { OnOk result (string_bytes out.new ≡ string_bytes out.old ++ lines (S.ColumnStore.view store.old).rows (λ row. present_of column row ((S.ColumnStore.view store.old).at column row))) }
{
    for row in 0..store.rows() {
        let symbol = symbol(store, column, row);
        put_frame(out, column, row, symbol)?;
    }
    Ok(())
}

// A rebuild that no check refuses.
fn spend<S: ColumnStore<Byte>>(array: &Array, store: &mut S, quote: Quote, work: &mut [Byte])
    requires { rebuild_refusal array.now.shape (S.ColumnStore.view store.old) quote.column quote.count (length work.old) ≡ None }
    ensures { Rebuilt (byte 0) byte_plus array.now.shape quote.column (S.ColumnStore.view store.old) (count_of array.now.shape quote.column) (S.ColumnStore.view store.new) work.new }
{
    // No check refuses it.
    rebuild(array, store, quote, work).unwrap();
}

// The lines of a column that is quoted.
fn bring_back<S: ColumnStore<Byte>>(
    heap: Global,
    array: &Array,
    store: &mut S,
    quote: Quote,
) -> Result<String, AllocError>
    requires quoted { quote_refusal array.now.shape (S.ColumnStore.view store.old) quote.column ≡ None }
    requires count { quote.count ≡ count_of array.now.shape quote.column }
    ensures { IfOk result (λ out. string_bytes out ≡ restored array.now.shape (S.ColumnStore.view store.old).at (Some quote.column)) }
{
    let column = quote.column();
    let count = quote.count();
    let mut work = vec![in heap; Byte::zero(); array.shape.helpers() * array.shape.rows()]?;
    spend(array, store, quote, &mut work);
    let mut out = String::new(heap);
    put_frames(&mut out, store, column)?;
    put_summary(&mut out, column, count)?;
    Ok(out)
}

// What is printed of an array.
pub(crate) fn tell<S: ColumnStore<Byte>>(
    heap: Global,
    array: &Array,
    store: &mut S,
) -> Result<String, Failure>
    requires { fits array.now.shape (S.ColumnStore.view store.old) ≡ true }
    ensures { Prints string_bytes (told array.now.shape (S.ColumnStore.view store.old).lost (S.ColumnStore.view store.old).at) result }
{
    let Some(column) = lost_column(store) else {
        let mut out = String::new(heap);
        put_summary(&mut out, 0, 0)?;
        return Ok(out);
    };
    let quote = quote(array, store, column)?;
    let out = bring_back(heap, array, store, quote)?;
    Ok(out)
}
