// The checksum FNV-1a of 32 bits.
ghost use Rattle.std.specs.Prelude.{◌≡◌, ◌≤◌, false, fold};
ghost use Rattle.store.specs.View.{Column, metered};
ghost use Rattle.array.specs.Steps.{Accepts};
ghost use Rattle.drawn.specs.Checksums.{mixed, checksum_of, checksum_to, SumsColumn};

use array::read;
use code::Refusal;
use store::ColumnStore;
use symbol::Symbol;

const START: u32 = 2166136261;

fn mixed(sum: u32, bytes: &[u8]) -> u32
    ensures { result ≡ fold mixed sum bytes.now }
{
    bytes.iter().fold(
        sum,
        |sum, byte| (sum ^ u32::from(*byte)).wrapping_mul(16777619),
    )
}

fn mixed_symbol<X: Symbol>(sum: u32, symbol: X) -> u32
    ensures { result ≡ fold mixed sum (X.Symbol.bytes symbol) }
{
    // No heap here: a symbol has at most 16 bytes.
    let mut bytes = [0; 16];
    let bytes = &mut bytes[..X::width()];
    // The part is as long as the symbol is wide.
    symbol.write_bytes(bytes).unwrap();
    mixed(sum, bytes)
}

// Of a text.
pub fn text_checksum(text: &[u8]) -> u32
    ensures { result ≡ fold mixed START text.now }
{
    mixed(START, text)
}

// Of the bytes of some symbols.
pub fn checksum<X: Symbol>(symbols: &[X]) -> u32
    ensures { result ≡ checksum_of X.Symbol.bytes START symbols.now }
{
    symbols
        .iter()
        .fold(START, |sum, symbol| mixed_symbol(sum, *symbol))
}

// Of the first rows of a column.
fn sum_rows<X: Symbol, S: ColumnStore<X>>(
    store: &mut S,
    column: usize,
    rows: usize,
) -> Result<u32, Refusal>
    requires column { Column (S.ColumnStore.view store.old) column }
    requires rows { rows ≤ (S.ColumnStore.view store.old).rows }
    requires present { (S.ColumnStore.view store.old).lost column ≡ false }
    ensures { Accepts (λ sum. (sum ≡ checksum_to X.Symbol.bytes START ((S.ColumnStore.view store.old).at column) rows) × (S.ColumnStore.view store.new ≡ metered rows (S.ColumnStore.view store.old))) result }
{
    let mut sum = START;
    for row in 0..rows {
        sum = mixed_symbol(sum, read(store, column, row)?);
    }
    Ok(sum)
}

// Of a present column of a store: each of its symbols is read once.
pub fn column_checksum<X: Symbol, S: ColumnStore<X>>(
    store: &mut S,
    column: usize,
) -> Result<u32, Refusal>
    ensures { SumsColumn S.ColumnStore.view X.Symbol.bytes START store.old column result store.new }
{
    if store.is_lost(column) {
        return Err(Refusal::ColumnLost { column });
    }
    let rows = store.rows();
    sum_rows(store, column, rows)
}
