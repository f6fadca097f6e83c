// The steps of accepted calls. Only here does a store's refusal become number 16.
ghost use Rattle.std.specs.Prelude.{◌≡◌};
ghost use Rattle.code.specs.declared.refusal.Refusal.TheVariants.{StoreRefused};
ghost use Rattle.code.specs.Refusals.{number_of};
ghost use Rattle.store.specs.Calls.{Reads, Writes, Drops, Admits};
ghost use Rattle.array.specs.Checks.{Cleared};
ghost use Rattle.array.specs.Steps.{Stepped};

use code::Refusal;
use store::ColumnStore;
use symbol::Symbol;

// A store's refusal, as the call that meets it tells it.
fn refused(cause: Refusal) -> Refusal
    ensures { result ≡ StoreRefused (number_of cause) }
{
    Refusal::StoreRefused {
        number: cause.number(),
    }
}

pub fn read<X: Symbol, S: ColumnStore<X>>(
    store: &mut S,
    column: usize,
    row: usize,
) -> Result<X, Refusal>
    ensures { Stepped (λ answer. Reads S.ColumnStore.view store.old column row answer store.new) result }
{
    store.read(column, row).map_err(refused)
}

pub fn write<X: Symbol, S: ColumnStore<X>>(
    store: &mut S,
    column: usize,
    row: usize,
    symbol: X,
) -> Result<(), Refusal>
    ensures { Stepped (λ answer. Writes S.ColumnStore.view store.old column row symbol answer store.new) result }
{
    store.write(column, row, symbol).map_err(refused)
}

pub fn drop_column<X: Symbol, S: ColumnStore<X>>(
    store: &mut S,
    column: usize,
) -> Result<(), Refusal>
    ensures { Stepped (λ answer. Drops S.ColumnStore.view store.old column answer store.new) result }
{
    store.drop_column(column).map_err(refused)
}

pub fn admit<X: Symbol, S: ColumnStore<X>>(store: &mut S, column: usize) -> Result<(), Refusal>
    ensures { Stepped (λ answer. Admits S.ColumnStore.view store.old column answer store.new) result }
{
    store.admit(column).map_err(refused)
}

// Makes every symbol of a work area zero.
pub fn clear<X: Symbol>(work: &mut [X])
    ensures { Cleared X.Symbol.zero work.new }
{
    for cell in work.iter_mut() {
        *cell = X::zero();
    }
}
