// What is printed: what came of each call, and what a store holds.
use drawn::{Digits, column_checksum};
use runs::{Answer, Outcome};
use std::fmt;
use store::ColumnStore;
use symbol::Symbol;

// What came of a call, as it is printed.
#[derive(Clone, Copy)]
pub(crate) struct Told<X>(pub(crate) Outcome<X>);

impl<X: Symbol> fmt::Display for Told<X> {
    fn fmt<W: fmt::Write>(&self, f: &mut fmt::Formatter<W>) -> fmt::Result {
        match self.0 {
            Ok(Some(Answer::Reads(count))) => write!(f, "reads {count}"),
            Ok(Some(Answer::Symbol(symbol))) => write!(f, "symbol {}", Digits(symbol)),
            Ok(Some(Answer::Lost)) => write!(f, "lost"),
            Ok(Some(Answer::Quoted { column, count })) => write!(f, "quoted {column} {count}"),
            Ok(Some(Answer::Audited(true))) => write!(f, "audit yes"),
            Ok(Some(Answer::Audited(false))) => write!(f, "audit no"),
            Ok(Some(Answer::Lowest(Some(column)))) => write!(f, "lowest {column}"),
            Ok(Some(Answer::Lowest(None))) => write!(f, "lowest none"),
            Ok(None) => write!(f, "unmade"),
            Err(refusal) => {
                let [a, b] = refusal.values();
                write!(f, "refused {} {a} {b}", refusal.number())
            }
        }
    }
}

// The meter, and each column: its checksum, or that it is lost.
pub(crate) fn tell_store<X: Symbol, S: ColumnStore<X>>(
    rt: &HostRuntime,
    store: &mut S,
) -> anyhow::Result<()> {
    let meter = store.meter();
    print!(rt; " meter {meter}")?;
    for column in 1..=store.columns() {
        if store.is_lost(column) {
            print!(rt; " lost")?;
        } else {
            let sum = column_checksum(store, column)?;
            print!(rt; " {sum:08X}")?;
        }
    }
    println!(rt; "")?;
    Ok(())
}
