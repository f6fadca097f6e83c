use code::{Refusal, Shape};
use columns::{load_data, write_parity};
use std::test::Fail;
use store::{ColumnStore, Table};
use symbol::{Byte, Symbol};

// Data columns stand one after another, and a lost parity column is written from them and present again.
#[test]
fn loaded_and_written(rt: HostRuntime) -> Result<(), Fail> {
    let shape = Shape::new(4, 2, 3)?;
    let mut cells = [Byte::zero(); 56];
    let mut work = [Byte { value: 7 }; 40];
    let mut table = Table::over(shape, &mut cells);
    table.write(2, 5, Byte { value: 0x3C })?;
    table.drop_column(5)?;
    assert!(rt; load_data(&mut table, shape, &mut work) == Ok(()));
    assert!(rt; table.meter() == 32);
    assert!(rt; work[13].value == 0x3C && work[12].value == 0 && work[32].value == 7);
    assert!(rt; write_parity(&mut table, shape, 5, &work) == Ok(()));
    assert!(rt; !table.is_lost(5) && table.read(5, 5)?.value == 0x3C);
    Ok(())
}

// The refusals, in the order of the checks: only columns 5 to 7 are parity columns.
#[test]
fn refusals(rt: HostRuntime) -> Result<(), Fail> {
    let shape = Shape::new(4, 2, 3)?;
    let mut cells = [Byte::zero(); 56];
    let mut work = [Byte::zero(); 40];
    let mut table = Table::over(shape, &mut cells);
    let differs = Refusal::StoreDiffers {
        columns: 7,
        rows: 8,
    };
    let other = Shape::new(4, 2, 5)?;
    assert!(rt; load_data(&mut table, other, &mut work) == Err(differs));
    assert!(rt; write_parity(&mut table, other, 4, &work) == Err(differs));
    for column in [0, 4, 8] {
        assert!(rt;
            write_parity(&mut table, shape, column, &work[0..31])
                == Err(Refusal::NoSuchPlace { column, row: 0 })
        );
    }
    assert!(rt;
        write_parity(&mut table, shape, 5, &work[0..31])
            == Err(Refusal::WorkTooSmall { needed: 32 })
    );
    table.drop_column(3)?;
    assert!(rt;
        load_data(&mut table, shape, &mut work[0..39]) == Err(Refusal::ColumnLost { column: 3 })
    );
    table.admit(3)?;
    assert!(rt;
        load_data(&mut table, shape, &mut work[0..39]) == Err(Refusal::WorkTooSmall { needed: 40 })
    );
    Ok(())
}
