use array::Array;
use audit::audit;
use code::{Refusal, Shape};
use founding::found;
use std::test::Fail;
use store::{ColumnStore, Table};
use symbol::{Byte, Symbol};

// A founded array audits yes, with n·R reads, and no once a symbol of a data column or of a parity column is spoilt.
#[test]
fn spoilt_symbols(rt: HostRuntime) -> Result<(), Fail> {
    let shape = Shape::new(4, 2, 3)?;
    let mut cells = [Byte::zero(); 56];
    let mut work = [Byte::zero(); 40];
    let mut table = Table::over(shape, &mut cells);
    table.write(2, 3, Byte { value: 0x5A })?;
    let array = Array::open(shape, &table);
    assert!(rt; audit(&array, &mut table, &mut work) == Ok(false));
    found(&array, &mut table, &mut work)?;
    let before = table.meter();
    assert!(rt; audit(&array, &mut table, &mut work) == Ok(true));
    assert!(rt; table.meter().wrapping_sub(before) == 56);
    table.write(4, 7, Byte { value: 1 })?;
    assert!(rt; audit(&array, &mut table, &mut work) == Ok(false));
    assert!(rt; table.meter().wrapping_sub(before) == 112);
    table.write(4, 7, Byte::zero())?;
    assert!(rt; audit(&array, &mut table, &mut work) == Ok(true));
    table.write(7, 0, Byte { value: 1 })?;
    assert!(rt; audit(&array, &mut table, &mut work) == Ok(false));
    assert_eq!(rt; work, [Byte::zero(); 40]);
    Ok(())
}

// The refusals, in the order of the checks. A lost parity column refuses an audit too.
#[test]
fn refusals(rt: HostRuntime) -> Result<(), Fail> {
    let shape = Shape::new(4, 2, 3)?;
    let mut cells = [Byte::zero(); 56];
    let mut work = [Byte { value: 7 }; 40];
    let mut table = Table::over(shape, &mut cells);
    table.drop_column(7)?;
    table.drop_column(5)?;
    let other = Array::open(Shape::new(4, 2, 5)?, &table);
    assert!(rt;
        audit(&other, &mut table, &mut work[0..39])
            == Err(Refusal::StoreDiffers {
                columns: 7,
                rows: 8,
            })
    );
    let array = Array::open(shape, &table);
    assert!(rt;
        audit(&array, &mut table, &mut work[0..39]) == Err(Refusal::ColumnLost { column: 5 })
    );
    table.admit(5)?;
    table.admit(7)?;
    assert!(rt;
        audit(&array, &mut table, &mut work[0..39]) == Err(Refusal::WorkTooSmall { needed: 40 })
    );
    assert!(rt; table.meter() == 0 && work[0].value == 7);
    Ok(())
}
