use array::Array;
use code::{Refusal, Shape};
use founding::found;
use recovery::lose;
use std::test::Fail;
use store::{ColumnStore, Table};
use symbol::{Byte, Symbol};
use updates::{get, put};

const SOLD: Byte = Byte { value: 0x5A };

// A put goes to the parities' rows that take it in, once or twice in each.
#[test]
fn parities_follow(rt: HostRuntime) -> Result<(), Fail> {
    let shape = Shape::new(4, 2, 5)?;
    let mut cells = [Byte::zero(); 112];
    let mut work = [Byte::zero(); 80];
    let mut table = Table::over(shape, &mut cells);
    let array = Array::open(shape, &table);
    found(&array, &mut table, &mut work)?;
    assert!(rt; put(&array, &mut table, 3, 5, SOLD)? == 5);
    assert!(rt; get(&array, &mut table, 3, 5)?.value == 0x5A);
    for (column, row) in [(5, 5), (6, 1), (6, 9), (7, 7)] {
        assert!(rt; table.read(column, row)?.value == 0x5A);
    }
    assert!(rt; table.read(6, 5)?.value == 0 && table.read(7, 5)?.value == 0);
    assert!(rt; put(&array, &mut table, 3, 13, SOLD)? == 4);
    Ok(())
}

// A lost parity column is not touched.
#[test]
fn lost_parity(rt: HostRuntime) -> Result<(), Fail> {
    let shape = Shape::new(4, 2, 5)?;
    let mut cells = [Byte::zero(); 112];
    let mut table = Table::over(shape, &mut cells);
    let array = Array::open(shape, &table);
    lose(&array, &mut table, 6)?;
    assert!(rt; put(&array, &mut table, 3, 5, SOLD)? == 3);
    table.admit(6)?;
    assert!(rt; table.read(6, 1)?.value == 0 && table.read(6, 9)?.value == 0);
    Ok(())
}

// The refusals of a put and a get, in the order of the checks.
#[test]
fn place_refusals(rt: HostRuntime) -> Result<(), Fail> {
    let shape = Shape::new(4, 2, 5)?;
    let mut cells = [Byte::zero(); 112];
    let mut table = Table::over(shape, &mut cells);
    let other = Array::open(Shape::new(4, 2, 3)?, &table);
    assert!(rt;
        put(&other, &mut table, 0, 0, SOLD)
            == Err(Refusal::StoreDiffers {
                columns: 7,
                rows: 16,
            })
    );
    let array = Array::open(shape, &table);
    lose(&array, &mut table, 2)?;
    for (column, row) in [(0, 0), (5, 0), (2, 16)] {
        assert!(rt;
            put(&array, &mut table, column, row, SOLD) == Err(Refusal::NoSuchPlace { column, row })
        );
    }
    assert!(rt; put(&array, &mut table, 2, 15, SOLD) == Err(Refusal::ColumnLost { column: 2 }));
    assert!(rt; get(&array, &mut table, 2, 15).err() == Some(Refusal::ColumnLost { column: 2 }));
    assert!(rt; table.meter() == 0);
    Ok(())
}
