use array::Array;
use code::{Refusal, Shape};
use founding::{found, found_in};
use std::test::Fail;
use store::{ColumnStore, Table};
use symbol::{Byte, Stand, Symbol};

// Worked by hand at k 4, q 2, p 3: a symbol at row x goes to rows x + A and e + A of each parity, where they are stored,
// e being the position of its extra symbol.
#[test]
fn two_symbols(rt: HostRuntime) -> Result<(), Fail> {
    let shape = Shape::new(4, 2, 3)?;
    let mut cells = [Byte::zero(); 60];
    let mut work = [Byte { value: 7 }; 40];
    cells[0] = Byte { value: 0x5A };
    cells[13] = Byte { value: 0x3C };
    assert_eq!(rt; found_in(shape, &mut cells, &mut work)?, 32);
    let mut expected = [Byte::zero(); 60];
    expected[0] = Byte { value: 0x5A };
    expected[13] = Byte { value: 0x3C };
    // parity 1, rows 0 and 5
    expected[32] = Byte { value: 0x5A };
    expected[37] = Byte { value: 0x3C };
    // parity 2, rows 1 and 7
    expected[41] = Byte { value: 0x5A };
    expected[47] = Byte { value: 0x3C };
    // parity 3, rows 0 and 1: the second comes from the extra symbol
    expected[48] = Byte { value: 0x5A };
    expected[49] = Byte { value: 0x3C };
    assert_eq!(rt; cells, expected);
    assert_eq!(rt; work, [Byte::zero(); 40]);
    Ok(())
}

#[test]
fn refusals(rt: HostRuntime) -> Result<(), Fail> {
    let shape = Shape::new(4, 2, 3)?;
    let mut cells = [Stand::zero(); 56];
    let mut work = [Stand::zero(); 40];
    let mut table = Table::over(shape, &mut cells);
    let other = Array::open(Shape::new(4, 2, 5)?, &table);
    assert!(rt;
        found(&other, &mut table, &mut work)
            == Err(Refusal::StoreDiffers {
                columns: 7,
                rows: 8,
            })
    );
    let array = Array::open(shape, &table);
    assert!(rt;
        found(&array, &mut table, &mut work[0..39]) == Err(Refusal::WorkTooSmall { needed: 40 })
    );
    table.drop_column(3)?;
    table.drop_column(2)?;
    assert!(rt; found(&array, &mut table, &mut work) == Err(Refusal::ColumnLost { column: 2 }));
    assert!(rt; table.meter() == 0);
    Ok(())
}

// A lost parity column is founded too.
#[test]
fn lost_parity(rt: HostRuntime) -> Result<(), Fail> {
    let shape = Shape::new(4, 2, 3)?;
    let mut cells = [Stand::zero(); 56];
    let mut work = [Stand::zero(); 40];
    let mut table = Table::over(shape, &mut cells);
    table.write(4, 2, Stand { stock: 3, cash: 9 })?;
    table.drop_column(6)?;
    let array = Array::open(shape, &table);
    assert_eq!(rt; found(&array, &mut table, &mut work)?, 32);
    assert!(rt; table.meter() == 32 && !table.is_lost(6));
    assert_eq!(rt; table.read(6, 2)?, Stand { stock: 3, cash: 9 });
    Ok(())
}
