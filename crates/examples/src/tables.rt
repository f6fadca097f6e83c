// A table of bytes at k 4, q 2, p 3: 7 columns of 8 rows, 56 symbols.
use code::{Refusal, Shape};
use std::test::Fail;
use store::{ColumnStore, Table};
use symbol::Byte;

#[test]
fn too_small(rt: HostRuntime) -> Result<(), Fail> {
    let shape = Shape::new(4, 2, 3)?;
    let mut cells = [Byte { value: 0 }; 55];
    assert_eq!(rt;
        Table::check(shape, &cells),
        Err(Refusal::TableTooSmall { needed: 56 })
    );
    let mut table = Table::over(shape, &mut cells);
    assert_eq!(rt; [table.columns(), table.rows()], [0, 0]);
    assert_eq!(rt;
        table.read(1, 0),
        Err(Refusal::NoSuchPlace { column: 1, row: 0 })
    );
    Ok(())
}

#[test]
fn new_table(rt: HostRuntime) -> Result<(), Fail> {
    let shape = Shape::new(4, 2, 3)?;
    let mut cells = [Byte { value: 0 }; 56];
    assert_eq!(rt; Table::check(shape, &cells), Ok(()));
    let table = Table::over(shape, &mut cells);
    assert_eq!(rt; [table.columns(), table.rows()], [7, 8]);
    assert_eq!(rt; table.meter(), 0);
    for column in 1..8 {
        assert!(rt; !table.is_lost(column));
    }
    assert!(rt; table.is_lost(0) && table.is_lost(8));
    Ok(())
}

#[test]
fn reads_and_writes(rt: HostRuntime) -> Result<(), Fail> {
    let x = Byte { value: 5 };
    let mut cells = [Byte { value: 0 }; 56];
    let mut table = Table::over(Shape::new(4, 2, 3)?, &mut cells);
    assert_eq!(rt; table.write(7, 7, x), Ok(()));
    assert_eq!(rt; table.read(7, 7), Ok(x));
    assert_eq!(rt; table.meter(), 1);
    assert_eq!(rt;
        table.read(0, 7),
        Err(Refusal::NoSuchPlace { column: 0, row: 7 })
    );
    assert_eq!(rt;
        table.read(8, 0),
        Err(Refusal::NoSuchPlace { column: 8, row: 0 })
    );
    assert_eq!(rt;
        table.write(1, 8, x),
        Err(Refusal::NoSuchPlace { column: 1, row: 8 })
    );
    assert_eq!(rt; table.meter(), 1);
    Ok(())
}

#[test]
fn lost_columns(rt: HostRuntime) -> Result<(), Fail> {
    let x = Byte { value: 5 };
    let mut cells = [Byte { value: 0 }; 56];
    let mut table = Table::over(Shape::new(4, 2, 3)?, &mut cells);
    assert_eq!(rt; table.drop_column(2), Ok(()));
    assert!(rt; table.is_lost(2) && !table.is_lost(1));
    assert_eq!(rt; table.read(2, 0), Err(Refusal::ColumnLost { column: 2 }));
    assert_eq!(rt; table.write(2, 0, x), Ok(()));
    assert_eq!(rt; table.admit(2), Ok(()));
    assert_eq!(rt; table.read(2, 0), Ok(x));
    assert_eq!(rt;
        table.drop_column(8),
        Err(Refusal::NoSuchPlace { column: 8, row: 0 })
    );
    assert_eq!(rt;
        table.admit(0),
        Err(Refusal::NoSuchPlace { column: 0, row: 0 })
    );
    Ok(())
}
