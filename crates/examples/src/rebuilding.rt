use array::Array;
use code::{Refusal, Shape};
use founding::found;
use recovery::{lose, lost_column, quote, rebuild};
use std::test::Fail;
use store::{ColumnStore, Table};
use symbol::{Byte, Symbol};

// A lost column comes back with the quoted reads.
#[test]
fn comes_back(rt: HostRuntime) -> Result<(), Fail> {
    let shape = Shape::new(4, 2, 3)?;
    let mut cells = [Byte::zero(); 56];
    let mut work = [Byte::zero(); 40];
    let mut table = Table::over(shape, &mut cells);
    table.write(1, 5, Byte { value: 0x5A })?;
    let array = Array::open(shape, &table);
    found(&array, &mut table, &mut work)?;
    lose(&array, &mut table, 1)?;
    table.write(1, 5, Byte { value: 0xFF })?;
    assert!(rt; lost_column(&table) == Some(1));
    let quote = quote(&array, &table, 1)?;
    assert!(rt; quote.column() == 1 && quote.count() == 20);
    let before = table.meter();
    assert!(rt; rebuild(&array, &mut table, quote, &mut work).is_ok());
    assert!(rt; table.meter().wrapping_sub(before) == 20);
    assert!(rt; table.read(1, 5)?.value == 0x5A && lost_column(&table) == None);
    Ok(())
}

// The refusals of a quote, in the order of the checks.
#[test]
fn quote_refusals(rt: HostRuntime) -> Result<(), Fail> {
    let shape = Shape::new(4, 2, 3)?;
    let mut cells = [Byte::zero(); 56];
    let mut table = Table::over(shape, &mut cells);
    let other = Array::open(Shape::new(4, 2, 5)?, &table);
    assert!(rt;
        quote(&other, &table, 1).err()
            == Some(Refusal::StoreDiffers {
                columns: 7,
                rows: 8,
            })
    );
    let array = Array::open(shape, &table);
    assert!(rt; quote(&array, &table, 8).err() == Some(Refusal::NoSuchPlace { column: 8, row: 0 }));
    assert!(rt; quote(&array, &table, 1).err() == Some(Refusal::ColumnPresent { column: 1 }));
    lose(&array, &mut table, 1)?;
    lose(&array, &mut table, 3)?;
    lose(&array, &mut table, 7)?;
    assert!(rt; quote(&array, &table, 1).err() == Some(Refusal::ColumnLost { column: 3 }));
    assert!(rt; lose(&array, &mut table, 0) == Err(Refusal::NoSuchPlace { column: 0, row: 0 }));
    Ok(())
}

// A quote of another array is handed back.
#[test]
fn another_quote(rt: HostRuntime) -> Result<(), Fail> {
    let shape = Shape::new(4, 2, 3)?;
    let larger = Shape::new(4, 2, 5)?;
    let mut cells = [Byte::zero(); 56];
    let mut more = [Byte::zero(); 112];
    let mut work = [Byte::zero(); 40];
    let mut table = Table::over(shape, &mut cells);
    let mut wide = Table::over(larger, &mut more);
    let array = Array::open(shape, &table);
    let other = Array::open(larger, &wide);
    lose(&array, &mut table, 1)?;
    lose(&other, &mut wide, 1)?;
    let foreign = quote(&other, &wide, 1)?;
    let Err(rejected) = rebuild(&array, &mut table, foreign, &mut work) else {
        return Err(Fail::new("a quote of another array was taken"));
    };
    assert!(rt; rejected.refusal == Refusal::CountDiffers { count: 20 });
    assert!(rt; rejected.quote.count() == 40 && table.meter() == 0);
    let own = quote(&array, &table, 1)?;
    let Err(rejected) = rebuild(&array, &mut table, own, &mut work[0..39]) else {
        return Err(Fail::new("a small work area was taken"));
    };
    assert!(rt; rejected.refusal == Refusal::WorkTooSmall { needed: 40 });
    Ok(())
}
