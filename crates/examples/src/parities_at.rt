// Examples at k 4, q 2, p 3: 8 rows to a column, and a ring of 12 positions.
use code::Shape;
use std::test::Fail;
use sums::{ParityRule, symbol_at};
use symbol::Byte;

fn rule(shape: Shape, parity: usize) -> Result<ParityRule, Fail> {
    ParityRule::of(shape, parity).ok_or_else(|| Fail::new(format_args!("no parity {parity}")))
}

#[test]
fn positions(rt: HostRuntime) -> Result<(), Fail> {
    let shape = Shape::new(4, 2, 3)?;
    let column = [
        Byte { value: 1 },
        Byte { value: 2 },
        Byte { value: 3 },
        Byte { value: 4 },
        Byte { value: 5 },
        Byte { value: 6 },
        Byte { value: 7 },
        Byte { value: 8 },
    ];
    assert_eq!(rt; symbol_at(shape, &column, 7), Some(Byte { value: 8 }));
    assert_eq!(rt; symbol_at(shape, &column, 8), Some(Byte { value: 4 }));
    assert_eq!(rt; symbol_at(shape, &column, 12), None);
    assert_eq!(rt; symbol_at(shape, &column[0..7], 8), None);
    Ok(())
}

#[test]
fn parities(rt: HostRuntime) -> Result<(), Fail> {
    let shape = Shape::new(4, 2, 3)?;
    let mut cells = [Byte { value: 128 }; 32];
    cells[0] = Byte { value: 1 };
    cells[8] = Byte { value: 2 };
    cells[16] = Byte { value: 4 };
    cells[24] = Byte { value: 8 };
    let first = rule(shape, 1)?;
    assert_eq!(rt; first.sum(&cells, 0), Some(Byte { value: 15 }));
    assert_eq!(rt; first.sum(&cells, 12), None);
    assert_eq!(rt; first.sum(&cells[0..31], 0), None);
    assert!(rt; ParityRule::of(shape, 4).is_none());
    Ok(())
}

// Parity 2 at row 0 sums positions 11, 10, 8 and 0, of which the first three are extra symbols.
#[test]
fn extra_symbols(rt: HostRuntime) -> Result<(), Fail> {
    let shape = Shape::new(4, 2, 3)?;
    let mut cells = [Byte { value: 128 }; 32];
    cells[3] = Byte { value: 1 };
    cells[7] = Byte { value: 2 };
    cells[10] = Byte { value: 4 };
    cells[14] = Byte { value: 8 };
    cells[16] = Byte { value: 16 };
    cells[20] = Byte { value: 32 };
    cells[24] = Byte { value: 64 };
    let second = rule(shape, 2)?;
    assert_eq!(rt; second.sum(&cells, 0), Some(Byte { value: 127 }));
    Ok(())
}
