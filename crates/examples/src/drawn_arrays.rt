// What is drawn of the seed 77, against tools/reference.py.
use code::{Refusal, Shape};
use drawn::{Digits, Random, checksum, column_checksum, text_checksum, text_of};
use frames::{Frames, check};
use std::test::Fail;
use store::ColumnStore;
use symbol::{Byte, Stand};

#[test]
fn bytes(rt: HostRuntime) -> Result<(), Fail> {
    let shape = Shape::new(4, 2, 3)?;
    let mut random = Random(77);
    let cells = random.array::<Byte>(rt.alloc(), shape)?;
    assert_eq!(rt; cells.len(), 56);
    assert_eq!(rt; cells[0], Byte { value: 0x44 });
    assert_eq!(rt; cells[31], Byte { value: 0x42 });
    assert_eq!(rt; cells[32], Byte { value: 0 });
    assert_eq!(rt; checksum(&cells[..8]), 0xB3770B22);
    assert_eq!(rt; random.symbol::<Byte>(), Byte { value: 0xAB });
    let mut text = text_of(rt.alloc(), shape, &cells)?;
    assert_eq!(rt; check::<Byte>(shape, &text), Ok(()));
    assert_eq!(rt; text_checksum(&text), 0x36B5E5F8);
    let mut store: Frames<Byte> = Frames::over(shape, &mut text);
    assert_eq!(rt; column_checksum(&mut store, 1), Ok(0xB3770B22));
    assert_eq!(rt; store.meter(), 8);
    store.drop_column(2)?;
    assert_eq!(rt;
        column_checksum(&mut store, 2),
        Err(Refusal::ColumnLost { column: 2 })
    );
    Ok(())
}

#[test]
fn stands(rt: HostRuntime) -> Result<(), Fail> {
    let drawn: Stand = Random(77).symbol();
    assert_eq!(rt;
        drawn,
        Stand {
            stock: 17475,
            cash: 2323952434
        }
    );
    assert_eq!(rt; checksum(&[drawn]), 0x5A9B011F);
    let digits = format!(in rt.alloc(); "{}", Digits(drawn))?;
    assert_eq!(rt; digits.as_str(), "44438A84B332");
    Ok(())
}
