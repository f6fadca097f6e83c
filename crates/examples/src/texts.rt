// Examples over a text of bytes for the shape 4, 2, 3: 7 columns of 8 rows, 13 bytes a line.
use code::{Refusal, Shape};
use drawn::text_of;
use frames::{Frames, check as check_text, column_part};
use std::test::Fail;
use store::ColumnStore;
use symbol::Byte;

#[test]
fn passes(rt: HostRuntime) -> Result<(), Fail> {
    let shape = Shape::new(4, 2, 3)?;
    // All symbols 00 and all columns present.
    let text = text_of::<Byte>(rt.alloc(), shape, &[])?;
    assert_eq!(rt; text.len(), 728);
    assert!(rt; &text[..26] == b"P 01 0000 00\nP 01 0001 00\n".as_slice());
    assert!(rt; &text[715..] == b"P 07 0007 00\n".as_slice());
    assert_eq!(rt; check_text::<Byte>(shape, &text), Ok(()));
    Ok(())
}

#[test]
fn refuses_length(rt: HostRuntime) -> Result<(), Fail> {
    let shape = Shape::new(4, 2, 3)?;
    let text = [0u8; 727];
    assert_eq!(rt;
        check_text::<Byte>(shape, &text),
        Err(Refusal::TextLength { needed: 728 })
    );
    Ok(())
}

#[test]
fn names_the_lowest_line(rt: HostRuntime) -> Result<(), Fail> {
    let shape = Shape::new(4, 2, 3)?;
    // All symbols 00 and all columns present.
    let mut text = text_of::<Byte>(rt.alloc(), shape, &[])?;
    assert_eq!(rt; text.len(), 728);
    text[13 * 9] = b'L';
    text[13 * 5 + 10] = b'a';
    assert_eq!(rt;
        check_text::<Byte>(shape, &text),
        Err(Refusal::BadFrame { line: 6 })
    );
    text[13 * 5 + 10] = b'A';
    assert_eq!(rt;
        check_text::<Byte>(shape, &text),
        Err(Refusal::MarkDiffers { line: 10 })
    );
    Ok(())
}

#[test]
fn writes_in_place(rt: HostRuntime) -> Result<(), Fail> {
    let shape = Shape::new(4, 2, 3)?;
    // All symbols 00 and all columns present.
    let mut text = text_of::<Byte>(rt.alloc(), shape, &[])?;
    assert_eq!(rt; text.len(), 728);
    let mut frames: Frames<Byte> = Frames::over(shape, &mut text);
    assert_eq!(rt; frames.columns(), 7);
    assert_eq!(rt; frames.rows(), 8);
    frames.write(5, 1, Byte { value: 0x5A })?;
    assert_eq!(rt; frames.read(5, 1), Ok(Byte { value: 0x5A }));
    frames.drop_column(5)?;
    assert_eq!(rt; frames.read(5, 1), Err(Refusal::ColumnLost { column: 5 }));
    assert_eq!(rt; frames.meter(), 1);
    assert_eq!(rt; check_text::<Byte>(shape, &text), Ok(()));
    let part = column_part::<Byte>(shape, &text, 5)?;
    assert_eq!(rt; part.len(), 104);
    assert!(rt; &part[0..26] == b"L 05 0000 00\nL 05 0001 5A\n".as_slice());
    Ok(())
}

#[test]
fn refused_text_is_empty(rt: HostRuntime) -> Result<(), Fail> {
    let shape = Shape::new(4, 2, 3)?;
    let mut text = [0u8; 728];
    let mut frames: Frames<Byte> = Frames::over(shape, &mut text);
    assert_eq!(rt; frames.columns(), 0);
    assert_eq!(rt; frames.rows(), 0);
    assert!(rt; frames.is_lost(1));
    assert_eq!(rt;
        frames.admit(1),
        Err(Refusal::NoSuchPlace { column: 1, row: 0 })
    );
    Ok(())
}
