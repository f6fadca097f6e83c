// Examples of what the program prints, over the shape 4, 2, 3: 7 columns of 8 rows.
use code::Shape;
use drawn::text_of;
use report::report;
use std::alloc::Global;
use std::process::Abort;
use std::test::Fail;
use symbol::Byte;

// A head, and frames of which all symbols are 00 and the first columns are lost.
fn input(heap: Global, lost: usize) -> Result<Vec<u8>, Fail> {
    let mut text = text_of::<Byte>(heap, Shape::new(4, 2, 3)?, &[])?;
    for frame in text.chunks_mut(13).take(lost.saturating_mul(8)) {
        if let Some(mark) = frame.first_mut() {
            *mark = b'L';
        }
    }
    let mut input = Vec::new(heap);
    input.extend_from_slice(b"H 04 02 03\n")?;
    input.extend_from_slice(&text)?;
    Ok(input)
}

// Whether that is printed of an input.
fn prints(rt: &impl Abort, heap: Global, input: &[u8], out: &[u8]) -> Result<(), Fail> {
    let printed = report(heap, input)?;
    assert!(rt; printed.as_slice() == out);
    Ok(())
}

#[test]
fn tells_what_is_lost(rt: HostRuntime) -> Result<(), Fail> {
    let heap = rt.alloc();
    prints(&rt, heap, &input(heap, 0)?, b"R 00 0000\n")?;
    prints(
        &rt,
        heap,
        &input(heap, 1)?,
        b"P 01 0000 00\nP 01 0001 00\nP 01 0002 00\nP 01 0003 00\nP 01 0004 00\nP 01 0005 00\nP 01 0006 00\nP 01 0007 00\nR 01 0014\n",
    )?;
    prints(&rt, heap, &input(heap, 2)?, b"E 0B\n")
}

#[test]
fn refuses_heads_and_shapes(rt: HostRuntime) -> Result<(), Fail> {
    let heap = rt.alloc();
    prints(&rt, heap, b"", b"E 08\n")?;
    prints(&rt, heap, b"H 04 02 03", b"E 08\n")?;
    prints(&rt, heap, b"H 0a 02 03\n", b"E 08\n")?;
    prints(&rt, heap, b"H 03 02 07\n", b"E 01\n")?;
    prints(&rt, heap, b"H 04 05 03\n", b"E 02\n")?;
    prints(&rt, heap, b"H 04 02 07\n", b"E 03\n")?;
    prints(&rt, heap, b"H 04 04 03\n", b"E 04\n")?;
    prints(&rt, heap, b"H 08 04 05\n", b"E 05\n")
}

#[test]
fn input_spelled_out(rt: HostRuntime) -> Result<(), Fail> {
    let input = input(rt.alloc(), 0)?;
    assert!(rt; input.starts_with(b"H 04 02 03\nP 01 0000 00\n"));
    Ok(())
}

#[test]
fn refuses_short_texts(rt: HostRuntime) -> Result<(), Fail> {
    let heap = rt.alloc();
    let mut input = input(heap, 0)?;
    input.truncate(738);
    prints(&rt, heap, &input, b"E 07\n")
}

#[test]
fn refuses_texts(rt: HostRuntime) -> Result<(), Fail> {
    let heap = rt.alloc();
    let mut input = input(heap, 0)?;
    assert_eq!(rt; input.len(), 739);
    input[11 + 13] = b'L';
    prints(&rt, heap, &input, b"E 09\n")?;
    input[11 + 10] = b'f';
    prints(&rt, heap, &input, b"E 08\n")
}

// The shape 4, 4, 29 asks for 64,064 bytes, which are too many: no line of them is looked at.
#[test]
fn refuses_long_texts(rt: HostRuntime) -> Result<(), Fail> {
    let heap = rt.alloc();
    let mut input = Vec::new(heap);
    input.extend_from_slice(b"H 04 04 1D\n")?;
    for _ in 0..4928 {
        input.extend_from_slice(b"P 00 0000 00\n")?;
    }
    prints(&rt, heap, &input, b"E 07\n")
}
