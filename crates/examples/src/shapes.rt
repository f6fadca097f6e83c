// The worked figures: sizes of shapes, refused shapes, and which positions the parities sum.
use code::Shape;
use std::test::Fail;

#[test]
fn sizes(rt: HostRuntime) -> Result<(), Fail> {
    let s = Shape::new(4, 2, 5)?;
    assert_eq!(rt; [s.parities(), s.columns(), s.helpers()], [3, 7, 5]);
    assert_eq!(rt; [s.classes(), s.rows(), s.positions()], [4, 16, 20]);
    assert_eq!(rt; Shape::new(7, 4, 5)?.rows(), 4096);
    Ok(())
}

// The number and the values of the refusal of a shape.
fn refusal(k: usize, q: usize, p: usize) -> Option<(u8, [usize; 2])> {
    let refusal = Shape::new(k, q, p).err()?;
    Some((refusal.number(), refusal.values()))
}

#[test]
fn refused(rt: HostRuntime) {
    assert_eq!(rt; refusal(3, 2, 7), Some((1, [3, 0])));
    assert_eq!(rt; refusal(4, 5, 5), Some((2, [5, 0])));
    assert_eq!(rt; refusal(4, 2, 7), Some((3, [7, 0])));
    assert_eq!(rt; refusal(4, 4, 3), Some((4, [3, 0])));
    assert_eq!(rt; refusal(8, 4, 5), Some((5, [16384, 0])));
    assert_eq!(rt; refusal(4, 2, 3), None);
}

// The position of a data column that a parity sums at row 0 of a ring of 12.
fn from(s: Shape, parity: usize, column: usize) -> Option<usize> {
    let shift = s.shift(parity, column)?;
    if shift > 12 {
        return None;
    }
    Some((12 - shift) % 12)
}

#[test]
fn summed(rt: HostRuntime) -> Result<(), Fail> {
    let s = Shape::new(4, 2, 3)?;
    assert_eq!(rt; s.positions(), 12);
    let second = [from(s, 2, 1), from(s, 2, 2), from(s, 2, 3), from(s, 2, 4)];
    assert_eq!(rt; second, [Some(11), Some(10), Some(8), Some(0)]);
    let third = [from(s, 3, 1), from(s, 3, 2), from(s, 3, 3), from(s, 3, 4)];
    assert_eq!(rt; third, [Some(0), Some(8), Some(10), Some(11)]);
    let outside = [from(s, 0, 1), from(s, 4, 1), from(s, 1, 0), from(s, 1, 5)];
    assert_eq!(rt; outside, [None, None, None, None]);
    Ok(())
}
