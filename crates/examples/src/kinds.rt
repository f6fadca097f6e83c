// Examples of each kind: its digits and bytes both ways, what is refused, edge values and sums.
use symbol::{Byte, Stand, Symbol, WrongLength};

// Whether these are a symbol's digits, both ways.
fn has_digits<X: Symbol + PartialEq, const N: usize>(x: X, text: [u8; N]) -> bool {
    let mut part = [0u8; N];
    X::read_digits(&text) == Some(x) && x.write_digits(&mut part) == Ok(()) && part == text
}

// Whether none of these texts and bytes is read, and a symbol is not written over this part.
fn refuses<X: Symbol, const N: usize>(x: X, texts: &[&[u8]], bytes: &[u8], part: [u8; N]) -> bool {
    let mut kept = part;
    texts.iter().all(|text| X::read_digits(text).is_none())
        && X::read_bytes(bytes).is_none()
        && x.write_digits(&mut kept) == Err(WrongLength)
        && x.write_bytes(&mut kept) == Err(WrongLength)
        && kept == part
}

// Whether two symbols that differ have this sum, and one added to itself gives zero.
fn have_sum<X: Symbol + PartialEq>(x: X, y: X, sum: X) -> bool {
    x.add(y) == sum && x.add(x) == X::zero() && x.same(x) && !x.same(y)
}

#[test]
fn byte_digits(rt: HostRuntime) {
    assert!(rt; has_digits(Byte { value: 0x5A }, *b"5A"));
}

#[test]
fn byte_refuses(rt: HostRuntime) {
    assert!(rt; refuses(Byte { value: 1 }, &[b"5a", b"5", b"5A0"], &[1, 2], [7; 3]));
}

#[test]
fn byte_sums(rt: HostRuntime) {
    assert!(rt;
        have_sum(
            Byte { value: 0x5A },
            Byte { value: 0xFF },
            Byte { value: 0xA5 }
        )
    );
}

#[test]
fn stand_bytes(rt: HostRuntime) {
    let x = Stand {
        stock: 0x0102,
        cash: 0x03040506,
    };
    assert_eq!(rt; Stand::read_bytes(&[1, 2, 3, 4, 5, 6]), Some(x));
    let mut part = [0u8; 6];
    assert_eq!(rt; x.write_bytes(&mut part), Ok(()));
    assert_eq!(rt; part, [1, 2, 3, 4, 5, 6]);
}

#[test]
fn stand_digits(rt: HostRuntime) {
    let x = Stand {
        stock: 0x0102,
        cash: 0x03040506,
    };
    assert!(rt; has_digits(x, *b"010203040506"));
}

#[test]
fn stand_edges(rt: HostRuntime) {
    let full = Stand {
        stock: 65535,
        cash: 4294967295,
    };
    assert_eq!(rt; Stand::read_digits(b"FFFFFFFFFFFF"), Some(full));
    assert_eq!(rt; Stand::read_digits(b"000000000000"), Some(Stand::zero()));
    let mut part = [0u8; 12];
    assert_eq!(rt; full.write_digits(&mut part), Ok(()));
    assert_eq!(rt; part, *b"FFFFFFFFFFFF");
    assert_eq!(rt; Stand::zero().write_digits(&mut part), Ok(()));
    assert_eq!(rt; part, *b"000000000000");
}

#[test]
fn stand_refuses(rt: HostRuntime) {
    assert!(rt;
        refuses(
            Stand::zero(),
            &[b"01020304050a", b"01020304050"],
            &[1, 2, 3, 4, 5],
            [7; 5]
        )
    );
}

#[test]
fn stand_sums(rt: HostRuntime) {
    let x = Stand {
        stock: 65535,
        cash: 1,
    };
    let y = Stand {
        stock: 255,
        cash: 4294967295,
    };
    let sum = Stand {
        stock: 65280,
        cash: 4294967294,
    };
    assert!(rt; have_sum(x, y, sum));
    assert!(rt;
        !x.same(Stand {
            stock: 65535,
            cash: 2,
        })
    );
}
