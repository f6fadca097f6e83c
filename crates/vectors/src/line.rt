// What a line of the input says in numbers.
use std::num::ParseIntError;

// The numbers of a line; one that is missing is 0.
pub(crate) fn numbers(line: &str) -> Result<[u32; 4], ParseIntError> {
    let mut numbers = [0; 4];
    for (number, word) in numbers.iter_mut().zip(line.split_whitespace()) {
        *number = word.parse::<u32>()?;
    }
    Ok(numbers)
}

// The kind of a text's symbols.
#[derive(Clone, Copy)]
pub(crate) enum Kind {
    Byte,
    Stand,
}

// By its width: 1, or any other number for stands.
impl From<u32> for Kind {
    fn from(width: u32) -> Kind {
        match width {
            1 => Kind::Byte,
            _ => Kind::Stand,
        }
    }
}
