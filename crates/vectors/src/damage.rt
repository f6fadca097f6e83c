// What is done to a text.
use std::alloc::{AllocError, Global};

#[derive(Clone, Copy)]
pub(crate) enum Damage {
    // another byte at a place
    Byte { at: usize, byte: u8 },
    // it is cut to a length
    Cut { length: usize },
    // newlines are added
    Newlines { count: usize },
    // two lines change places
    Swap { first: usize, second: usize },
    // a whole column is marked lost
    Lost { column: usize },
}

// By its number and two more.
impl From<[u32; 3]> for Damage {
    fn from([what, a, b]: [u32; 3]) -> Damage {
        match what {
            0 => Damage::Byte {
                at: a as usize,
                byte: (b % 256) as u8,
            },
            1 => Damage::Cut { length: a as usize },
            2 => Damage::Newlines { count: a as usize },
            3 => Damage::Swap {
                first: a as usize,
                second: b as usize,
            },
            _ => Damage::Lost { column: a as usize },
        }
    }
}

// The text with two lines changed.
fn swapped(
    heap: Global,
    text: &[u8],
    stride: usize,
    first: usize,
    second: usize,
) -> Result<Vec<u8>, AllocError> {
    // `chunks` asks for a length of at least 1.
    let mut lines: Vec<&[u8]> = text.chunks(stride.max(1)).collect(heap)?;
    if first < lines.len() && second < lines.len() {
        lines.swap(first, second);
    }
    lines.concat(heap)
}

impl Damage {
    // On a text of lines of `stride` bytes, `rows` of them to a column.
    pub(crate) fn apply(
        self,
        heap: Global,
        text: &mut Vec<u8>,
        stride: usize,
        rows: usize,
    ) -> Result<(), AllocError> {
        match self {
            Damage::Byte { at, byte } => {
                if let Some(place) = text.get_mut(at) {
                    *place = byte;
                }
            }
            Damage::Cut { length } => text.truncate(length),
            Damage::Newlines { count } => text.resize(text.len().saturating_add(count), b'\n')?,
            Damage::Swap { first, second } => *text = swapped(heap, text, stride, first, second)?,
            Damage::Lost { column } => {
                let before = column.saturating_sub(1).saturating_mul(rows);
                for line in text.chunks_mut(stride.max(1)).skip(before).take(rows) {
                    if let Some(mark) = line.first_mut() {
                        *mark = b'L';
                    }
                }
            }
        }
        Ok(())
    }
}
