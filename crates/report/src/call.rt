// The whole call: the head, the shape, the text, and what the array of the text comes to.
ghost use Rattle.std.specs.Prelude.{◌≡◌, IfOk, None, string_bytes};
ghost use Rattle.code.specs.Shapes.{columns_of, rows_of};
ghost use Rattle.frames.specs.Checks.{text_refusal, Told};
ghost use Rattle.report.specs.Printed.{marks, symbols, told, frames_refusal, answer as answer_of, printed};
ghost use Rattle.report.specs.Prints.{Prints};

use crate::failure::Failure;
use crate::heads::split_head;
use crate::lines::refused;
use crate::restore::tell;
use array::Array;
use code::{Refusal, Shape};
use frames::{Frames, check};
use std::alloc::{AllocError, Global};
use store::ColumnStore;
use symbol::Byte;

// The limit belongs to the check of the length, so both refuse with the same number.
fn check_frames(shape: Shape, text: &[u8]) -> Result<(), Refusal>
    ensures { Told (frames_refusal shape text.now) result }
{
    if text.len() > 61440 {
        let needed = shape.columns() * shape.rows() * 13;
        return Err(Refusal::TextLength { needed });
    }
    check::<Byte>(shape, text)
}

// What is printed of a text that passed the check. The rebuild writes into the text.
fn restore(heap: Global, shape: Shape, text: &mut [u8]) -> Result<String, Failure>
    requires { text_refusal (columns_of shape) (rows_of shape) 1 text.old ≡ None }
    ensures { Prints string_bytes (told shape (marks shape text.old) (symbols shape text.old)) result }
{
    let mut store: Frames<Byte> = Frames::over(shape, text);
    let array = Array::open(shape, &store);
    tell(heap, &array, &mut store)
}

// What is printed of frames of a shape. The frames are copied, and the input stays as it is.
fn answer(heap: Global, shape: Shape, text: &[u8]) -> Result<String, Failure>
    ensures { Prints string_bytes (answer_of shape text.now) result }
{
    check_frames(shape, text)?;
    let mut copy = text.to_vec(heap)?;
    restore(heap, shape, &mut copy)
}

// What is printed of an input, if neither it nor its array is refused.
fn rebuilt(heap: Global, input: &[u8]) -> Result<String, Failure>
    ensures { Prints string_bytes (printed input.now) result }
{
    let (head, frames) = split_head(input).ok_or(Refusal::BadFrame { line: 0 })?;
    let shape = Shape::new(head.k, head.q, head.p)?;
    answer(heap, shape, frames)
}

// What the program prints of an input: if the memory suffices, exactly the bytes that `printed` says.
pub fn report(heap: Global, input: &[u8]) -> Result<Vec<u8>, AllocError>
    ensures { IfOk result (λ v. v.items ≡ printed input.now) }
{
    let out = match rebuilt(heap, input) {
        Ok(out) => out,
        Err(Failure::Refused(refusal)) => refused(heap, refusal)?,
        Err(Failure::NoMemory(e)) => return Err(e),
    };
    Ok(out.into_bytes())
}
