// The lines that are printed.
ghost use Rattle.std.specs.Prelude.{◌≡◌, ◌<◌, ◌++◌, IfOk, OnOk, string_bytes};
ghost use Rattle.report.specs.Printed.{present as present_of, summary as summary_of, refused as refused_of};

use code::Refusal;
use frames::digits;
use std::alloc::{AllocError, Global};
use symbol::Byte;

// The frame of a byte in a present column, put together by hand: `writeln!` of a line for each row took a third more time
// of a whole rebuild of seven columns.
fn frame(column: u8, row: u16, symbol: Byte) -> [u8; 13]
    ensures { result ≡ present_of column row symbol }
{
    let [high, low] = row.to_be_bytes();
    let [a, b] = digits(column);
    let [c, d] = digits(high);
    let [e, f] = digits(low);
    let [g, h] = digits(symbol.value);
    [b'P', b' ', a, b, b' ', c, d, e, f, b' ', g, h, b'\n']
}

// Adds that frame.
pub(crate) fn put_frame(
    out: &mut String,
    column: usize,
    row: usize,
    symbol: Byte,
) -> Result<(), AllocError>
    requires column { column < 256 }
    requires row { row < 65536 }
    ensures { OnOk result (string_bytes out.new ≡ string_bytes out.old ++ present_of column row symbol) }
{
    let line = frame(column as u8, row as u16, symbol);
    // Letters, digits and spaces are UTF-8.
    out.push_str(str::from_utf8(&line).unwrap())
}

// Adds the last line.
pub(crate) fn put_summary(out: &mut String, column: usize, count: usize) -> Result<(), AllocError>
    requires column { column < 256 }
    requires count { count < 65536 }
    ensures { OnOk result (string_bytes out.new ≡ string_bytes out.old ++ summary_of column count) }
{
    writeln!(out, "R {column:02X} {count:04X}")
}

// The line of a refusal.
pub(crate) fn refused(heap: Global, refusal: Refusal) -> Result<String, AllocError>
    ensures { IfOk result (λ out. string_bytes out ≡ refused_of refusal) }
{
    format!(in heap; "E {:02X}\n", refusal.number())
}
