// Rebuilds the lowest lost column of the array that stands in standard input: docs/PROGRAM.md.
#![tactic(auto)]

use report::report;
use std::io;
use std::io::Read;

fn main(rt: HostRuntime) -> io::Result<()> {
    let heap = rt.alloc();
    let mut input = Vec::new(heap);
    rt.stdin().read_to_end(&mut input)?;
    let out = report(heap, &input)?;
    rt.write_all(&out)
}
