// Reads a sheet on standard input and prints its run: a line for each step, then how it ended.
#![tactic(auto)]

mod input;
mod output;
mod piece;
mod show;

use crate::input::read_full;
use crate::output::Output;
use crate::show::show;
use sheet_check::check::check;
use std::io;
use std::io::Write;

// The sheet, or that it is refused: "sheet refused 8".
fn run_sheet<W: Write>(sheet: &[u8], output: &mut Output<W>) {
    match check(sheet) {
        Ok(header) => show(header, sheet, output),
        Err(_) => {
            output.make_room();
            output.put(b"sheet refused 8\n");
            output.flush();
        }
    }
}

// One byte more than the longest sheet, so that a longer input is refused. A read or a write that failed is the program's error.
fn main(rt: HostRuntime) -> io::Result<()> {
    let mut sheet = [0u8; 52113];
    let n = read_full(&mut rt.stdin(), &mut sheet)?;
    let mut output = Output::new(rt.stdout());
    run_sheet(&sheet[..n], &mut output);
    output.written
}
