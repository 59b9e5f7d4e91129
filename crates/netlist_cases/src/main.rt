// Reads a bundle of cases from standard input, each a length (4 bytes, little endian) and that many bytes, and prints
// one line for each: `accepted I G P Q` or `refused number place`. It ends with the line `bad bundle` at a length over
// 65,535 and at a case that is cut short. What matters is the contract of netlist::open. Assumes nothing of its own.
#![tactic(auto)]

use console::Stop;
use netlist::Shape;
use std::io::{self, Read, Write};

// The line of one case.
fn answer<W: Write>(out: &mut W, file: &[u8]) -> io::Result<()> {
    match netlist::open(file) {
        Ok(
            Shape {
                inputs,
                gates,
                pins,
                outputs,
                ..
            },
        ) => writeln!(out, "accepted {inputs} {gates} {pins} {outputs}"),
        Err(refusal) => console::print_refused(out, refusal),
    }
}

// One case; whether there was one.
fn take_case<R: Read, W: Write>(input: &mut R, out: &mut W) -> Result<bool, Stop> {
    let Some(length) = console::read_count(input, 65535)? else {
        return Ok(false);
    };
    let mut file = [0u8; 65535];
    let file = &mut file[..length];
    console::fill(input, file)?;
    answer(out, file)?;
    Ok(true)
}

// A proved loop has to end, and nothing says that a bundle does: no run uses up so many turns.
fn main(rt: HostRuntime) -> io::Result<()> {
    let mut input = rt.reader();
    let mut out = io::writer(&rt);
    for _ in 0..u64::MAX {
        let case = take_case(&mut input, &mut out);
        if !console::goes_on(&mut out, case)? {
            break;
        }
    }
    Ok(())
}
