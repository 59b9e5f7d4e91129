// Prints values and settling times of a circuit under a vector. Standard input is three lists, each behind its length
// (4 bytes, little endian): the vector, one byte an input; the netlist; the arrivals, 4 bytes an input, their length in
// numbers. Where 4 bytes more follow, they are the length of a fourth: the delays of gates that end at 0, 4 bytes a
// pin. A list that is cut short is read as far as it goes, and what stands behind the last counts for nothing.
// Prints `settled T`, then a line `node value time` for each node; or `refused number place`. An input of fewer than 4
// bytes is `refused 1` and its length. Its room: an input of 65,536 bytes (a longer one: `refused 9 65537`). What
// matters is the contract of settle::evaluate. Assumes nothing of its own.
#![tactic(auto)]

use console::Lists;
use netlist::Form;
use refusal::Refusal;
use std::io::{self, Write};

// How many nodes the netlist has; none where it is refused.
fn node_count(file: &[u8]) -> usize {
    match netlist::open(file) {
        Ok(shape) => shape.inputs + shape.gates,
        Err(_) => 0,
    }
}

// The answer for a netlist, and what it left in the slices, a line for each node.
fn show<W: Write>(
    out: &mut W,
    answer: Result<u32, Refusal>,
    file: &[u8],
    values: &[u8],
    times: &[u32],
) -> io::Result<()> {
    match answer {
        Ok(time) => writeln!(out, "settled {time}")?,
        Err(refusal) => return console::print_refused(out, refusal),
    }
    let nodes = values.iter().zip(times).take(node_count(file));
    for (node, (value, time)) in nodes.enumerate() {
        writeln!(out, "{node} {value} {time}")?;
    }
    Ok(())
}

// The input taken apart. Of the arrivals the 65th is one too many for any netlist, of the delays the 2,049th.
fn answer<W: Write>(out: &mut W, input: &[u8]) -> io::Result<()> {
    if input.len() < 4 {
        return console::print_refused(out, Refusal::Short(input.len()));
    }
    let mut lists = Lists { rest: input };
    let vector = lists.bytes();
    let file = lists.bytes();
    let mut arrivals = [0u32; 65];
    let count = lists.numbers(&mut arrivals);
    let arrivals = &arrivals[..count];
    let mut values = [0u8; 512];
    let mut times = [0u32; 512];
    let mut falls = [0u32; 2049];
    let form = if lists.rest.len() < 4 {
        Form::Single
    } else {
        let count = lists.numbers(&mut falls);
        Form::RiseFall(&falls[..count])
    };
    let answer = settle::evaluate(file, arrivals, form, vector, &mut values, &mut times);
    show(out, answer, file, &values, &times)
}

fn main(rt: HostRuntime) -> io::Result<()> {
    let mut input = [0u8; 65537];
    let got = console::read(&mut rt.reader(), &mut input)?;
    let mut out = io::writer(&rt);
    if 65536 < got {
        return console::print_refused(&mut out, Refusal::Room(65537));
    }
    answer(&mut out, &input[..got])
}
