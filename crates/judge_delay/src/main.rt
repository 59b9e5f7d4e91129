// Judges a delay certificate. Standard input is the delay (4 bytes, little endian) and four lists, each behind its
// length (4 bytes): the vector, one byte an input; the refutation, 4 bytes a number, two's complement, its length in
// numbers; the netlist; the arrivals, 4 bytes an input, their length in numbers. Where 4 bytes more follow, they are
// the length of a fifth: the delays of gates that end at 0, 4 bytes a pin. A list that is cut short is read as far as
// it goes, and what stands behind the last counts for nothing. Prints `accepted` or `refused number place`. An
// input of fewer than 8 bytes is `refused 1` and its length. Its room: an input of 524,288 bytes (a longer one:
// `refused 9 524289`), 32,768 pairs (21,845 with rise and fall apart), a formula of 524,288 numbers, 100,000 variables.
// What matters is the contract of certificate::judge. Assumes nothing of its own.
#![tactic(auto)]

use console::Lists;
use netlist::Form;
use refusal::Refusal;
use std::io::{self, Write};

// The input taken apart. Of the arrivals the 65th is one too many for any netlist, of the delays the 2,049th.
fn answer<W: Write>(out: &mut W, input: &[u8]) -> io::Result<()> {
    if input.len() < 8 {
        return console::print_refused(out, Refusal::Short(input.len()));
    }
    let mut lists = Lists { rest: input };
    let delay = lists.number();
    let vector = lists.bytes();
    if lists.rest.len() < 4 {
        return console::print_refused(out, Refusal::Short(0));
    }
    let mut refutation = [0i32; 131072];
    let count = lists.numbers(&mut refutation);
    let refutation = &refutation[..count];
    let file = lists.bytes();
    let mut arrivals = [0u32; 65];
    let count = lists.numbers(&mut arrivals);
    let arrivals = &arrivals[..count];
    let mut values = [0u8; 512];
    let mut times = [0u32; 512];
    let mut pairs = [0u32; 65536];
    let mut formula = [0i32; 524288];
    let mut propagation = [0u8; 100001];
    let mut falls = [0u32; 2049];
    let form = if lists.rest.len() < 4 {
        Form::Single
    } else {
        let count = lists.numbers(&mut falls);
        Form::RiseFall(&falls[..count])
    };
    let answer = certificate::judge(
        file,
        arrivals,
        form,
        delay,
        vector,
        refutation,
        &mut values,
        &mut times,
        &mut pairs,
        &mut formula,
        &mut propagation,
    );
    match answer {
        Ok(()) => writeln!(out, "accepted"),
        Err(refusal) => console::print_refused(out, refusal),
    }
}

fn main(rt: HostRuntime) -> io::Result<()> {
    let mut input = [0u8; 524289];
    let got = console::read(&mut rt.reader(), &mut input)?;
    let mut out = io::writer(&rt);
    if 524288 < got {
        return console::print_refused(&mut out, Refusal::Room(524289));
    }
    answer(&mut out, &input[..got])
}
