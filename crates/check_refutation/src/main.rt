// Checks a refutation. Standard input: the number of variables (4 bytes, little endian), the formula's length in
// numbers (4 bytes), its numbers (4 bytes each, two's complement, little endian), then the refutation's numbers to
// the end; bytes behind the last whole number are ignored. Prints `passes` or `refused number place`. An input of
// fewer than 8 bytes is `refused 1` and its length; a formula that is cut short leaves no refutation. Its room: an
// input of 524,288 bytes (a longer one: `refused 9 524289`). What matters is refute::check's contract. Assumes
// nothing of its own.
#![tactic(auto)]

use console::Lists;
use refusal::Refusal;
use std::io::{self, Write};

// The input taken apart.
fn answer<W: Write>(out: &mut W, input: &[u8]) -> io::Result<()> {
    if input.len() < 8 {
        return console::print_refused(out, Refusal::Short(input.len()));
    }
    let mut lists = Lists { rest: input };
    let variables = lists.number();
    let mut numbers = [0i32; 131072];
    let split = lists.numbers(&mut numbers);
    let (formula, room) = numbers.split_at_mut(split);
    let count = (lists.rest.len() / 4).min(room.len());
    let refutation = &mut room[..count];
    console::numbers_of(lists.rest, refutation);
    let mut propagation = [0u8; 100001];
    match refute::check(variables, formula, refutation, &mut propagation) {
        Ok(()) => writeln!(out, "passes"),
        Err(refusal) => console::print_refused(out, refusal),
    }
}

fn main(rt: HostRuntime) -> io::Result<()> {
    let mut input = [0u8; 524289];
    let got = console::read(&mut rt.reader(), &mut input)?;
    let mut out = io::writer(&rt);
    if 524288 < got {
        return console::print_refused(&mut out, Refusal::Room(524289));
    }
    answer(&mut out, &input[..got])
}
