// Prints the timing formula for a target as DIMACS CNF. Standard input: the target (4 bytes, little endian), then the
// netlist to the end. Prints `p cnf V C`, then every clause as a line; or `refused number place`, with the places of
// the netlist by itself. Of fewer than 4 bytes it says `refused 1` and how many there were. It has room for a netlist
// of 65,532 bytes, and of a longer one says `refused 9 65533`; for 8,192 pairs; and for 16,384 numbers (rules W2 and
// W3). Every input arrives at 0. What matters is formula::build's contract. Assumes nothing of its own.
#![tactic(auto)]

ghost use Rattle.std.specs.Prelude.{◌≤◌};

use console::Lists;
use formula::Counts;
use netlist::Form;
use refusal::Refusal;
use std::io::{self, Write};

// The header with the counts of variables and clauses, then the clauses, one a line: a 0 ends its line, after any other
// number comes a space.
fn print_formula<W: Write>(out: &mut W, counts: Counts, formula: &[i32]) -> io::Result<()> {
    writeln!(out, "p cnf {} {}", counts.variables, counts.clauses)?;
    for &number in &formula[..counts.numbers.min(formula.len())] {
        let code = clauses::code_of(number);
        let variable = code / 2;
        if code == 0 {
            writeln!(out, "0")?;
        } else if code % 2 == 1 {
            write!(out, "-{variable} ")?;
        } else {
            write!(out, "{variable} ")?;
        }
    }
    Ok(())
}

// How many inputs the netlist has; none where it is refused.
fn input_count(file: &[u8]) -> usize
    ensures { result ≤ 64 }
{
    match netlist::open(file) {
        Ok(shape) => shape.inputs,
        Err(_) => 0,
    }
}

// The input taken apart, with an arrival of 0 for each input.
fn answer<W: Write>(out: &mut W, input: &[u8]) -> io::Result<()> {
    if input.len() < 4 {
        return console::print_refused(out, Refusal::Short(input.len()));
    }
    let mut lists = Lists { rest: input };
    let target = lists.number();
    let file = lists.rest;
    let arrivals = [0u32; 64];
    let arrivals = &arrivals[..input_count(file)];
    let mut pairs = [0u32; 16384];
    let mut formula = [0i32; 16384];
    match formula::build(
        file,
        arrivals,
        Form::Single,
        target,
        &mut pairs,
        &mut formula,
    ) {
        Ok(counts) => print_formula(out, counts, &formula),
        Err(refusal) => console::print_refused(out, refusal),
    }
}

fn main(rt: HostRuntime) -> io::Result<()> {
    let mut input = [0u8; 65537];
    let got = console::read(&mut rt.reader(), &mut input)?;
    let mut out = io::writer(&rt);
    if 65536 < got {
        return console::print_refused(&mut out, Refusal::Room(65533));
    }
    answer(&mut out, &input[..got])
}
