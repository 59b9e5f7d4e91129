// Reads a run of refutation checks from standard input and prints the answer to each on a line of its own. A case is:
// the variable count, the formula's count of numbers and its numbers, the refutation's count and numbers, and the room
// for propagation, each 4 bytes, little endian, two's complement. What is missing at the end of the input reads as 0.
// What matters is the contract of refute::check. Assumes nothing of its own.
#![tactic(auto)]

ghost use Rattle.std.specs.Prelude.{◌≤◌, length};

use console::{FromWord, Lists};
use std::io::{self, Write};

// A list of as many numbers as are told and have room, those that are missing 0; how many.
fn read_list(lists: &mut Lists, numbers: &mut [i32]) -> usize
    ensures { result ≤ length numbers.new }
{
    let count = (lists.number() as usize).min(numbers.len());
    for number in &mut numbers[..count] {
        *number = i32::from_word(lists.number() as usize);
    }
    count
}

// One check: the answer, whether the lent part of the slice is zeroed, and whether the four bytes behind it are
// untouched. The room is lent, for to zero it costs more than most checks.
fn check_case<W: Write>(
    out: &mut W,
    lists: &mut Lists,
    formula: &mut [i32],
    refutation: &mut [i32],
    propagation: &mut [u8; 4100],
) -> io::Result<()> {
    propagation.fill(170);
    let variables = lists.number();
    let formula_count = read_list(lists, formula);
    let refutation_count = read_list(lists, refutation);
    let room = (lists.number() as usize).min(4096);
    let answer = refute::check(
        variables,
        &formula[..formula_count],
        &refutation[..refutation_count],
        &mut propagation[..room],
    );
    match answer {
        Ok(()) => write!(out, "passes")?,
        Err(refusal) => console::print_refusal(out, refusal)?,
    }
    if propagation[..room].iter().all(|&byte| byte == 0) {
        write!(out, " zeros")?;
    }
    if propagation[room..room + 4].iter().all(|&byte| byte == 170) {
        write!(out, " guards")?;
    }
    writeln!(out)
}

// Every case of the input, each of which takes a byte at least.
fn run<W: Write>(out: &mut W, input: &[u8]) -> io::Result<()> {
    let mut formula = [0i32; 4096];
    let mut refutation = [0i32; 4096];
    let mut propagation = [0u8; 4100];
    let mut lists = Lists { rest: input };
    for _ in 0..input.len() {
        if lists.rest.is_empty() {
            break;
        }
        check_case(
            out,
            &mut lists,
            &mut formula,
            &mut refutation,
            &mut propagation,
        )?;
    }
    Ok(())
}

fn main(rt: HostRuntime) -> io::Result<()> {
    let mut input = [0u8; 65536];
    let got = console::read(&mut rt.reader(), &mut input)?;
    run(&mut io::writer(&rt), &input[..got])
}
