// Reads a run of cases from standard input and prints a line for each. A case is: the formula's count of numbers and
// its numbers, the refutation's count and numbers, the number of a clause, and a place in the formula, each 4 bytes,
// little endian, two's complement; of a count, a number and a place the sign is ignored. What is missing at the end of
// the input is left out of a list, and 0 for a number. The line: `clause` and the part that has the number, `reader`
// and the part at the place, `next` and the place past it, `second` and the formula's second clause, `places` and
// where a reader stands after each of four steps from the start. Its room: an input of 65,536 bytes. What matters are
// the contracts of refute::clause and of reader. Assumes nothing of its own.
#![tactic(auto)]

ghost use Rattle.std.specs.Prelude.{◌-◌, ◌≤◌, length};

use std::io::{self, Write};

// The numbers of a part.
fn print_part<W: Write>(out: &mut W, part: &[i32]) -> io::Result<()> {
    for &number in part {
        let code = clauses::code_of(number);
        write!(out, "{}{}", [" ", " -"][code % 2], code / 2)?;
    }
    Ok(())
}

// The line of one case.
fn answer<'a, W: Write>(
    out: &mut W,
    formula: &'a [i32],
    refutation: &'a [i32],
    number: usize,
    place: usize,
) -> io::Result<()> {
    write!(out, "clause")?;
    print_part(out, refute::clause(formula, refutation, number))?;
    write!(out, " reader")?;
    print_part(out, reader::clause_from(formula, place))?;
    write!(out, " next {}", reader::next_from(formula, place))?;
    write!(out, " second")?;
    print_part(out, reader::second_clause(formula))?;
    write!(out, " places")?;
    let mut at = 0;
    for _ in 0..4 {
        at = reader::next_from(formula, at);
        console::print_number(out, at)?;
    }
    writeln!(out)
}

// The magnitude of the next number; 0 where the input has ended.
fn take_magnitude(rest: &mut &[i32]) -> usize
    ensures { length rest.new.now ≤ length rest.old.now - 1 }
{
    let Some((&number, behind)) = rest.split_first() else {
        return 0;
    };
    *rest = behind;
    clauses::variable_of(number)
}

// The next list, behind its count, as far as it goes.
fn take_list<'a>(rest: &mut &'a [i32]) -> &'a [i32]
    ensures { length rest.new.now ≤ length rest.old.now - 1 }
{
    let count = take_magnitude(rest).min(rest.len());
    let (list, behind) = rest.split_at(count);
    *rest = behind;
    list
}

// Every case.
fn run<W: Write>(out: &mut W, numbers: &[i32]) -> io::Result<()> {
    let mut rest = numbers;
    while !rest.is_empty() {
        let formula = take_list(&mut rest);
        let refutation = take_list(&mut rest);
        let number = take_magnitude(&mut rest);
        let place = take_magnitude(&mut rest);
        answer(out, formula, refutation, number, place)?;
    }
    Ok(())
}

fn main(rt: HostRuntime) -> io::Result<()> {
    let mut input = [0u8; 65536];
    let mut numbers = [0i32; 16384];
    let got = console::read(&mut rt.reader(), &mut input)?;
    let numbers = &mut numbers[..got / 4];
    console::numbers_of(&input[..got], numbers);
    run(&mut io::writer(&rt), numbers)
}
