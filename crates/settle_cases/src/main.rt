// Reads a bundle of cases from standard input: a netlist, its arrivals and a vector, each a length (4 bytes, little
// endian) and that many bytes, or numbers of 4 bytes for the arrivals, then the room for values and the room for times
// (4 bytes each). Both slices are lent from arrays that are filled with a pattern. For each case it prints one line:
// `settled time` or `refused number place`, then ` values` and ` times`, each followed by what was lent and four
// numbers behind it. It ends with the line `bad bundle` at a netlist over 65,535 bytes, over 255 arrivals, a vector
// over 255, a room over 600, and a case that is cut short. What matters is the contract of settle::evaluate. Assumes
// nothing of its own.
#![tactic(auto)]

ghost use Rattle.std.specs.Prelude.{◌≤◌};

use console::Stop;
use netlist::Form;
use std::io::{self, Read, Write};

// The line of one case.
fn answer<W: Write>(
    out: &mut W,
    file: &[u8],
    arrivals: &[u32],
    vector: &[u8],
    values_room: usize,
    times_room: usize,
) -> io::Result<()>
    requires { (values_room ≤ 600) × (times_room ≤ 600) }
{
    let mut values = [170u8; 608];
    let mut times = [2863311530u32; 608];
    let answer = settle::evaluate(
        file,
        arrivals,
        Form::Single,
        vector,
        &mut values[..values_room],
        &mut times[..times_room],
    );
    match answer {
        Ok(time) => write!(out, "settled {time}")?,
        Err(refusal) => console::print_refusal(out, refusal)?,
    }
    write!(out, " values")?;
    for &value in &values[..values_room + 4] {
        console::print_number(out, value as usize)?;
    }
    write!(out, " times")?;
    for &time in &times[..times_room + 4] {
        console::print_number(out, time as usize)?;
    }
    writeln!(out)
}

// One case; whether there was one.
fn take_case<R: Read, W: Write>(input: &mut R, out: &mut W) -> Result<bool, Stop> {
    let Some(length) = console::read_count(input, 65535)? else {
        return Ok(false);
    };
    let mut file = [0u8; 65535];
    let file = &mut file[..length];
    console::fill(input, file)?;

    let count = console::read_count(input, 255)?.ok_or(Stop::Bad)?;
    let mut bytes = [0u8; 1020];
    let bytes = &mut bytes[..count * 4];
    console::fill(input, bytes)?;
    let mut arrivals = [0u32; 255];
    let arrivals = &mut arrivals[..count];
    console::numbers_of(bytes, arrivals);

    let length = console::read_count(input, 255)?.ok_or(Stop::Bad)?;
    let mut vector = [0u8; 255];
    let vector = &mut vector[..length];
    console::fill(input, vector)?;

    // both rooms are read before one is looked at
    let mut bytes = [0u8; 8];
    console::fill(input, &mut bytes)?;
    let mut rooms = [0u32; 2];
    console::numbers_of(&bytes, &mut rooms);
    let values_room = rooms[0] as usize;
    let times_room = rooms[1] as usize;
    if 600 < values_room || 600 < times_room {
        return Err(Stop::Bad);
    }
    answer(out, file, arrivals, vector, values_room, times_room)?;
    Ok(true)
}

// A proved loop has to end, and nothing says that a bundle does: no run uses up so many turns.
fn main(rt: HostRuntime) -> io::Result<()> {
    let mut input = rt.reader();
    let mut out = io::writer(&rt);
    for _ in 0..u64::MAX {
        let case = take_case(&mut input, &mut out);
        if !console::goes_on(&mut out, case)? {
            break;
        }
    }
    Ok(())
}
