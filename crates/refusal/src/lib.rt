// The table of refusals (rule T1) as one enum, and the number and place that each case stands for. Assumes nothing.
#![tactic(auto)]

ghost use Rattle.std.specs.Prelude.{◌≡◌, Some};
ghost use Rattle.refusal.specs.Table.{number_of, place_of, refusal_text};

use std::error::Error;
use std::fmt;

// One case a row of the table, in its order; a case carries its place where the place is not always 0.
#[derive(Clone, Copy, Debug, PartialEq, Eq)]
pub enum Refusal {
    Short(usize),
    Version(usize),
    Count(usize),
    Back,
    Gate(usize),
    Pin(usize),
    Output(usize),
    Vector(usize),
    Room(usize),
    Pairs,
    Formula(usize),
    Refutation(usize),
    Last(usize),
    Step(usize),
    Witness(u32),
    Arrival(usize),
    Fall(usize),
}

impl Refusal {
    // The row's number.
    pub fn number(self) -> u32
        ensures { result ≡ number_of self }
    {
        match self {
            Refusal::Short(_) => 1,
            Refusal::Version(_) => 2,
            Refusal::Count(_) => 3,
            Refusal::Back => 4,
            Refusal::Gate(_) => 5,
            Refusal::Pin(_) => 6,
            Refusal::Output(_) => 7,
            Refusal::Vector(_) => 8,
            Refusal::Room(_) => 9,
            Refusal::Pairs => 10,
            Refusal::Formula(_) => 11,
            Refusal::Refutation(_) => 12,
            Refusal::Last(_) => 13,
            Refusal::Step(_) => 14,
            Refusal::Witness(_) => 15,
            Refusal::Arrival(_) => 16,
            Refusal::Fall(_) => 19,
        }
    }

    // The place that goes with the number.
    pub fn place(self) -> usize
        ensures { result ≡ place_of self }
    {
        match self {
            Refusal::Back | Refusal::Pairs => 0,
            Refusal::Witness(time) => time as usize,
            Refusal::Short(place)
            | Refusal::Version(place)
            | Refusal::Count(place)
            | Refusal::Gate(place)
            | Refusal::Pin(place)
            | Refusal::Output(place)
            | Refusal::Vector(place)
            | Refusal::Room(place)
            | Refusal::Formula(place)
            | Refusal::Refutation(place)
            | Refusal::Last(place)
            | Refusal::Step(place)
            | Refusal::Arrival(place)
            | Refusal::Fall(place) => place,
        }
    }
}

impl fmt::Display for Refusal {
    ghost output = { λ refusal. Some (refusal_text refusal) };

    fn fmt<W: fmt::Write>(&self, f: &mut fmt::Formatter<W>) -> fmt::Result {
        let number = self.number();
        let place = self.place();
        write!(f, "refused {number} {place}")
    }
}

impl Error for Refusal {}
