// The library for a C host: seven functions on numbers and slices, each a call of the library and its answer as a
// struct of numbers. The crate buzzlumen_c exports them, and include/buzzlumen.h declares them. Assumes nothing.
#![tactic(auto)]

ghost use Rattle.std.specs.Prelude.{◌≡◌, length, replicate};
ghost use Rattle.settle.specs.Promise.{evaluation};
ghost use Rattle.formula.specs.Promise.{building};
ghost use Rattle.refute.specs.Promise.{Checks};
ghost use Rattle.certificate.specs.Promise.{rooms_of};
ghost use Rattle.buzzlumen.specs.Answers.{
  evaluated_of,
  formed_of,
  checked_of,
  Small,
  Evaluates,
  Builds,
  Says,
  Certifies,
};
ghost use Rattle.netlist.specs.Netlist.{alike, apart};

use formula::Counts;
use netlist::Form;
use refusal::Refusal;

// The answer of an evaluation.
#[repr(C)]
#[derive(Clone, Copy, Debug, PartialEq, Eq)]
pub struct Evaluated {
    pub number: u32,
    pub time: u32,
    pub place: u64,
}

// The answer of a building call.
#[repr(C)]
#[derive(Clone, Copy, Debug, PartialEq, Eq)]
pub struct Formed {
    pub number: u32,
    pub variables: u32,
    pub place: u64,
    pub clauses: u64,
    pub numbers: u64,
    pub pairs: u64,
}

// The answer of a check or of a certificate call: 0 or a refusal's number, and its place.
#[repr(C)]
#[derive(Clone, Copy, Debug, PartialEq, Eq)]
pub struct Answer {
    pub number: u32,
    pub place: u64,
}

impl From<Result<u32, Refusal>> for Evaluated {
    ghost from_gives = { λ answer numbers. numbers ≡ evaluated_of answer };

    // The numbers of an evaluation's answer.
    fn from(answer: Result<u32, Refusal>) -> Evaluated {
        match answer {
            Ok(time) => Evaluated {
                number: 0,
                time,
                place: 0,
            },
            Err(refusal) => Evaluated {
                number: refusal.number(),
                time: 0,
                place: refusal.place() as u64,
            },
        }
    }
}

impl From<Result<(), Refusal>> for Answer {
    ghost from_gives = { λ answer numbers. numbers ≡ checked_of answer };

    // The numbers of the answer of a check or of a certificate call.
    fn from(answer: Result<(), Refusal>) -> Answer {
        match answer {
            Ok(()) => Answer {
                number: 0,
                place: 0,
            },
            Err(refusal) => Answer {
                number: refusal.number(),
                place: refusal.place() as u64,
            },
        }
    }
}

impl Formed {
    // The numbers of a building call's answer. No `From`: that could not ask that the variables fit 32 bits.
    fn of(answer: Result<Counts, Refusal>) -> Formed
        requires { Small answer }
        ensures { result ≡ formed_of answer }
    {
        match answer {
            Ok(counts) => Formed {
                number: 0,
                variables: counts.variables as u32,
                place: 0,
                clauses: counts.clauses as u64,
                numbers: counts.numbers as u64,
                pairs: counts.pairs as u64,
            },
            Err(refusal) => Formed {
                number: refusal.number(),
                variables: 0,
                place: refusal.place() as u64,
                clauses: 0,
                numbers: 0,
                pairs: 0,
            },
        }
    }
}

// Values and times of all nodes under a vector.
pub fn buzzlumen_evaluate(
    netlist: &[u8],
    arrivals: &[u32],
    vector: &[u8],
    values: &mut [u8],
    times: &mut [u32],
) -> Evaluated
    ensures { Evaluates (evaluation netlist.now arrivals.now alike vector.now
        (length values.old) (length times.old)) result values.new times.new }
{
    Evaluated::from(settle::evaluate(netlist, arrivals, Form::Single, vector, values, times))
}

// The formula that says that some output settles at the target or later.
pub fn buzzlumen_build(
    netlist: &[u8],
    arrivals: &[u32],
    target: u32,
    pairs: &mut [u32],
    formula: &mut [i32],
) -> Formed
    ensures { Builds (building netlist.now arrivals.now alike target (length pairs.old)
        (length formula.old)) result pairs.new formula.new }
{
    Formed::of(formula::build(netlist, arrivals, Form::Single, target, pairs, formula))
}

// Whether each clause of a refutation follows.
pub fn buzzlumen_check<'a>(
    variables: u32,
    formula: &'a [i32],
    refutation: &'a [i32],
    propagation: &mut [u8],
) -> Answer
    ensures says { Says (Checks variables formula.now refutation.now (length propagation.old)) result }
    ensures propagation_after { propagation.new ≡ replicate (length propagation.old) 0 }
{
    Answer::from(refute::check(variables, formula, refutation, propagation))
}

// Whether a delay is the circuit's largest settling time by this certificate.
pub fn buzzlumen_judge(
    netlist: &[u8],
    arrivals: &[u32],
    delay: u32,
    vector: &[u8],
    refutation: &[i32],
    values: &mut [u8],
    times: &mut [u32],
    pairs: &mut [u32],
    formula: &mut [i32],
    propagation: &mut [u8],
) -> Answer
    ensures { Certifies netlist.now arrivals.now alike delay vector.now
        refutation.now
        (rooms_of values.old times.old pairs.old formula.old
        propagation.old)
        values.new times.new pairs.new formula.new propagation.new result }
{
    Answer::from(certificate::judge(
        netlist,
        arrivals,
        Form::Single,
        delay,
        vector,
        refutation,
        values,
        times,
        pairs,
        formula,
        propagation,
    ))
}

// ---- gates whose delays of rise and fall stand apart: calls of their own, by the names that C knows

// Values and times of all nodes under a vector, by the delays for each gate's final value.
pub fn buzzlumen_evaluate_rise_fall(
    netlist: &[u8],
    arrivals: &[u32],
    falls: &[u32],
    vector: &[u8],
    values: &mut [u8],
    times: &mut [u32],
) -> Evaluated
    ensures { Evaluates (evaluation netlist.now arrivals.now (apart falls.now)
        vector.now (length values.old) (length times.old)) result
        values.new times.new }
{
    let form = Form::RiseFall(falls);
    Evaluated::from(settle::evaluate(netlist, arrivals, form, vector, values, times))
}

// The formula that says that some output settles at the target or later, by these delays.
pub fn buzzlumen_build_rise_fall(
    netlist: &[u8],
    arrivals: &[u32],
    falls: &[u32],
    target: u32,
    pairs: &mut [u32],
    formula: &mut [i32],
) -> Formed
    ensures { Builds (building netlist.now arrivals.now (apart falls.now) target
        (length pairs.old) (length formula.old)) result pairs.new formula.new }
{
    let form = Form::RiseFall(falls);
    Formed::of(formula::build(netlist, arrivals, form, target, pairs, formula))
}

// Whether the delay that is claimed is the circuit's largest settling time by this certificate, by these delays.
pub fn buzzlumen_judge_rise_fall(
    netlist: &[u8],
    arrivals: &[u32],
    falls: &[u32],
    claimed: u32,
    vector: &[u8],
    refutation: &[i32],
    values: &mut [u8],
    times: &mut [u32],
    pairs: &mut [u32],
    formula: &mut [i32],
    propagation: &mut [u8],
) -> Answer
    ensures { Certifies netlist.now arrivals.now (apart falls.now) claimed
        vector.now refutation.now
        (rooms_of values.old times.old pairs.old formula.old
        propagation.old)
        values.new times.new pairs.new formula.new propagation.new result }
{
    Answer::from(certificate::judge(
        netlist,
        arrivals,
        Form::RiseFall(falls),
        claimed,
        vector,
        refutation,
        values,
        times,
        pairs,
        formula,
        propagation,
    ))
}
