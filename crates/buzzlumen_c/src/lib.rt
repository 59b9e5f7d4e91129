// What include/buzzlumen.h declares: the exports for a C host. Each is a call of buzzlumen's function of the same name,
// with its clauses. Assumes nothing.
#![tactic(auto)]

ghost use Rattle.std.specs.Prelude.{◌≡◌, length, replicate};
ghost use Rattle.settle.specs.Promise.{evaluation};
ghost use Rattle.formula.specs.Promise.{building};
ghost use Rattle.refute.specs.Promise.{Checks};
ghost use Rattle.certificate.specs.Promise.{rooms_of};
ghost use Rattle.buzzlumen.specs.Answers.{Evaluates, Builds, Says, Certifies};
ghost use Rattle.netlist.specs.Netlist.{alike, apart};

use buzzlumen::{Answer, Evaluated, Formed};

// Values and times of all nodes under a vector.
#[unsafe(no_mangle)]
pub extern "C" fn buzzlumen_evaluate(
    netlist: &[u8],
    arrivals: &[u32],
    vector: &[u8],
    values: &mut [u8],
    times: &mut [u32],
) -> Evaluated
    ensures { Evaluates (evaluation netlist.now arrivals.now alike vector.now
        (length values.old) (length times.old)) result values.new times.new }
{
    buzzlumen::buzzlumen_evaluate(netlist, arrivals, vector, values, times)
}

// The formula that says that some output settles at the target or later.
#[unsafe(no_mangle)]
pub extern "C" fn buzzlumen_build(
    netlist: &[u8],
    arrivals: &[u32],
    target: u32,
    pairs: &mut [u32],
    formula: &mut [i32],
) -> Formed
    ensures { Builds (building netlist.now arrivals.now alike target (length pairs.old)
        (length formula.old)) result pairs.new formula.new }
{
    buzzlumen::buzzlumen_build(netlist, arrivals, target, pairs, formula)
}

// Whether each clause of a refutation follows.
#[unsafe(no_mangle)]
pub extern "C" fn buzzlumen_check<'a>(
    variables: u32,
    formula: &'a [i32],
    refutation: &'a [i32],
    propagation: &mut [u8],
) -> Answer
    ensures says { Says (Checks variables formula.now refutation.now (length propagation.old)) result }
    ensures propagation_after { propagation.new ≡ replicate (length propagation.old) 0 }
{
    buzzlumen::buzzlumen_check(variables, formula, refutation, propagation)
}

// Whether a delay is the circuit's largest settling time by this certificate.
#[unsafe(no_mangle)]
pub extern "C" fn buzzlumen_judge(
    netlist: &[u8],
    arrivals: &[u32],
    delay: u32,
    vector: &[u8],
    refutation: &[i32],
    values: &mut [u8],
    times: &mut [u32],
    pairs: &mut [u32],
    formula: &mut [i32],
    propagation: &mut [u8],
) -> Answer
    ensures { Certifies netlist.now arrivals.now alike delay vector.now
        refutation.now
        (rooms_of values.old times.old pairs.old formula.old
        propagation.old)
        values.new times.new pairs.new formula.new propagation.new result }
{
    buzzlumen::buzzlumen_judge(
        netlist,
        arrivals,
        delay,
        vector,
        refutation,
        values,
        times,
        pairs,
        formula,
        propagation,
    )
}

// ---- gates whose delays of rise and fall stand apart: calls of their own, by the names that C knows

// Values and times of all nodes under a vector, by the delays for each gate's final value.
#[unsafe(no_mangle)]
pub extern "C" fn buzzlumen_evaluate_rise_fall(
    netlist: &[u8],
    arrivals: &[u32],
    falls: &[u32],
    vector: &[u8],
    values: &mut [u8],
    times: &mut [u32],
) -> Evaluated
    ensures { Evaluates (evaluation netlist.now arrivals.now (apart falls.now)
        vector.now (length values.old) (length times.old)) result
        values.new times.new }
{
    buzzlumen::buzzlumen_evaluate_rise_fall(netlist, arrivals, falls, vector, values, times)
}

// The formula that says that some output settles at the target or later, by these delays.
#[unsafe(no_mangle)]
pub extern "C" fn buzzlumen_build_rise_fall(
    netlist: &[u8],
    arrivals: &[u32],
    falls: &[u32],
    target: u32,
    pairs: &mut [u32],
    formula: &mut [i32],
) -> Formed
    ensures { Builds (building netlist.now arrivals.now (apart falls.now) target
        (length pairs.old) (length formula.old)) result pairs.new formula.new }
{
    buzzlumen::buzzlumen_build_rise_fall(netlist, arrivals, falls, target, pairs, formula)
}

// Whether the delay that is claimed is the circuit's largest settling time by this certificate, by these delays.
#[unsafe(no_mangle)]
pub extern "C" fn buzzlumen_judge_rise_fall(
    netlist: &[u8],
    arrivals: &[u32],
    falls: &[u32],
    claimed: u32,
    vector: &[u8],
    refutation: &[i32],
    values: &mut [u8],
    times: &mut [u32],
    pairs: &mut [u32],
    formula: &mut [i32],
    propagation: &mut [u8],
) -> Answer
    ensures { Certifies netlist.now arrivals.now (apart falls.now) claimed
        vector.now refutation.now
        (rooms_of values.old times.old pairs.old formula.old
        propagation.old)
        values.new times.new pairs.new formula.new propagation.new result }
{
    buzzlumen::buzzlumen_judge_rise_fall(
        netlist,
        arrivals,
        falls,
        claimed,
        vector,
        refutation,
        values,
        times,
        pairs,
        formula,
        propagation,
    )
}
