// The judgement of a delay certificate: a delay, a vector that settles at it, and a refutation of the formula for one
// more; for circuits with one delay a pin, and for those with delays of rise and of fall. Assumes nothing.
#![tactic(auto)]

ghost use Rattle.std.specs.Prelude.{◌≡◌, suc, Ok};
ghost use Rattle.netlist.specs.Netlist.{slopes_of};
ghost use Rattle.netlist.specs.File.{circuit_of};
ghost use Rattle.netlist.specs.Open.{rows_over};
ghost use Rattle.clauses.specs.Clauses.{clauses_of};
ghost use Rattle.refute.specs.Promise.{Answers};
ghost use Rattle.formula.specs.Promise.{numbers_for};
ghost use Rattle.certificate.specs.Largest.{Largest};
ghost use Rattle.certificate.specs.Promise.{Meets, certificate_rows, certified, rooms_of, leaving, Judges};

use netlist::Form;
use refusal::Refusal;

// The checks in their order: the file, its arrivals and its form are accepted; the vector has a value for each input,
// there is room for values and times, and it settles at the delay; and the refutation is one of the formula for one
// more. What is refused leaves the slices as they then are. These stay apart: a struct of all five would serve this
// function alone.
fn certify<'a>(
    file: &'a [u8],
    arrivals: &'a [u32],
    form: Form<'a>,
    delay: u32,
    vector: &[u8],
    refutation: &[i32],
    values: &mut [u8],
    times: &mut [u32],
    pairs: &mut [u32],
    formula: &mut [i32],
    propagation: &mut [u8],
) -> Result<(), Refusal>
    ensures answers { Answers
        (rows_over file.now arrivals.now (slopes_of form.entry)
        (certificate_rows delay vector.now refutation.now
        (rooms_of values.old times.old pairs.old formula.old propagation.old)))
        (clauses_of (numbers_for (circuit_of file.now arrivals.now (slopes_of form.entry)) (suc delay)))
        (clauses_of refutation.now) result }
    ensures leaves { result ≡ Ok tt → Meets
        (certified (circuit_of file.now arrivals.now (slopes_of form.entry)) delay vector.now
        (rooms_of values.old times.old pairs.old formula.old propagation.old))
        (leaving result values.new times.new pairs.new formula.new propagation.new) }
{
    let accepted = netlist::accept(file, arrivals, form)?;
    let time = settle::evaluate_accepted(&accepted, vector, values, times)?;
    if time != delay {
        return Err(Refusal::Witness(time));
    }
    let counts = formula::build_accepted(&accepted, delay + 1, pairs, formula)?;
    let numbers = &formula[..counts.numbers];
    refute::test(counts.variables, numbers, refutation, propagation)
}

// The judgement of a certificate: a delay, a vector that settles at exactly it, and a refutation of the formula for
// one more. Ok means that the delay is the largest settling time of the file's netlist with these arrivals and delays,
// whoever wrote the certificate. A refusal leaves zeros in every lent slice.
pub fn judge(
    file: &[u8],
    arrivals: &[u32],
    form: Form<'_>,
    delay: u32,
    vector: &[u8],
    refutation: &[i32],
    values: &mut [u8],
    times: &mut [u32],
    pairs: &mut [u32],
    formula: &mut [i32],
    propagation: &mut [u8],
) -> Result<(), Refusal>
    ensures judges { Judges file.now arrivals.now (slopes_of form.entry) delay vector.now refutation.now
        (rooms_of values.old times.old pairs.old formula.old propagation.old)
        (leaving result values.new times.new pairs.new formula.new propagation.new) }
    ensures largest { result ≡ Ok tt → Largest (circuit_of file.now arrivals.now (slopes_of form.entry)) delay }
{
    let judged = certify(
        file,
        arrivals,
        form,
        delay,
        vector,
        refutation,
        values,
        times,
        pairs,
        formula,
        propagation,
    );
    if judged.is_err() {
        lent::zero(values);
        lent::zero(times);
        lent::zero(pairs);
        lent::zero(formula);
        lent::zero(propagation);
    }
    judged
}
