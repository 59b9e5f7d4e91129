// The refutation: each clause in turn follows by unit propagation, or its number is named. Assumes nothing.
#![tactic(auto)]

ghost use Rattle.std.specs.Prelude.{◌≡◌, [], ◌∷◌, suc, ◌+◌, ◌/◌, ◌%◌, ◌^◌, ◌≤◌, ◌<◌, nat_lt, T, pos, length, get_or};
ghost use Rattle.std.specs.Prelude.{position, replicate, MatchOption, IfOk};
ghost use Rattle.refusal.specs.Rows.{checked, room_row};
ghost use Rattle.clauses.specs.Clauses.{clauses_of};
ghost use Rattle.clauses.specs.Codes.{code_of};
ghost use Rattle.refute.specs.Parts.{found_in, span_of, InList, SpanInList, ClausePart};
ghost use Rattle.refute.specs.Passes.{assert};
ghost use Rattle.refute.specs.Promise.{Checks, Tested};
ghost use Rattle.refute.specs.Reading.{literals_of, looked, outcome, follows_from, verdict_on};
ghost use Rattle.refute.specs.Reading.{Within, Stored, NextZero};
ghost use Rattle.refute.specs.Rows.{ended, formula_rows, refutation_form, last_row};
ghost use Rattle.refute.specs.Rows.{refutation_rows, WellFormed};

use refusal::Refusal;

// The most variables of a formula.
const MOST_VARIABLES: usize = 100000;

// From one place of a list up to another. Not std's `Range`, which can't be copied.
#[derive(Clone, Copy)]
pub struct Stretch {
    pub start: usize,
    pub end: usize,
}

// Where a clause stands: in which of the two lists, and where there.
#[derive(Clone, Copy)]
pub enum Span {
    Formula(Stretch),
    Refutation(Stretch),
}

// The place of the first number of magnitude over the variable count.
fn first_beyond(variables: usize, list: &[i32]) -> Option<usize>
    ensures { result ≡ position (λ number. nat_lt variables (code_of number / 2)) list.now }
{
    list.iter()
        .position(|&number| variables < clauses::variable_of(number))
}

// Whether the last number is 0; an empty list has none that is not.
fn is_ended(list: &[i32]) -> bool
    ensures { result ≡ ended list.now }
{
    list.is_empty() || clauses::variable_at(list, list.len() - 1) == 0
}

// Row 11, FORMULA.
#[tactic(auto, using(crate::proofs::Walking::first_place), unfolding(crate::specs::Rows::formula_rows))]
fn formula_rows(variables: usize, formula: &[i32]) -> Result<(), Refusal>
    ensures { result ≡ checked (formula_rows variables formula.now) }
{
    if MOST_VARIABLES < variables {
        return Err(Refusal::Formula(0));
    }
    if let Some(place) = first_beyond(variables, formula) {
        return Err(Refusal::Formula(place));
    }
    if !is_ended(formula) {
        return Err(Refusal::Formula(formula.len()));
    }
    Ok(())
}

// Row 12, REFUTATION.
#[tactic(auto, using(crate::proofs::Walking::first_place), unfolding(crate::specs::Rows::refutation_form))]
fn refutation_form(variables: usize, refutation: &[i32]) -> Result<(), Refusal>
    ensures { result ≡ checked (refutation_form variables refutation.now) }
{
    if let Some(place) = first_beyond(variables, refutation) {
        return Err(Refusal::Refutation(place));
    }
    if refutation.is_empty() || !is_ended(refutation) {
        return Err(Refusal::Refutation(refutation.len()));
    }
    Ok(())
}

// The place of the first 0 from a place on.
pub fn next_zero(list: &[i32], from: usize) -> Option<usize>
    requires { from ≤ length list.now }
    ensures { MatchOption result (NextZero list.now from (length list.now))
        (λ zero. (zero < length list.now) × NextZero list.now from zero) }
{
    for i in from..list.len() {
        if clauses::code_at(list, i) == 0 {
            return Some(i);
        }
    }
    None
}

// Row 13, LAST: the first empty clause has to be the last clause. The loop steps by clauses, for which there is no
// range, and counts them.
fn last_row(refutation: &[i32]) -> Result<(), Refusal>
    ensures { result ≡ checked (last_row (clauses_of refutation.now) ∷ []) }
{
    let mut start = 0;
    let mut number = 0;
    while let Some(zero) = next_zero(refutation, start) {
        if zero == start {
            return match next_zero(refutation, zero + 1) {
                Some(_) => Err(Refusal::Last(number)),
                None => Ok(()),
            };
        }
        start = zero + 1;
        number += 1;
    }
    Err(Refusal::Last(number))
}

// Row 9, ROOM.
fn room_row(variables: usize, room: usize) -> Result<(), Refusal>
    requires { variables < 2 ^ 32 }
    ensures { result ≡ checked (room_row (suc variables) room ∷ []) }
{
    if room < variables + 1 {
        return Err(Refusal::Room(variables + 1));
    }
    Ok(())
}

// Rows 12, 13 and 9, in this order.
#[tactic(auto, unfolding(crate::specs::Rows::refutation_form, crate::specs::Rows::last_row))]
fn refutation_rows(variables: usize, refutation: &[i32], room: usize) -> Result<(), Refusal>
    requires { variables < 2 ^ 32 }
    ensures { result ≡ checked (refutation_rows variables refutation.now room) }
{
    refutation_form(variables, refutation)?;
    last_row(refutation)?;
    room_row(variables, room)
}

// The mark of a variable under which the literal of a code is true: 1 for the variable, 2 for its opposite; 0 is the
// mark of a variable that is free. Bytes and no enum, since the slice is one that a C caller lends.
fn mark_of(code: usize) -> u8
    ensures { result ≡ code % 2 + 1 }
{
    (code % 2 + 1) as u8
}

// What the literals of a clause say under the marks: that it is false, that the literal of a code has to become true,
// or nothing, and then there is nothing to say whatever comes after them.
#[derive(Clone, Copy)]
pub enum Scan {
    Refuted,
    Forces(usize),
    Quiet,
}

impl Scan {
    // With one literal more, by the mark of its variable. The code is made only after that: it costs more.
    fn look(self, list: &[i32], at: usize, marks: &[u8]) -> Scan
        requires within { at < length list.now }
        requires marked { code_of (get_or list.now at (pos 0)) / 2 < length marks.now }
        ensures { result ≡ looked marks.now self (code_of (get_or list.now at (pos 0))) }
    {
        let variable = clauses::variable_at(list, at);
        let mark = marks[variable];
        if mark == 0 {
            let code = clauses::code_at(list, at);
            return match self {
                Scan::Refuted => Scan::Forces(code),
                Scan::Forces(first) if first == code => self,
                _ => Scan::Quiet,
            };
        }
        if mark == mark_of(clauses::code_at(list, at)) {
            return Scan::Quiet;
        }
        self
    }
}

// The place of the first 0 from a place on, in a list that ends in 0. No range: a test of each place against the length
// costs a check an eighth.
fn clause_end(list: &[i32], from: usize) -> usize
    requires ended { T (ended list.now) }
    requires within { from < length list.now }
    ensures within { result < length list.now }
    ensures next { NextZero list.now from result }
{
    let mut end = from;
    while clauses::code_at(list, end) != 0 {
        end += 1;
    }
    end
}

// The opposite of each literal becomes true; false, and the marks are theirs, unless two of them contradict.
fn assert_opposites(clause: &[i32], marks: &mut [u8]) -> bool
    requires { Within (length marks.old) clause.now }
    ensures { assert marks.old (literals_of clause.now) ≡ outcome result marks.new }
{
    for &number in clause {
        let code = clauses::code_of(number);
        let variable = code / 2;
        let mark = mark_of(code);
        if marks[variable] == mark {
            return true;
        }
        marks[variable] = 3 - mark;
    }
    false
}

// Whether a clause, given without its 0, follows from the formula and the earlier clauses. The passes go over both
// lists in order and assign as they go; the first clause with every literal false ends them, and so does a pass that
// assigns none. A clause that can say nothing is left at once. Both lists end in 0, so that within a clause no place is
// tested. The loops and the label are the form that rule M5 asks for.
fn follows(formula: &[i32], earlier: &[i32], clause: &[i32], marks: &mut [u8]) -> bool
    requires clear { marks.old ≡ replicate (length marks.old) 0 }
    requires formula { Stored (length marks.old) formula.now }
    requires earlier { Stored (length marks.old) earlier.now }
    requires clause { Within (length marks.old) clause.now }
    ensures { result ≡ follows_from marks.old formula.now earlier.now clause.now }
{
    if assert_opposites(clause, marks) {
        return true;
    }
    'passes: loop {
        let mut changed = false;
        for list in [formula, earlier] {
            let mut start = 0;
            while start < list.len() {
                let mut scan = Scan::Refuted;
                let mut at = start;
                while clauses::variable_at(list, at) != 0 {
                    scan = scan.look(list, at, marks);
                    at += 1;
                    if let Scan::Quiet = scan {
                        at = clause_end(list, at);
                        break;
                    }
                }
                match scan {
                    Scan::Refuted => break 'passes true,
                    Scan::Forces(code) => {
                        marks[code / 2] = mark_of(code);
                        changed = true;
                    }
                    Scan::Quiet => {}
                }
                start = at + 1;
            }
        }
        if !changed {
            break false;
        }
    }
}

// The verdict on the refutation's clauses, each tested against the formula and the clauses before it. The loop steps by
// clauses and counts them.
fn judge_clauses(formula: &[i32], refutation: &[i32], marks: &mut [u8]) -> Result<(), Refusal>
    requires clear { marks.old ≡ replicate (length marks.old) 0 }
    requires formula { Stored (length marks.old) formula.now }
    requires refutation { Within (length marks.old) refutation.now }
    ensures value { result ≡ verdict_on marks.old formula.now refutation.now }
    ensures marks_after { marks.new ≡ replicate (length marks.old) 0 }
{
    let mut start = 0;
    let mut number = 0;
    while let Some(end) = next_zero(refutation, start) {
        let found = follows(
            formula,
            &refutation[..start],
            &refutation[start..end],
            marks,
        );
        marks.fill(0);
        if !found {
            return Err(Refusal::Step(number));
        }
        start = end + 1;
        number += 1;
    }
    Ok(())
}

// Rows 12, 13, 9 and 14 for a formula that is known to be well formed, with a slice of zeros, which it is again after.
fn test_cleared(
    variables: usize,
    formula: &[i32],
    refutation: &[i32],
    propagation: &mut [u8],
) -> Result<(), Refusal>
    requires well_formed { WellFormed variables formula.now }
    requires clear { propagation.old ≡ replicate (length propagation.old) 0 }
    ensures tested { Tested variables formula.now refutation.now (length propagation.old) result }
    ensures propagation_after { propagation.new ≡ replicate (length propagation.old) 0 }
{
    refutation_rows(variables, refutation, propagation.len())?;
    judge_clauses(formula, refutation, &mut propagation[..variables + 1])
}

// The same with any slice. It is zeroed, before and after.
pub fn test(
    variables: usize,
    formula: &[i32],
    refutation: &[i32],
    propagation: &mut [u8],
) -> Result<(), Refusal>
    requires { WellFormed variables formula.now }
    ensures tested { Tested variables formula.now refutation.now (length propagation.old) result }
    ensures propagation_after { propagation.new ≡ replicate (length propagation.old) 0 }
{
    propagation.fill(0);
    test_cleared(variables, formula, refutation, propagation)
}

// A separate check: rows 11, 12, 13, 9 and 14, for any numbers. The slice is zeroed on every way out.
pub fn check(
    variables: u32,
    formula: &[i32],
    refutation: &[i32],
    propagation: &mut [u8],
) -> Result<(), Refusal>
    ensures checks { Checks variables formula.now refutation.now (length propagation.old) result }
    ensures propagation_after { propagation.new ≡ replicate (length propagation.old) 0 }
{
    propagation.fill(0);
    let variables = variables as usize;
    formula_rows(variables, formula)?;
    test_cleared(variables, formula, refutation, propagation)
}

// Where the clause with a number stands in one list, its 0 included; or how many the number is beyond the clauses. The
// loop steps by clauses and counts them down.
fn find(list: &[i32], number: usize) -> Result<Stretch, usize>
    ensures found { result ≡ found_in list.now number }
    ensures within { IfOk result (InList list.now) }
{
    let mut start = 0;
    let mut left = number;
    while let Some(zero) = next_zero(list, start) {
        if left == 0 {
            return Ok(Stretch {
                start,
                end: zero + 1,
            });
        }
        left -= 1;
        start = zero + 1;
    }
    Err(left)
}

// Where the clause with a number stands, the formula's first.
pub fn span_of(formula: &[i32], refutation: &[i32], number: usize) -> Span
    ensures span { result ≡ span_of formula.now refutation.now number }
    ensures within { SpanInList formula.now refutation.now result }
{
    match find(formula, number) {
        Ok(part) => Span::Formula(part),
        Err(left) => match find(refutation, left) {
            Ok(part) => Span::Refutation(part),
            Err(_) => Span::Refutation(Stretch {
                start: refutation.len(),
                end: refutation.len(),
            }),
        },
    }
}

// The clause with a number, its 0 included, as the stretch of the list in which it lies, and not a copy. Beyond the
// last clause, the stretch of length 0 at the end of the refutation.
pub fn clause<'a>(formula: &'a [i32], refutation: &'a [i32], number: usize) -> &'a [i32]
    ensures { ClausePart formula.entry refutation.entry number result }
{
    match span_of(formula, refutation, number) {
        Span::Formula(part) => &formula[part.start..part.end],
        Span::Refutation(part) => &refutation[part.start..part.end],
    }
}
