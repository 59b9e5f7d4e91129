// A reader of a formula: a slice with a place in it, from which it hands out clause after clause (rules L5 and L6). Its
// methods are thin; the work is done by functions on a plain slice and a place. Assumes nothing.
#![tactic(auto)]

ghost use Rattle.std.specs.Prelude.{◌≡◌, [], ◌-◌, ◌≤◌, length, get_or};
ghost use Rattle.refute.specs.Parts.{parts};
ghost use Rattle.reader.specs.Reading.{length_at, next_at, PartAt};

// The formula, and the place where the next clause starts.
#[derive(Clone, Copy)]
pub struct Reader<'a> {
    pub formula: &'a [i32],
    pub at: usize,
}

// How many numbers the clause at a place has, its 0 among them; none where no 0 is left or the place is past the end.
pub fn length_from(list: &[i32], at: usize) -> usize
    ensures value { result ≡ length_at list.now at }
    ensures within { result ≤ length list.now - at }
{
    if list.len() <= at {
        return 0;
    }
    match refute::next_zero(list, at) {
        Some(zero) => zero - at + 1,
        None => 0,
    }
}

// The clause at a place, with its 0, as a part of the slice; where there is none, the empty part at the slice's end.
pub fn clause_from(list: &[i32], at: usize) -> &[i32]
    ensures { PartAt list.entry at result }
{
    let length = length_from(list, at);
    if length == 0 {
        return &list[list.len()..];
    }
    &list[at..at + length]
}

// The place past the clause at a place; the same place where there is none.
#[tactic(auto, unfolding(crate::specs::Reading::next_at))]
pub fn next_from(list: &[i32], at: usize) -> usize
    ensures { result ≡ next_at list.now at }
{
    at + length_from(list, at)
}

// A reader at the formula's first number.
pub fn read(formula: &[i32]) -> Reader<'_>
    ensures formula { result.formula ≡ formula.entry }
    ensures at { result.at ≡ 0 }
{
    Reader { formula, at: 0 }
}

impl<'a> Reader<'a> {
    // The clause at the reader's place.
    pub fn clause(self) -> &'a [i32]
        ensures { PartAt self.entry.formula self.entry.at result }
    {
        clause_from(self.formula, self.at)
    }

    // The reader past its clause; where there is none, it stays.
    pub fn step(self) -> Self
        ensures formula { result.formula ≡ self.entry.formula }
        ensures at { result.at ≡ next_at self.entry.formula.now self.entry.at }
    {
        Reader {
            at: next_from(self.formula, self.at),
            ..self
        }
    }
}

// The clause that a reader of the formula gives after one step: the formula's second, or the empty part at its end. Who
// calls it needs no reader of his own.
pub fn second_clause(formula: &[i32]) -> &[i32]
    ensures second { result.now ≡ get_or (parts formula.now) 1 [] }
    ensures part { PartAt formula.entry (next_at formula.now 0) result }
{
    read(formula).step().clause()
}
