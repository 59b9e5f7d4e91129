// What the programs share: the lines that they print, and the numbers that they read. A thin layer over std's readers
// and writers, which asks for no memory. Every failure is the reader's or the writer's own, and is answered as it
// comes; a writer that takes nothing has failed. Assumes nothing.
#![tactic(auto)]

ghost use Rattle.std.specs.Prelude.{◌≡◌, false, ◌∷◌, [], ◌++◌, ◌+◌, ◌-◌, ◌*◌, ◌/◌, ◌<◌, ◌≤◌, ℕ, List};
ghost use Rattle.std.specs.Prelude.{min, length, drop, take, codes, IfOk, OnOk, OnErr, IfSome, ◌⊎◌};
ghost use Rattle.std.specs.Fmt.{decimal};
ghost use Rattle.std.specs.Io.{ReadsAtMost};
ghost use Rattle.std.specs.Io.KnownBytes.{Consumes, IsAtEnd};
ghost use Rattle.refusal.specs.Table.{number_text, refusal_text};
ghost use Rattle.clauses.specs.Codes.{signed_of};
ghost use Rattle.lent.specs.Bytes.{four_bytes};
ghost use Rattle.console.specs.Reading.{words_of, told_of, count_of, word_of, Came, counted_by};
ghost use Rattle.console.specs.Writing.{Written};

use refusal::Refusal;
use std::fmt::{Display, InlineText, Write as _};
use std::io::{self, ErrorKind, Read, Write};

// Words as they are. Where it fails, a front of them is written, and so it is with all that print below. That is what
// std's `write_all` does not say; the loop, which steps by what the writer took, is its.
pub fn print<W: Write>(out: &mut W, words: &[u8]) -> io::Result<()>
    ensures { Written (W.contents out.old) (W.contents out.new) result words.now }
{
    let mut done = 0;
    while done < words.len() {
        let taken = out.write(&words[done..])?;
        if taken == 0 {
            return Err(ErrorKind::WriteZero.into());
        }
        done += taken;
    }
    Ok(())
}

// The text of a value. One over 64 bytes, twice as many as any here has, fails before anything is written.
fn print_text<W: Write, D: Display + Drop>(out: &mut W, value: D) -> io::Result<()>
    ensures { IfSome (D.output value) (λ words. Written (W.contents out.old) (W.contents out.new) result words) }
{
    let mut text = InlineText::<64>::new();
    text.write(value)?;
    print(out, text.as_str().as_bytes())
}

// A number.
pub fn print_decimal<W: Write>(out: &mut W, number: usize) -> io::Result<()>
    ensures { Written (W.contents out.old) (W.contents out.new) result (decimal number) }
{
    print_text(out, number)
}

// A space and a number.
pub fn print_number<W: Write>(out: &mut W, number: usize) -> io::Result<()>
    ensures { Written (W.contents out.old) (W.contents out.new) result (number_text number) }
{
    print_text(out, format_args!(" {number}"))
}

// The words `refused number place`.
pub fn print_refusal<W: Write>(out: &mut W, refusal: Refusal) -> io::Result<()>
    ensures { Written (W.contents out.old) (W.contents out.new) result (refusal_text refusal) }
{
    print_text(out, refusal)
}

// The line of these words.
pub fn print_refused<W: Write>(out: &mut W, refusal: Refusal) -> io::Result<()>
    ensures { Written (W.contents out.old) (W.contents out.new) result (refusal_text refusal ++ (10 ∷ [])) }
{
    print_text(out, format_args!("{refusal}\n"))
}

// The last line of a bundle of cases that is not one; there is no more case.
pub fn bad_bundle<W: Write>(out: &mut W) -> io::Result<bool>
    ensures no_more { IfOk result (λ more. more ≡ false) }
    ensures written { Written (W.contents out.old) (W.contents out.new) result (codes "bad bundle" ++ (10 ∷ [])) }
{
    print(out, b"bad bundle\n")?;
    Ok(false)
}

// Reads until the slice is full or the input ends; how many bytes came. Where it fails, the bytes that came before
// stand at the front of the slice, and nothing is said of what is behind them. It steps by what came.
pub fn read<R: Read>(input: &mut R, slice: &mut [u8]) -> io::Result<usize>
    ensures bound { ReadsAtMost result slice.new }
    ensures bytes { IfOk result (λ got. Consumes (R.remaining input.old) (R.remaining input.new) (take got slice.new)) }
    ensures end { IfOk result (λ got. got < length slice.new → IsAtEnd (R.remaining input.new)) }
    ensures err { OnErr result ((got : ℕ) × (got ≤ length slice.new)
        × Consumes (R.remaining input.old) (R.remaining input.new) (take got slice.new)) }
{
    let mut done = 0;
    while done < slice.len() {
        let came = input.read(&mut slice[done..])?;
        if came == 0 {
            return Ok(done);
        }
        done += came;
    }
    Ok(done)
}

// What stands where a number of four bytes should: three answers, so neither an option nor a result.
#[derive(Clone, Copy, Debug, PartialEq, Eq)]
pub enum Word {
    Number(usize),
    Nothing,
    Cut,
}

// The word in four bytes, of which so many came.
fn word_of(got: usize, head: &[u8]) -> Word
    requires { 4 ≤ length head.now }
    ensures { result ≡ word_of got head.now }
{
    match got {
        0 => Word::Nothing,
        1..=3 => Word::Cut,
        _ => Word::Number(lent::four_bytes(head, 0)),
    }
}

// Reads four bytes, little endian.
pub fn read_number<R: Read>(input: &mut R) -> io::Result<Word>
    ensures came { IfOk result (λ word. Came word) }
    ensures bytes { IfOk result (λ word. (bytes : List ℕ) × (word ≡ word_of (length bytes) bytes)
        × Consumes (R.remaining input.old) (R.remaining input.new) bytes) }
    ensures end { IfOk result (λ word. ((number : ℕ) → word ≡ Word.Number number → ⊥)
        → IsAtEnd (R.remaining input.new)) }
    ensures err { OnErr result ((bytes : List ℕ) × (length bytes ≤ 4)
        × Consumes (R.remaining input.old) (R.remaining input.new) bytes) }
{
    let mut head = [0u8; 4];
    let got = read(input, &mut head)?;
    Ok(word_of(got, &head))
}

// A type of numbers, by the number that a word of 32 bits stands for.
pub trait FromWord: Copy {
    ghost number_of: { ℕ → Self };

    fn from_word(word: usize) -> Self
        requires { word < 4294967296 }
        ensures { result ≡ number_of word };
}

impl FromWord for u32 {
    ghost number_of = { λ word. word };

    fn from_word(word: usize) -> u32 {
        word as u32
    }
}

impl FromWord for i32 {
    ghost number_of = { signed_of };

    fn from_word(word: usize) -> i32 {
        clauses::signed(word)
    }
}

// Numbers out of bytes, four bytes each, little endian: as many as the slice has room for.
pub fn numbers_of<T: FromWord>(bytes: &[u8], numbers: &mut [T])
    requires { length numbers.old * 4 ≤ length bytes.now }
    ensures { numbers.new ≡ words_of T.number_of bytes.now (length numbers.old) }
{
    for (k, number) in numbers.iter_mut().enumerate() {
        *number = T::from_word(lent::four_bytes(bytes, k * 4));
    }
}

// What is left of an input of lists, each behind its length in four bytes, little endian. A list that is cut short goes
// as far as the input does.
#[derive(Clone, Copy, Debug)]
pub struct Lists<'a> {
    pub rest: &'a [u8],
}

impl<'a> Lists<'a> {
    // The next number, of four bytes; 0 where it is cut short.
    pub fn number(&mut self) -> u32
        ensures number { result ≡ told_of self.old.rest.now }
        ensures rest { self.new.rest.now ≡ drop 4 self.old.rest.now }
    {
        if self.rest.len() < 4 {
            self.rest = &[];
            return 0;
        }
        let number = lent::four_bytes(self.rest, 0) as u32;
        self.rest = &self.rest[4..];
        number
    }

    // The next list, of bytes: as many as are told and are there.
    pub fn bytes(&mut self) -> &'a [u8]
        ensures bytes { result.now ≡ take (told_of self.old.rest.now) (drop 4 self.old.rest.now) }
        ensures rest { self.new.rest.now ≡ drop (told_of self.old.rest.now) (drop 4 self.old.rest.now) }
    {
        let length = self.number() as usize;
        let (list, rest) = self.rest.split_at(length.min(self.rest.len()));
        self.rest = rest;
        list
    }

    // The next list, of numbers: as many as are told, are there and have room; how many. Those without room are passed
    // by.
    pub fn numbers<T: FromWord>(&mut self, numbers: &mut [T]) -> usize
        ensures count { (result ≡ min (count_of self.old.rest.now) (length numbers.old))
            × (result ≤ length numbers.new) }
        ensures numbers { numbers.new ≡ words_of T.number_of (drop 4 self.old.rest.now) result
            ++ drop result numbers.old }
        ensures rest { self.new.rest.now ≡ drop (count_of self.old.rest.now * 4) (drop 4 self.old.rest.now) }
    {
        let there = (self.number() as usize).min(self.rest.len() / 4);
        let count = there.min(numbers.len());
        numbers_of(self.rest, &mut numbers[..count]);
        self.rest = &self.rest[there * 4..];
        count
    }
}

// Why a bundle of cases goes no further: what stands there is no case, or a reader or a writer failed.
#[derive(Debug, Drop)]
pub enum Stop {
    Bad,
    Failed(io::Error),
}

impl From<io::Error> for Stop {
    ghost use Rattle.console.specs.declared.Stop.TheVariants.{Failed};

    ghost from_gives = { λ error stop. stop ≡ Failed error };

    fn from(error: io::Error) -> Stop {
        Stop::Failed(error)
    }
}

// Reads a slice full; where the input ends too early or fails, what came stands at its front.
pub fn fill<R: Read>(input: &mut R, slice: &mut [u8]) -> Result<(), Stop>
    ensures bytes { OnOk result (Consumes (R.remaining input.old) (R.remaining input.new) slice.new) }
    ensures bad { result ≡ Err Stop.Bad → IsAtEnd (R.remaining input.new) }
    ensures err { OnErr result ((got : ℕ) × (got ≤ length slice.new)
        × Consumes (R.remaining input.old) (R.remaining input.new) (take got slice.new)) }
{
    if read(input, slice)? < slice.len() {
        return Err(Stop::Bad);
    }
    Ok(())
}

// Reads a number of at most so many, none at the input's end.
pub fn read_count<R: Read>(input: &mut R, most: usize) -> Result<Option<usize>, Stop>
    ensures most { IfOk result (λ read. IfSome read (λ count. count ≤ most)) }
    ensures read { ((error : _) → result ≡ Err (Stop.Failed error) → ⊥) → (bytes : List ℕ)
        × (result ≡ counted_by most (word_of (length bytes) bytes))
        × Consumes (R.remaining input.old) (R.remaining input.new) bytes }
    ensures failed { (error : _) → result ≡ Err (Stop.Failed error) → (bytes : List ℕ) × (length bytes ≤ 4)
        × Consumes (R.remaining input.old) (R.remaining input.new) bytes }
    ensures bytes { IfOk result (λ read. IfSome read (λ count. (bytes : List ℕ)
        × (Word.Number count ≡ word_of (length bytes) bytes)
        × Consumes (R.remaining input.old) (R.remaining input.new) bytes)) }
    ensures none { result ≡ Ok None → IsAtEnd (R.remaining input.new) }
    ensures bad { result ≡ Err Stop.Bad → IsAtEnd (R.remaining input.new) ⊎ ((bytes : List ℕ)
        × (most < four_bytes bytes 0) × Consumes (R.remaining input.old) (R.remaining input.new) bytes) }
{
    match read_number(input)? {
        Word::Number(count) if count <= most => Ok(Some(count)),
        Word::Nothing => Ok(None),
        Word::Number(_) | Word::Cut => Err(Stop::Bad),
    }
}

// Whether a bundle goes on behind what came of a case; where that is none, it ends with its line.
pub fn goes_on<W: Write>(out: &mut W, case: Result<bool, Stop>) -> io::Result<bool>
    ensures answered { IfOk case (λ more. result ≡ Ok more) }
    ensures untouched { (case ≡ Err Stop.Bad → ⊥) → W.contents out.new ≡ W.contents out.old }
    ensures no_more { case ≡ Err Stop.Bad → IfOk result (λ more. more ≡ false) }
    ensures written { case ≡ Err Stop.Bad
        → Written (W.contents out.old) (W.contents out.new) result (codes "bad bundle" ++ (10 ∷ [])) }
    ensures failed { (error : _) → case ≡ Err (Stop.Failed error) → result ≡ Err error }
{
    match case {
        Ok(more) => Ok(more),
        Err(Stop::Bad) => bad_bundle(out),
        Err(Stop::Failed(error)) => Err(error),
    }
}
