// Signed 32-bit numbers of a clause list, read and written as codes: the only code that touches a sign.
// Assumes nothing.
#![tactic(auto)]

ghost use Rattle.std.specs.Prelude.{◌≡◌, ◌+◌, ◌/◌, ◌<◌, pos, length, get_or, set};
ghost use Rattle.clauses.specs.Codes.{code_of, decoded, signed_of};

// The code of a number; right for every 32-bit number, the least one too. By the sign at once: made of the variable and
// the sign it costs a check a third more (docs/PERFORMANCE.md).
#[tactic(auto, unfolding(crate::specs::Codes::code_of))]
pub fn code_of(number: i32) -> usize
    ensures { (result ≡ code_of number) × (result < 8589934592) }
{
    if number < 0 {
        (-1 - number) as usize * 2 + 3
    } else {
        number as usize * 2
    }
}

// The variable of a number, its magnitude: half the code, in fewer instructions where the code is not needed.
#[tactic(auto, unfolding(crate::specs::Codes::code_of))]
pub fn variable_of(number: i32) -> usize
    ensures { (result ≡ code_of number / 2) × (result < 4294967296) }
{
    number.unsigned_abs() as usize
}

// The variable of the number at a place.
pub fn variable_at(list: &[i32], at: usize) -> usize
    requires { at < length list.now }
    ensures { (result ≡ code_of (get_or list.now at (pos 0)) / 2) × (result < 4294967296) }
{
    variable_of(list[at])
}

// The code of the number at a place.
pub fn code_at(list: &[i32], at: usize) -> usize
    requires { at < length list.now }
    ensures { (result ≡ code_of (get_or list.now at (pos 0))) × (result < 8589934592) }
{
    code_of(list[at])
}

// The number of a code.
#[tactic(auto, unfolding(crate::specs::Codes::decoded))]
pub fn number_of(code: usize) -> i32
    requires { code < 4294967296 }
    ensures { result ≡ decoded code }
{
    let variable = (code / 2) as i32;
    if code % 2 == 0 { variable } else { -variable }
}

// One number more, where there is room; the place after it, room or not.
pub fn put(slice: &mut [i32], at: usize, code: usize) -> usize
    requires { (at < 4294967296) × (code < 4294967296) }
    ensures { (result ≡ at + 1) × (slice.new ≡ set slice.old at (decoded code)) }
{
    if at < slice.len() {
        slice[at] = number_of(code);
    }
    at + 1
}

// The signed number whose 32 bits, read without a sign, are the word: two's complement.
#[tactic(auto, unfolding(crate::specs::Codes::signed_of))]
pub fn signed(word: usize) -> i32
    requires { word < 4294967296 }
    ensures { result ≡ signed_of word }
{
    (word as u32).cast_signed()
}
