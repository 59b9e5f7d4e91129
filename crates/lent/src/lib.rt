// What every call does with what its caller lends: zeros in slices of numbers, one slice copied to the front of
// another, numbers out of bytes. Assumes nothing.
#![tactic(auto)]

ghost use Rattle.std.specs.Prelude.{◌≡◌, ◌++◌, ◌+◌, ◌-◌, ◌≤◌, ◌<◌, pos, length, take, replicate};
ghost use Rattle.lent.specs.Bytes.{two_bytes, four_bytes};
ghost use Rattle.lent.specs.Copied.{Copied};

// A type of numbers, by its zero.
pub trait Number: Copy {
    ghost zero: { Self };

    fn zero() -> Self
        ensures { result ≡ zero };
}

impl Number for u8 {
    ghost zero = { 0 };

    fn zero() -> u8 {
        0
    }
}

impl Number for u32 {
    ghost zero = { 0 };

    fn zero() -> u32 {
        0
    }
}

impl Number for i32 {
    ghost zero = { pos 0 };

    fn zero() -> i32 {
        0
    }
}

// The number in the two bytes from a place on, little endian.
pub fn two_bytes(bytes: &[u8], at: usize) -> usize
    requires { at + 2 ≤ length bytes.now }
    ensures value { result ≡ two_bytes bytes.now at }
    ensures small { result < 65536 }
{
    usize::from(u16::from_le_bytes([bytes[at], bytes[at + 1]]))
}

// The number in the four bytes from a place on, little endian.
pub fn four_bytes(bytes: &[u8], at: usize) -> usize
    requires { at + 4 ≤ length bytes.now }
    ensures value { result ≡ four_bytes bytes.now at }
    ensures small { result < 4294967296 }
{
    u32::from_le_bytes([bytes[at], bytes[at + 1], bytes[at + 2], bytes[at + 3]]) as usize
}

// Zeros from a place on; what stands before it stays.
pub fn zero_rest<T: Number>(slice: &mut [T], from: usize)
    requires { from ≤ length slice.old }
    ensures { slice.new ≡ take from slice.old ++ replicate (length slice.old - from) T.zero }
{
    for place in &mut slice[from..] {
        *place = T::zero();
    }
}

// Zeros in a whole slice.
pub fn zero<T: Number>(slice: &mut [T])
    ensures { slice.new ≡ replicate (length slice.old) T.zero }
{
    zero_rest(slice, 0);
}

// One slice to the front of another; what stands behind stays. A loop, and not laid into its callers: LLVM makes a call
// of memmove of `copy_from_slice` and one of memcpy of the loop in a caller, and a C host owes memset alone.
#[inline(never)]
pub fn copy<T: Copy>(from: &[T], slice: &mut [T])
    requires { length from.now ≤ length slice.old }
    ensures { Copied from.now slice.old slice.new }
{
    for (i, number) in from.iter().enumerate() {
        slice[i] = *number;
    }
}
