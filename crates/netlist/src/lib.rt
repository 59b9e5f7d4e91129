// The netlist file, and the arrivals of its inputs: accepted, with the file's shape, or refused with the table's number
// and place; and the reads of an accepted file. Assumes nothing.
#![tactic(auto)]

ghost use Rattle.std.specs.Prelude.{◌≡◌, position, nat_lt, ◌&&◌, ◌+◌, ◌-◌, ◌*◌, ◌≤◌, ◌<◌, leb, ltb, length};
ghost use Rattle.netlist.specs.Kinds.{kind_of, inverts, pins_fit};
ghost use Rattle.netlist.specs.File.{gate_at, driver_at, delay_at, output_at, shape_of, table_bytes};
ghost use Rattle.netlist.specs.Open.{open_of, wrong_count, back_wrong};
ghost use Rattle.netlist.specs.Open.{first_wrong, arrival_rows, arrived_of, fall_rows, slope_rows};
ghost use Rattle.netlist.specs.Netlist.{slopes_of};
ghost use Rattle.netlist.specs.Accepts.{Accepts};
ghost use Rattle.refusal.specs.Rows.{checked};
ghost use Rattle.netlist.specs.Holds.{Tables};

mod circuit;
mod layout;

pub use circuit::Accepted;
use layout::Layout;
use refusal::Refusal;

// What a gate does: c and k of a simple gate; a parity gate's value for equal pins; nothing for a multiplexer.
#[derive(Clone, Copy, Debug, PartialEq, Eq)]
pub enum Kind {
    Simple { c: bool, k: bool },
    Parity(bool),
    Mux,
}

// Whether a pin has one delay, or one for each final value of its gate: then the delays for 0 are lent beside the file.
#[derive(Clone, Copy)]
pub enum Form<'a> {
    Single,
    RiseFall(&'a [u32]),
}

// One gate: its kind, the number of its first pin, and how many pins it has.
#[derive(Clone, Copy, Debug, PartialEq, Eq)]
pub struct Gate {
    pub kind: Kind,
    pub first: usize,
    pub count: usize,
}

// The four counts of an accepted file, and where its tables begin.
#[derive(Clone, Copy, Debug, PartialEq, Eq)]
pub struct Shape {
    pub inputs: usize,
    pub gates: usize,
    pub pins: usize,
    pub outputs: usize,
    pub tables: usize,
}

// A kind inverts: its number is even.
fn inverts(kind: usize) -> bool
    ensures { result ≡ inverts kind }
{
    kind % 2 == 0
}

// What a gate of a kind does, by comparison of the kind's number: it is of any number, as the definition is.
fn kind_of(kind: usize) -> Kind
    ensures { result ≡ kind_of kind }
{
    let inverted = inverts(kind);
    if kind < 7 {
        let c = 4 < kind;
        return Kind::Simple {
            c,
            k: if inverted { !c } else { c },
        };
    }
    if kind < 9 {
        return Kind::Parity(inverted);
    }
    Kind::Mux
}

// ---- the reads: over a file and a shape, since they ask for nothing but the tables' places, accepted or not

// A gate of the file.
pub fn gate_at(file: &[u8], shape: Shape, number: usize) -> Gate
    requires { Tables file.now shape × (number < shape.gates) }
    ensures { (result ≡ gate_at file.now shape number) × (result.first < 65536) × (result.count < 256) }
{
    let at = shape.tables + number * 4;
    Gate {
        kind: kind_of(usize::from(file[at])),
        first: lent::two_bytes(file, at + 2),
        count: usize::from(file[at + 1]),
    }
}

// The node that drives a pin.
pub fn driver_at(file: &[u8], shape: Shape, pin: usize) -> usize
    requires { Tables file.now shape × (pin < shape.pins) }
    ensures { (result ≡ driver_at file.now shape pin) × (result < 65536) }
{
    lent::two_bytes(file, shape.tables + shape.gates * 4 + pin * 4)
}

// A pin's delay.
pub fn delay_at(file: &[u8], shape: Shape, pin: usize) -> usize
    requires { Tables file.now shape × (pin < shape.pins) }
    ensures { (result ≡ delay_at file.now shape pin) × (result < 65536) }
{
    lent::two_bytes(file, shape.tables + shape.gates * 4 + pin * 4 + 2)
}

// The node of an output.
pub fn output_at(file: &[u8], shape: Shape, position: usize) -> usize
    requires { Tables file.now shape × (position < shape.outputs) }
    ensures { (result ≡ output_at file.now shape position) × (result < 65536) }
{
    lent::two_bytes(
        file,
        shape.tables + shape.gates * 4 + shape.pins * 4 + position * 2,
    )
}

// ---- the refusals 1 to 4, then 5 to 7 by the layout, 16 and 19

// 4G+4P+2Q, of a file that has a trailer.
fn table_bytes(file: &[u8]) -> usize
    requires { 14 ≤ length file.now }
    ensures { (result ≡ table_bytes file.now) × (result < 4294967296) }
{
    let trailer = file.len() - 14;
    let gates = lent::two_bytes(file, trailer + 6);
    let pins = lent::two_bytes(file, trailer + 8);
    let outputs = lent::two_bytes(file, trailer + 10);
    gates * 4 + pins * 4 + outputs * 2
}

// The counts that the trailer says, and where the tables begin.
fn shape_of(file: &[u8]) -> Shape
    requires { 14 ≤ length file.now }
    ensures { result ≡ shape_of file.now }
{
    let trailer = file.len() - 14;
    Shape {
        inputs: lent::two_bytes(file, trailer + 4),
        gates: lent::two_bytes(file, trailer + 6),
        pins: lent::two_bytes(file, trailer + 8),
        outputs: lent::two_bytes(file, trailer + 10),
        tables: trailer.saturating_sub(table_bytes(file)),
    }
}

// The first count outside its range: 0 for I, 1 for G, 2 for P, 3 for Q.
fn count_wrong(shape: Shape) -> Option<usize>
    ensures { result ≡ wrong_count shape }
{
    if !(1..=64).contains(&shape.inputs) {
        return Some(0);
    }
    if 448 < shape.gates {
        return Some(1);
    }
    if 2048 < shape.pins {
        return Some(2);
    }
    if !(1..=64).contains(&shape.outputs) {
        return Some(3);
    }
    None
}

// Back isn't 4G+4P+2Q, or it exceeds the bytes before the trailer.
fn back_wrong(file: &[u8]) -> bool
    requires { 14 ≤ length file.now }
    ensures { result ≡ back_wrong file.now }
{
    let trailer = file.len() - 14;
    let back = lent::four_bytes(file, trailer);
    if back != table_bytes(file) {
        return true;
    }
    trailer < back
}

// A gate of a kind can have that many pins; no number of pins is right for a number that names no kind.
fn pins_fit(kind: usize, count: usize) -> bool
    ensures { result ≡ pins_fit kind count }
{
    match kind {
        1 | 2 => count == 1,
        3..=6 => (2..=8).contains(&count),
        7 | 8 => count == 2,
        9 => count == 3,
        _ => false,
    }
}

// The answer for any bytes at all: checks 1 to 7 in the table's order. Laid into its callers it takes longer.
#[inline(never)]
pub fn open(file: &[u8]) -> Result<Shape, Refusal>
    ensures { result ≡ open_of file.now }
{
    if file.len() < 14 {
        return Err(Refusal::Short(file.len()));
    }
    let version = lent::two_bytes(file, file.len() - 2);
    if version != 1 {
        return Err(Refusal::Version(version));
    }
    let shape = shape_of(file);
    if let Some(which) = count_wrong(shape) {
        return Err(Refusal::Count(which));
    }
    if back_wrong(file) {
        return Err(Refusal::Back);
    }
    Layout { file, shape }.check()
}

// The place of the first entry that is over `most`.
fn place_over(entries: &[u32], most: u32) -> Option<usize>
    ensures { result ≡ position (λ entry. nat_lt most entry) entries.now }
{
    entries.iter().position(|&entry| most < entry)
}

// How many entries stand before the first that is over `most`; all of them where none is, as its clause says, of which
// rows of refusals are made.
pub fn first_over(entries: &[u32], most: u32) -> usize
    ensures { result ≡ first_wrong (ltb most) entries.now }
{
    place_over(entries, most).unwrap_or(entries.len())
}

// 16 for the arrivals of so many inputs.
fn check_arrivals(arrivals: &[u32], inputs: usize) -> Result<(), Refusal>
    ensures { result ≡ checked (arrival_rows inputs arrivals.now) }
{
    if arrivals.len() != inputs {
        return Err(Refusal::Arrival(inputs));
    }
    let wrong = first_over(arrivals, 9999);
    if wrong < arrivals.len() {
        return Err(Refusal::Arrival(wrong));
    }
    Ok(())
}

// 19 for the delays of so many pins, for gates that end at 0.
pub fn check_falls(falls: &[u32], pins: usize) -> Result<(), Refusal>
    ensures { result ≡ checked (fall_rows pins falls.now) }
{
    if falls.len() != pins {
        return Err(Refusal::Fall(pins));
    }
    let wrong = first_over(falls, 999);
    if wrong < falls.len() {
        return Err(Refusal::Fall(wrong));
    }
    Ok(())
}

// What the arrivals make of the answer for a file: check 16, behind 1 to 7.
pub fn arrived(opened: Result<Shape, Refusal>, arrivals: &[u32]) -> Result<Shape, Refusal>
    ensures { result ≡ arrived_of opened arrivals.now }
{
    let found = opened?;
    check_arrivals(arrivals, found.inputs)?;
    Ok(found)
}

// 19, where there are delays for gates that end at 0.
fn check_form(form: Form<'_>, pins: usize) -> Result<(), Refusal>
    ensures { result ≡ checked (slope_rows pins (slopes_of form.entry)) }
{
    match form {
        Form::Single => Ok(()),
        Form::RiseFall(falls) => check_falls(falls, pins),
    }
}

// What every call asks first: 1 to 7 of the file, 16 of its arrivals, 19 of its form.
pub fn accept<'a>(
    file: &'a [u8],
    arrivals: &'a [u32],
    form: Form<'a>,
) -> Result<Accepted<'a>, Refusal>
    ensures { Accepts file.now arrivals.now (slopes_of form.entry) result }
{
    let shape = arrived(open(file), arrivals)?;
    check_form(form, shape.pins)?;
    Ok(Accepted {
        file,
        shape,
        arrivals,
        form,
    })
}
