// Floating mode by controlling values: every node's final value and settling time, with one delay a pin or with one for
// each final value of its gate. Assumes nothing.
#![tactic(auto)]

ghost use Rattle.std.specs.Prelude.{◌≡◌, ℕ, ◌+◌, ◌≤◌, ◌<◌, T, length, get_or, Ok};
ghost use Rattle.netlist.specs.Netlist.{takes, Slopes, alike, apart, slopes_of};
ghost use Rattle.netlist.specs.Accepts.{circuit_in};
ghost use Rattle.netlist.specs.Holds.{Sloped, sloped-prop};
ghost use Rattle.netlist.specs.declared.Kind.TheVariants.{Simple, Parity, Mux};
ghost use Rattle.settle.specs.Settling.{last};
ghost use Rattle.refusal.specs.Rows.{checked};
ghost use Rattle.settle.specs.Promise.{Meets, bits, refused, settled};
ghost use Rattle.settle.specs.Promise.{evaluation_rows, evaluation_of, evaluation};
ghost use Rattle.settle.specs.Steps.{pin_value, pin_signal, pin_for, sloped_signal};
ghost use Rattle.settle.specs.Steps.{pin_in, pins_in, passed_signal, with_pin};
ghost use Rattle.settle.specs.Steps.{latest, Wired, Binary, Done, Usable};

use netlist::{Accepted, Form, Gate, Kind};
use refusal::Refusal;

// Which delay a pin has, by the final value of its gate.
trait Delays: Copy {
    ghost slopes: { Self → Slopes };

    // The delay of a pin whose gate ends at this value.
    fn delay(self, accepted: &Accepted<'_>, pin: usize, ends: bool) -> u32
        requires { (pin < accepted.now.shape.pins) × Sloped accepted.now.shape (slopes self) }
        ensures value { result ≡ (pin_for (slopes self) ends (pin_in accepted.now pin)).delay }
        ensures small { result < 65536 };
}

// One delay a pin, wherever its gate ends.
#[derive(Clone, Copy)]
struct Alike;

impl Delays for Alike {
    ghost slopes = { λ delays. alike };

    fn delay(self, accepted: &Accepted<'_>, pin: usize, _ends: bool) -> u32 {
        accepted.delay(pin) as u32
    }
}

// A gate that ends at 0 goes by delays of its own, those of this list.
#[derive(Clone, Copy)]
struct Apart<'a> {
    falls: &'a [u32],
}

impl<'a> Delays for Apart<'a> {
    ghost slopes = { λ delays. apart delays.falls.now };

    fn delay(self, accepted: &Accepted<'_>, pin: usize, ends: bool) -> u32 {
        if ends {
            return accepted.delay(pin) as u32;
        }
        self.falls[pin]
    }
}

// A final value, and when it is there: when a pin is ready, or a node settles.
#[derive(Clone, Copy)]
struct Signal {
    value: bool,
    at: u32,
}

// What a simple gate's pins say: when the first pin at c is ready, if there is one, and when the last of all pins is.
#[derive(Clone, Copy)]
struct Scan {
    first: Option<u32>,
    last: u32,
}

impl Scan {
    // One pin more, at c or not.
    fn with_pin(self, controls: bool, ready: u32) -> Scan
        ensures { result ≡ with_pin self controls ready }
    {
        let last = self.last.max(ready);
        if !controls {
            return Scan { last, ..self };
        }
        let first = Some(self.first.map_or(ready, |first| first.min(ready)));
        Scan { first, last }
    }
}

// What a gate's signal depends on: the circuit, its delays, and the nodes before the gate.
#[derive(Drop)]
struct Before<'a, D: Delays> {
    accepted: &'a Accepted<'a>,
    delays: D,
    values: &'a [u8],
    times: &'a [u32],
    ghost sloped: { Sloped accepted.now.shape (D.slopes delays) } by { sloped-prop accepted.now.shape _ },
    ghost binary: { Binary values.now },
    ghost paired: { length times.now ≡ length values.now },
    ghost early: { (node : ℕ) → get_or times.now node 0 ≤ latest },
}

impl<'a, D: Delays> Before<'a, D> {
    // The final value at a pin.
    fn value(&self, pin: usize) -> bool
        requires { Wired self.now.accepted.now pin 1 (length self.now.values.now) }
        ensures { result ≡ pin_value self.now.values.now (pin_in self.now.accepted.now pin) }
    {
        self.values[self.accepted.driver(pin)] == 1
    }

    // The signal at a pin of a gate that ends at this value: its node's value, and its node's settling time plus its
    // delay.
    fn signal(&self, pin: usize, ends: bool) -> Signal
        requires { Wired self.now.accepted.now pin 1 (length self.now.values.now) }
        ensures { result ≡ pin_signal self.now.values.now self.now.times.now
            (pin_for (D.slopes self.now.delays) ends (pin_in self.now.accepted.now pin)) }
    {
        let driver = self.accepted.driver(pin);
        let delay = self.delays.delay(self.accepted, pin, ends);
        Signal {
            value: self.values[driver] == 1,
            at: self.times[driver] + delay,
        }
    }

    // A simple gate of the pins from `first` on, in one pass over them: with a pin at c it gives k when the first such
    // pin is ready, otherwise the opposite when the last pin is. A pin at c has the delay for k, since the gate then
    // ends at k; another has the delay for the opposite, since it counts only where none is at c. The pins are taken
    // from the last to the first, as the definition's list is built.
    fn simple(&self, first: usize, count: usize, c: bool, k: bool) -> Signal
        requires { Wired self.now.accepted.now first count (length self.now.values.now) }
        ensures { result ≡ sloped_signal (D.slopes self.now.delays) self.now.values.now self.now.times.now (Simple c k)
            (pins_in self.now.accepted.now first count) }
    {
        let byte = u8::from(c);
        let mut scan = Scan {
            first: None,
            last: 0,
        };
        for left in (0..count).rev() {
            let pin = first + left;
            let controls = self.values[self.accepted.driver(pin)] == byte;
            scan = scan.with_pin(controls, self.signal(pin, controls == k).at);
        }
        match scan.first {
            Some(at) => Signal { value: k, at },
            None => Signal {
                value: !k,
                at: scan.last,
            },
        }
    }

    // A parity gate of two pins from `first` on: their values say where it ends, and it settles when the last of them
    // is ready.
    fn parity(&self, first: usize, equal: bool) -> Signal
        requires { Wired self.now.accepted.now first 2 (length self.now.values.now) }
        ensures { result ≡ sloped_signal (D.slopes self.now.delays) self.now.values.now self.now.times.now
            (Parity equal) (pins_in self.now.accepted.now first 2) }
    {
        let value = equal == (self.value(first) == self.value(first + 1));
        let a = self.signal(first, value);
        let b = self.signal(first + 1, value);
        Signal {
            value,
            at: a.at.max(b.at),
        }
    }

    // A multiplexer that passes the chosen data pin on, once this and select are ready; where the other one agrees with
    // it, once they both are, if that is earlier.
    fn passed(&self, select: usize, chosen: usize, other: usize) -> Signal
        requires { Wired self.now.accepted.now select 1 (length self.now.values.now)
            × Wired self.now.accepted.now chosen 1 (length self.now.values.now)
            × Wired self.now.accepted.now other 1 (length self.now.values.now) }
        ensures { result ≡ passed_signal (D.slopes self.now.delays) self.now.values.now self.now.times.now
            (pin_in self.now.accepted.now select) (pin_in self.now.accepted.now chosen)
            (pin_in self.now.accepted.now other) }
    {
        let ends = self.value(chosen);
        let select = self.signal(select, ends);
        let chosen = self.signal(chosen, ends);
        let other = self.signal(other, ends);
        let own = select.at.max(chosen.at);
        if chosen.value == other.value {
            return Signal {
                value: chosen.value,
                at: own.min(chosen.at.max(other.at)),
            };
        }
        Signal {
            value: chosen.value,
            at: own,
        }
    }

    // A multiplexer of three pins from `first` on: it passes a on for select 0 and b for select 1.
    fn mux(&self, first: usize) -> Signal
        requires { Wired self.now.accepted.now first 3 (length self.now.values.now) }
        ensures { result ≡ sloped_signal (D.slopes self.now.delays) self.now.values.now self.now.times.now Mux
            (pins_in self.now.accepted.now first 3) }
    {
        if self.value(first) {
            return self.passed(first, first + 2, first + 1);
        }
        self.passed(first, first + 1, first + 2)
    }

    // A gate of any kind, over the nodes before it.
    fn gate(&self, gate: Gate) -> Signal
        requires { Wired self.now.accepted.now gate.first gate.count (length self.now.values.now)
            × T (takes gate.kind gate.count) }
        ensures { result ≡ sloped_signal (D.slopes self.now.delays) self.now.values.now self.now.times.now gate.kind
            (pins_in self.now.accepted.now gate.first gate.count) }
    {
        match gate.kind {
            Kind::Simple { c, k } => self.simple(gate.first, gate.count, c, k),
            Kind::Parity(equal) => self.parity(gate.first, equal),
            Kind::Mux => self.mux(gate.first),
        }
    }
}

// All nodes: the inputs', with the vector's values and their arrivals, then the gates', each from the nodes before it.
// The circuit comes by value: behind a reference its fields are read anew for each gate.
fn settle_nodes<D: Delays>(
    accepted: Accepted<'_>,
    delays: D,
    vector: &[u8],
    values: &mut [u8],
    times: &mut [u32],
)
    requires usable { Usable accepted vector.now (length values.old) (length times.old) }
    requires form { D.slopes delays ≡ slopes_of accepted.form }
    ensures { Done accepted.entry (bits vector.now) values.old times.old values.new times.new }
{
    lent::copy(vector, values);
    lent::copy(accepted.arrivals, times);
    for number in 0..accepted.shape.gates {
        let node = accepted.shape.inputs + number;
        let before = Before {
            accepted: &accepted,
            delays,
            values: &values[..node],
            times: &times[..node],
        };
        let signal = before.gate(accepted.gate(number));
        values[node] = u8::from(signal.value);
        times[node] = signal.at;
    }
}

// The largest time of the outputs.
fn latest_output(accepted: &Accepted<'_>, times: &[u32]) -> u32
    requires { accepted.now.shape.inputs + accepted.now.shape.gates ≤ length times.now }
    ensures { result ≡ last (λ node. get_or times.now node 0) (circuit_in accepted.now).net.outputs }
{
    let mut latest = 0;
    for position in 0..accepted.shape.outputs {
        latest = times[accepted.output(position)].max(latest);
    }
    latest
}

// All nodes and the circuit's time; zeros behind the nodes.
fn settle_all(accepted: &Accepted<'_>, vector: &[u8], values: &mut [u8], times: &mut [u32]) -> u32
    requires { Usable accepted.now vector.now (length values.old) (length times.old) }
    ensures { Meets (settled (circuit_in accepted.now)
        vector.now (length values.old) (length times.old)) (Ok result)
        values.new times.new }
{
    match accepted.form {
        Form::Single => settle_nodes(*accepted, Alike, vector, values, times),
        Form::RiseFall(falls) => settle_nodes(*accepted, Apart { falls }, vector, values, times),
    }
    let time = latest_output(accepted, times);
    let nodes = accepted.nodes();
    lent::zero_rest(values, nodes);
    lent::zero_rest(times, nodes);
    time
}

// 8 for the vector, then 9 for values, then for times.
fn check_given(
    accepted: &Accepted<'_>,
    vector: &[u8],
    values_room: usize,
    times_room: usize,
) -> Result<(), Refusal>
    ensures { result ≡ checked (evaluation_rows (circuit_in accepted.now) vector.now values_room times_room) }
{
    let inputs = accepted.shape.inputs;
    let nodes = accepted.nodes();
    if vector.len() != inputs {
        return Err(Refusal::Vector(inputs));
    }
    if let Some(wrong) = vector.iter().position(|&byte| 1 < byte) {
        return Err(Refusal::Vector(wrong));
    }
    if values_room < nodes || times_room < nodes {
        return Err(Refusal::Room(nodes));
    }
    Ok(())
}

// A refusal zeroes both slices.
fn refuse(refusal: Refusal, values: &mut [u8], times: &mut [u32]) -> Result<u32, Refusal>
    ensures { Meets (refused (length values.old) (length times.old) refusal) result
        values.new times.new }
{
    lent::zero(values);
    lent::zero(times);
    Err(refusal)
}

// The evaluation of an accepted circuit: 8, then 9 for values, then for times, and zeros; or all values and times, and
// the settling time.
pub fn evaluate_accepted(
    accepted: &Accepted<'_>,
    vector: &[u8],
    values: &mut [u8],
    times: &mut [u32],
) -> Result<u32, Refusal>
    ensures { Meets (evaluation_of (circuit_in accepted.now)
        vector.now (length values.old) (length times.old)) result
        values.new times.new }
{
    match check_given(accepted, vector, values.len(), times.len()) {
        Ok(()) => Ok(settle_all(accepted, vector, values, times)),
        Err(refusal) => refuse(refusal, values, times),
    }
}

// All values and times of a circuit under a vector, and its settling time; or the first refusal of 1..7, 16, 19 and 8,
// then 9 for values, then for times, and zeros.
pub fn evaluate(
    file: &[u8],
    arrivals: &[u32],
    form: Form<'_>,
    vector: &[u8],
    values: &mut [u8],
    times: &mut [u32],
) -> Result<u32, Refusal>
    ensures { Meets (evaluation file.now arrivals.now (slopes_of form.entry) vector.now
        (length values.old) (length times.old)) result
        values.new times.new }
{
    match netlist::accept(file, arrivals, form) {
        Ok(accepted) => evaluate_accepted(&accepted, vector, values, times),
        Err(refusal) => refuse(refusal, values, times),
    }
}
