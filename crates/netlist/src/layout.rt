// A file whose trailer is right, and the checks 5 to 7 of its tables. Assumes nothing.

ghost use Rattle.std.specs.Prelude.{◌≡◌, ◌+◌, ◌≤◌, ◌<◌, [], ◌∷◌};
ghost use Rattle.netlist.specs.File.{count_at};
ghost use Rattle.netlist.specs.Open.{open_of, pins_before, gate_wrong, gate_row, pin_wrong, gate_pin_row, pin_row};
ghost use Rattle.netlist.specs.Open.{output_wrong, output_row};
ghost use Rattle.netlist.specs.Holds.{InRange, Tables, Framed};
ghost use Rattle.refusal.specs.Rows.{checked};

use crate::Shape;
use refusal::Refusal;

// A file that passed checks 1 to 4, with what its trailer says; the two facts after the first follow from it.
#[derive(Clone, Copy)]
pub(crate) struct Layout<'a> {
    pub(crate) file: &'a [u8],
    pub(crate) shape: Shape,
    ghost framed: { Framed file.now shape },
    ghost tables: { Tables file.now shape },
    ghost counts: { InRange shape },
}

impl Layout<'_> {
    // How many pins a gate says it has.
    fn count(&self, gate: usize) -> usize
        requires { gate < self.now.shape.gates }
        ensures { (result ≡ count_at self.now.file.now self.now.shape gate) × (result < 256) }
    {
        usize::from(self.file[self.shape.tables + gate * 4 + 1])
    }

    // A gate's kind is unknown, or its pin count or first pin is wrong; `before` is the sum of the counts before it.
    fn gate_wrong(&self, gate: usize, before: usize) -> bool
        requires { (gate < self.now.shape.gates) × (before ≡ pins_before self.now.file.now self.now.shape gate) }
        ensures { result ≡ gate_wrong self.now.file.now self.now.shape gate }
    {
        let at = self.shape.tables + gate * 4;
        let kind = usize::from(self.file[at]);
        let count = self.count(gate);
        if !crate::pins_fit(kind, count) {
            return true;
        }
        lent::two_bytes(self.file, at + 2) != before
    }

    // 5: all gates, then the total of their pin counts.
    fn check_gates(&self) -> Result<(), Refusal>
        ensures { result ≡ checked (gate_row self.now.file.now self.now.shape ∷ []) }
    {
        let mut before = 0;
        for gate in 0..self.shape.gates {
            if self.gate_wrong(gate, before) {
                return Err(Refusal::Gate(gate));
            }
            before += self.count(gate);
        }
        if before != self.shape.pins {
            return Err(Refusal::Gate(self.shape.gates));
        }
        Ok(())
    }

    // A pin's driver is not below its gate's node, or its delay is over 999.
    fn pin_wrong(&self, node: usize, pin: usize) -> bool
        requires { pin < self.now.shape.pins }
        ensures { result ≡ pin_wrong self.now.file.now self.now.shape (node, pin) }
    {
        if node <= crate::driver_at(self.file, self.shape, pin) {
            return true;
        }
        999 < crate::delay_at(self.file, self.shape, pin)
    }

    // 6 of one gate, whose pins begin at `from`.
    fn check_pins_of(&self, gate: usize, from: usize) -> Result<(), Refusal>
        requires gate_value { gate < self.now.shape.gates }
        requires from_value { (from ≡ pins_before self.now.file.now self.now.shape gate)
            × (from + count_at self.now.file.now self.now.shape gate ≤ self.now.shape.pins) }
        ensures { result ≡ checked (gate_pin_row self.now.file.now self.now.shape gate ∷ []) }
    {
        let node = self.shape.inputs + gate;
        let end = from + self.count(gate);
        for pin in from..end {
            if self.pin_wrong(node, pin) {
                return Err(Refusal::Pin(pin));
            }
        }
        Ok(())
    }

    // 6: the pins of all gates, whose pin counts sum up to P.
    fn check_pins(&self) -> Result<(), Refusal>
        requires { pins_before self.now.file.now self.now.shape self.now.shape.gates ≡ self.now.shape.pins }
        ensures { result ≡ checked (pin_row self.now.file.now self.now.shape ∷ []) }
    {
        let mut from = 0;
        for gate in 0..self.shape.gates {
            self.check_pins_of(gate, from)?;
            from += self.count(gate);
        }
        Ok(())
    }

    // An output is not above the one before it, or it is N or more.
    fn output_wrong(&self, position: usize) -> bool
        requires { position < self.now.shape.outputs }
        ensures { result ≡ output_wrong self.now.file.now self.now.shape position }
    {
        let node = crate::output_at(self.file, self.shape, position);
        if self.shape.inputs + self.shape.gates <= node {
            return true;
        }
        if position < 1 {
            return false;
        }
        node <= crate::output_at(self.file, self.shape, position - 1)
    }

    // 7: all outputs.
    fn check_outputs(&self) -> Result<(), Refusal>
        ensures { result ≡ checked (output_row self.now.file.now self.now.shape ∷ []) }
    {
        for position in 0..self.shape.outputs {
            if self.output_wrong(position) {
                return Err(Refusal::Output(position));
            }
        }
        Ok(())
    }

    // 5 to 7, in the table's order: all gates before all pins before outputs.
    pub(crate) fn check(&self) -> Result<Shape, Refusal>
        ensures { result ≡ open_of self.now.file.now }
    {
        self.check_gates()?;
        self.check_pins()?;
        self.check_outputs()?;
        Ok(self.shape)
    }
}
