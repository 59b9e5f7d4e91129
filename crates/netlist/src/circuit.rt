// An accepted file with all that its circuit depends on, and its reads. Assumes nothing.

ghost use Rattle.std.specs.Prelude.{◌≡◌, ◌+◌, ◌<◌};
ghost use Rattle.netlist.specs.Netlist.{slopes_of};
ghost use Rattle.netlist.specs.File.{gate_at, driver_at, delay_at, output_at};
ghost use Rattle.netlist.specs.Holds.{Given, Sloped, sloped-prop};

use crate::{Form, Gate, Shape};

// A file with its shape, the arrivals of its inputs and its form, all accepted: made by `accept` alone, since who makes
// one proves that it is.
#[derive(Clone, Copy)]
pub struct Accepted<'a> {
    pub file: &'a [u8],
    pub shape: Shape,
    pub arrivals: &'a [u32],
    pub form: Form<'a>,
    ghost given: { Given file.now shape arrivals.now },
    ghost sloped: { Sloped shape (slopes_of form) } by { sloped-prop shape (slopes_of form) },
}

impl<'a> Accepted<'a> {
    // How many nodes there are: the inputs, then the gates.
    pub fn nodes(&self) -> usize
        ensures { result ≡ self.now.shape.inputs + self.now.shape.gates }
    {
        self.shape.inputs + self.shape.gates
    }

    // A gate by its number.
    pub fn gate(&self, number: usize) -> Gate
        requires { number < self.now.shape.gates }
        ensures value { result ≡ gate_at self.now.file.now self.now.shape number }
        ensures first_small { result.first < 65536 }
        ensures count_small { result.count < 256 }
    {
        crate::gate_at(self.file, self.shape, number)
    }

    // The node that drives a pin.
    pub fn driver(&self, pin: usize) -> usize
        requires { pin < self.now.shape.pins }
        ensures value { result ≡ driver_at self.now.file.now self.now.shape pin }
        ensures small { result < 65536 }
    {
        crate::driver_at(self.file, self.shape, pin)
    }

    // A pin's delay, for a gate that ends at 1 or in the form with one delay a pin.
    pub fn delay(&self, pin: usize) -> usize
        requires { pin < self.now.shape.pins }
        ensures value { result ≡ delay_at self.now.file.now self.now.shape pin }
        ensures small { result < 65536 }
    {
        crate::delay_at(self.file, self.shape, pin)
    }

    // The node of an output.
    pub fn output(&self, position: usize) -> usize
        requires { position < self.now.shape.outputs }
        ensures value { result ≡ output_at self.now.file.now self.now.shape position }
        ensures small { result < 65536 }
    {
        crate::output_at(self.file, self.shape, position)
    }
}
