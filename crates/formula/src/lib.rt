// The formula for a target time: the pairs in a lent table, the clauses in a lent slice of signed numbers.
// Assumes nothing.
#![tactic(auto)]

ghost use Rattle.std.specs.Prelude.{◌≡◌, [], ◌∷◌, ◌+◌, ◌-◌, ◌*◌, ◌/◌, ◌≤◌, ◌<◌, length, get_or, set, take};
ghost use Rattle.basics.specs.Lists.{concat_map, up_from};
ghost use Rattle.netlist.specs.Netlist.{slopes_of};
ghost use Rattle.netlist.specs.File.{pins_from};
ghost use Rattle.netlist.specs.Accepts.{circuit_in};
ghost use Rattle.pairs.specs.Pairs.{pairs_for};
ghost use Rattle.pairs.specs.Rails.{rail_count, node_of};
ghost use Rattle.pairs.specs.Promise.{Tops, Held, Findable, Bounds};
ghost use Rattle.pairs.specs.Table.{pairs_in};
ghost use Rattle.formula.specs.declared.Side.TheVariants.{Pins, Outputs};
ghost use Rattle.formula.specs.Formula.{node_variable, gate_clauses};
ghost use Rattle.formula.specs.Promise.{Meets, refused, building_of, building};
ghost use Rattle.formula.specs.Emission.{
  coded,
  ended,
  wants,
  tokens_of,
  start,
  Emits,
  Puts,
  Fits,
  code_run,
  node_is,
  stored_at,
  literal_run,
  share_run,
  pair_of_pins,
  two_cubes,
  mux_run,
  shares_run,
  simple_run,
  parts_run,
  late_run,
  fixed_run,
  control_run,
  three,
  choice_run,
  variable_bound,
  code_bound,
  share_most,
  gate_most,
  gates_most,
  pairs_most,
  outputs_most,
};
ghost use Rattle.formula.specs.Late.{
  file_in,
  shape_in,
  slopes_in,
  nodes_in,
  top_in,
  variable_in,
  asked_by,
  entry_in,
  Within,
  clauses_in,
  rail_with,
  side_of,
  gate_run,
  pair_run,
  outputs_late,
  whole_run,
  Slices,
  Ready,
  RailAsks,
  Asking,
  Served,
  Gated,
  AllStand,
  PlaceFound,
  LateCode,
  Storable,
  Long,
  kept_by,
  Reads,
};

use netlist::{Accepted, Form, Gate, Kind};
use refusal::Refusal;

// How many variables, pairs, clauses and numbers a formula has.
#[derive(Clone, Copy, Debug, PartialEq, Eq)]
pub struct Counts {
    pub variables: usize,
    pub pairs: usize,
    pub clauses: usize,
    pub numbers: usize,
}

// How far the formula is written: the place of the next number, whether or not there is room for it, and the clauses
// that are ended.
#[derive(Clone, Copy)]
pub struct Emitted {
    pub numbers: usize,
    pub clauses: usize,
}

// A formula as it is written: the slice that is lent for it, and how far it is written.
#[derive(Drop)]
struct Writer<'a> {
    formula: &'a mut [i32],
    at: Emitted,
}

// What a formula is written from: an accepted circuit, the tops of all its nodes and the table of its pairs.
#[derive(Clone, Copy)]
struct Source<'a> {
    accepted: Accepted<'a>,
    tops: &'a [u32],
    table: &'a [u32],
}

// A source, with the places in its table where the pairs of each rail begin: it says which node is late when. Its
// methods take it by value, and so do a source's: behind a reference its parts are read again after each number that is
// written, at a fifth of a build.
#[derive(Clone, Copy)]
struct Lookup<'a> {
    source: Source<'a>,
    starts: &'a [usize],
    ghost ready: { Ready source starts.now },
}

// What was read of a gate's pins, or of the outputs: for each the node that it asks for, and the codes of the node's
// being late, one or two each.
#[derive(Drop)]
struct Read {
    nodes: [u16; 64],
    lates: [u32; 128],
    ghost long: { Long nodes lates },
}

// A node and a time.
#[derive(Clone, Copy)]
pub struct Moment {
    pub node: usize,
    pub time: usize,
}

// A pair of the table: a rail and a time.
#[derive(Clone, Copy)]
pub struct Pair {
    pub rail: usize,
    pub time: usize,
}

// What is known of a node that is asked for: its number, and that it is late, as a code for each of its rails. The
// second code is 0, for no literal, where a node has one rail. Codes and no enum: 128 of them stand in an array, and
// are written as they are.
#[derive(Clone, Copy)]
pub struct Asked {
    pub node: usize,
    pub late: usize,
    pub more: usize,
}

// Who asks whether a node is late: the pins of gates, each for its driver at a time less its own delay, or less the one
// that is lent for gates that end at 0; or the outputs.
#[derive(Clone, Copy)]
pub enum Side<'a> {
    Pins,
    Falls(&'a [u32]),
    Outputs,
}

// What each driver of a gate adds, beside a variable of the gate's or the pair's own: the clause that its driver is
// not at c or the gate is k; the literal that it is at c; the clause that the pair is not, or the driver is late, or
// not at c. The variants hold no c and k, which are passed beside: so the compiler makes a loop of its own for each
// share.
#[derive(Clone, Copy)]
pub enum Share {
    Forced,
    Driver,
    Control,
}

// ---- numbers, one after the other

impl<'a> Writer<'a> {
    // One literal more, by its code.
    fn put_code(&mut self, code: usize)
        requires { Fits 1 self.old.at × (code < code_bound) }
        ensures { Puts 1 (coded code ∷ []) self.old self.new }
    {
        self.at.numbers = clauses::put(self.formula, self.at.numbers, code);
    }

    // One literal more: a variable, as it is wanted.
    fn put_literal(&mut self, variable: usize, wanted: bool)
        requires { Fits 1 self.old.at × (variable < variable_bound) }
        ensures { Puts 1 (wants (wanted, variable) ∷ []) self.old self.new }
    {
        self.put_code(if wanted {
            variable * 2
        } else {
            variable * 2 + 1
        });
    }

    // One literal more: a node, as it is wanted.
    fn put_node(&mut self, node: usize, wanted: bool)
        requires { Fits 1 self.old.at × (node < 65536) }
        ensures { Puts 1 (wants (node_is node wanted) ∷ []) self.old self.new }
    {
        self.put_literal(node + 1, wanted);
    }

    // A part of a clause, as it is wanted: twice its variable; a false part, which has none, is left out.
    fn put_part(&mut self, code: usize, wanted: bool)
        requires { Fits 1 self.old.at × (code < code_bound) }
        ensures { Puts 1 (code_run wanted code) self.old self.new }
    {
        if code < 2 {
            return;
        }
        self.put_literal(code / 2, wanted);
    }

    // The 0 that ends a clause.
    fn put_end(&mut self)
        requires { Fits 1 self.old.at }
        ensures { Puts 1 (ended ∷ []) self.old self.new }
    {
        self.at.numbers = clauses::put(self.formula, self.at.numbers, 0);
        self.at.clauses += 1;
    }
}

// ---- what is known of drivers and outputs

impl Read {
    // The node of entry i.
    fn node_at(&self, i: usize) -> usize
        requires { i < 64 }
        ensures { (result ≡ get_or self.now.nodes i 0) × (result < 65536) }
    {
        usize::from(self.nodes[i])
    }

    // Code i.
    fn late_at(&self, i: usize) -> usize
        requires { i < 128 }
        ensures { (result ≡ get_or self.now.lates i 0) × (result < code_bound) }
    {
        self.lates[i] as usize
    }

    // What was stored of entry i.
    fn asked_at(&self, form: Form<'_>, i: usize) -> Asked
        requires { i < 64 }
        ensures { (result ≡ stored_at (slopes_of form.entry) self.now.nodes self.now.lates i) × Storable result }
    {
        let node = self.node_at(i);
        match form {
            Form::Single => Asked {
                node,
                late: self.late_at(i),
                more: 0,
            },
            Form::RiseFall(_) => Asked {
                node,
                late: self.late_at(i * 2),
                more: self.late_at(i * 2 + 1),
            },
        }
    }

    // What is known of entry i is stored.
    fn store(&mut self, form: Form<'_>, i: usize, asked: Asked)
        requires { (i < 64) × Storable asked }
        ensures { (self.new.nodes ≡ set self.old.nodes i asked.node)
            × (self.new.lates ≡ kept_by (slopes_of form.entry) self.old.lates i asked) }
    {
        self.nodes[i] = asked.node as u16;
        match form {
            Form::Single => {
                self.lates[i] = asked.late as u32;
            }
            Form::RiseFall(_) => {
                self.lates[i * 2] = asked.late as u32;
                self.lates[i * 2 + 1] = asked.more as u32;
            }
        }
    }
}

impl<'a> Writer<'a> {
    // A literal of a controlling cube: its driver late by one of its rails, or the driver not as it is wanted.
    fn put_literal_late(&mut self, driver: Asked, value: bool)
        requires { Fits 3 self.old.at × Storable driver }
        ensures { Puts 3 (literal_run driver value) self.old self.new }
    {
        self.put_part(driver.late, true);
        self.put_part(driver.more, true);
        self.put_node(driver.node, !value);
    }

    // What one driver adds. A control clause is left out where its driver is late outright, which it is by all of its
    // rails or by none.
    fn put_share(&mut self, share: Share, c: bool, k: bool, own: usize, driver: Asked)
        requires { (own < variable_bound) × Storable driver × Fits share_most self.old.at }
        ensures { Puts share_most (share_run share c k own driver) self.old self.new }
    {
        match share {
            Share::Forced => {
                self.put_node(driver.node, !c);
                self.put_literal(own, k);
                self.put_end();
            }
            Share::Driver => self.put_node(driver.node, c),
            Share::Control => {
                if driver.late == 1 {
                    return;
                }
                self.put_literal(own, false);
                self.put_literal_late(driver, c);
                self.put_end();
            }
        }
    }

    // What each of `count` drivers adds: the one loop over a gate's pins.
    fn put_shares(
        &mut self,
        form: Form<'_>,
        read: &Read,
        count: usize,
        share: Share,
        c: bool,
        k: bool,
        own: usize,
    )
        requires { (count ≤ 64) × (own < variable_bound) × Fits (count * share_most) self.old.at }
        ensures { Puts (count * share_most)
            (shares_run (slopes_of form.entry) share c k own read.now.nodes read.now.lates count) self.old self.new }
    {
        for i in 0..count {
            self.put_share(share, c, k, own, read.asked_at(form, i));
        }
    }

    // The parts of `count` codes: what is late of a gate's drivers, or of the outputs.
    fn put_parts(&mut self, read: &Read, count: usize)
        requires { (count ≤ 128) × Fits (count * 1) self.old.at }
        ensures { Puts (count * 1) (parts_run read.now.lates count) self.old self.new }
    {
        for i in 0..count {
            self.put_part(read.late_at(i), true);
        }
    }

    // Not the head, or something late, of `count` codes that were read, where `head` is twice a variable or 0 for none;
    // left out where something is late outright.
    fn late_clause(&mut self, head: usize, read: &Read, count: usize, sure: bool)
        requires { (head < code_bound) × (count ≤ 128) × Fits (count + 2) self.old.at }
        ensures { Puts (count + 2) (late_run head count read.now.lates sure) self.old self.new }
    {
        if sure {
            return;
        }
        self.put_part(head, false);
        self.put_parts(read, count);
        self.put_end();
    }
}

// ---- who is late

impl<'a> Source<'a> {
    // The variable of pair k (rule F5).
    fn pair_variable(self, k: usize) -> usize
        requires { Slices self × (k < 65536) }
        ensures { result ≡ nodes_in self.entry + k + 1 }
    {
        self.accepted.nodes() + k + 1
    }

    // What an entry asks for: a pin its driver, at t less its delay, where what would be negative is 0 (rule F3); an
    // output itself, at t.
    fn moment_at(self, side: Side<'_>, entry: usize, t: usize) -> Moment
        requires { Within (shape_in self) side entry }
        ensures { (result.node ≡ (entry_in self.entry side.entry entry).driver)
            × (result.time ≡ t - (entry_in self.entry side.entry entry).delay) × (result.node < 65536) }
    {
        let accepted = self.accepted;
        match side {
            Side::Pins => Moment {
                node: accepted.driver(entry),
                time: t.saturating_sub(accepted.delay(entry)),
            },
            Side::Falls(falls) => Moment {
                node: accepted.driver(entry),
                time: t.saturating_sub(falls[entry] as usize),
            },
            Side::Outputs => Moment {
                node: accepted.output(entry),
                time: t,
            },
        }
    }

    // Pair k of the table.
    fn pair_at(self, k: usize) -> Pair
        requires { k < length self.table.now / 2 }
        ensures { (result.rail ≡ get_or self.entry.table.now (k * 2) 0)
            × (result.time ≡ get_or self.entry.table.now (k * 2 + 1) 0) }
    {
        Pair {
            rail: self.table[k * 2] as usize,
            time: self.table[k * 2 + 1] as usize,
        }
    }
}

impl<'a> Lookup<'a> {
    // A pair's place in the table, with a guess at it.
    fn place_of(self, rail: usize, t: usize, guess: usize) -> usize
        requires { Findable self.source.table.now (length self.source.table.now / 2) rail t
            × Bounds (pairs_in (take (length self.source.table.now / 2 * 2) self.source.table.now)) self.starts.now
            rail }
        ensures { PlaceFound self.entry.source.table.now rail t result }
    {
        let table = self.source.table;
        pairs::place(table, table.len() / 2, self.starts, rail, t, guess)
    }

    // That a node is late at t by one of its rails, as a code: 1 if true outright, 0 if false outright, else the code
    // of its pair's literal, with a guess at the pair's place.
    fn late_code(self, node: usize, rail: usize, t: usize, guess: usize) -> usize
        requires { RailAsks self.source self.starts.now node rail t }
        ensures { LateCode self.entry.source node rail t result }
    {
        let top = self.source.tops[node] as usize;
        if node < self.source.accepted.shape.inputs {
            if t <= top {
                return 1;
            }
            return 0;
        }
        if t == 0 {
            return 1;
        }
        if top < t {
            return 0;
        }
        let place = self.place_of(rail, t, guess);
        self.source.pair_variable(place) * 2
    }

    // A guess at the place of what code i was stored of: the one after the place whose code was stored last. The times
    // of a gate's pairs rise, and those of a driver's pairs often with them.
    fn guess_at(self, read: &Read, i: usize) -> usize
        requires { i < 128 }
    {
        (read.late_at(i) / 2).saturating_sub(self.source.accepted.nodes())
    }

    // What is known of the node that entry i asks for, by what was stored of the entry last.
    #[inline(always)]
    fn ask(self, read: &Read, i: usize, asked: Moment) -> Asked
        requires { Asking self.source asked.node asked.time × (asked.node < 65536) × (i < 64) }
        ensures { (result ≡ asked_by (slopes_in self.entry.source) self.entry.source asked.node asked.time)
            × Storable result }
    {
        let node = asked.node;
        let time = asked.time;
        match self.source.accepted.form {
            Form::Single => Asked {
                node,
                late: self.late_code(node, node, time, self.guess_at(read, i)),
                more: 0,
            },
            Form::RiseFall(_) => Asked {
                node,
                late: self.late_code(node, node * 2, time, self.guess_at(read, i * 2)),
                more: self.late_code(node, node * 2 + 1, time, self.guess_at(read, i * 2 + 1)),
            },
        }
    }

    // What each of `count` entries asks for, from number `first` on, and whether some of it is late outright. It is
    // laid into each of its three callers, with `ask`: one of them reads for each pair.
    #[inline(always)]
    fn read(self, side: Side<'_>, first: usize, count: usize, t: usize, read: &mut Read) -> bool
        requires { Served self.source side first count t × (count ≤ 64) × (first + count ≤ 2048) }
        ensures { Reads self.entry.source side.entry first count t read.new.nodes read.new.lates result }
    {
        let mut sure = false;
        for i in 0..count {
            let moment = self.source.moment_at(side, first + i, t);
            let asked = self.ask(read, i, moment);
            read.store(self.source.accepted.form, i, asked);
            sure |= asked.late == 1;
        }
        sure
    }
}

// ---- 1. each gate

impl<'a> Writer<'a> {
    // A clause of a gate f, one of whose pins chooses and another is chosen: pin x is a, or pin y is b, or f is c.
    fn choice_clause(
        &mut self,
        read: &Read,
        x: usize,
        a: bool,
        y: usize,
        b: bool,
        f: usize,
        c: bool,
    )
        requires { (x < 64) × (y < 64) × (f < 65536) × Fits 4 self.old.at }
        ensures { Puts 4 (three (node_is (get_or read.now.nodes x 0) a) (node_is (get_or read.now.nodes y 0) b)
            (node_is f c)) self.old self.new }
    {
        self.put_node(read.node_at(x), a);
        self.put_node(read.node_at(y), b);
        self.put_node(f, c);
        self.put_end();
    }

    // A gate f whose first pin s chooses between a, its second, and b, its last. Four clauses: s, or a is d, or f is e;
    // s, or a is not d, or f is not e; then the same two of not s, with b for a and g for e. A multiplexer chooses
    // between two pins, a parity gate between a pin and its opposite. It is laid into its callers, as two functions
    // below are: a call left over would keep the writer in memory, at up to 5 % of a build.
    #[inline(always)]
    fn choice_clauses(&mut self, read: &Read, last: usize, d: bool, e: bool, g: bool, f: usize)
        requires { (last < 64) × (f < 65536) × Fits 16 self.old.at }
        ensures { Puts 16 (choice_run (get_or read.now.nodes 0 0) (get_or read.now.nodes 1 0)
            (get_or read.now.nodes last 0) d e g f) self.old self.new }
    {
        self.choice_clause(read, 0, true, 1, d, f, e);
        self.choice_clause(read, 0, true, 1, !d, f, !e);
        self.choice_clause(read, 0, false, last, d, f, g);
        self.choice_clause(read, 0, false, last, !d, f, !g);
    }

    // A simple gate: a clause of two literals for each pin, then one over all pins (rule F9).
    fn simple_clauses(
        &mut self,
        form: Form<'_>,
        read: &Read,
        count: usize,
        c: bool,
        k: bool,
        node: usize,
    )
        requires { (count ≤ 8) × (node < 65536) × Fits gate_most self.old.at }
        ensures { Puts gate_most (simple_run (slopes_of form.entry) c k node read.now.nodes read.now.lates count)
            self.old self.new }
    {
        let own = node + 1;
        self.put_shares(form, read, count, Share::Forced, c, k, own);
        self.put_shares(form, read, count, Share::Driver, c, k, own);
        self.put_node(node, !k);
        self.put_end();
    }
}

impl<'a> Lookup<'a> {
    // The clauses of one gate, by its kind. No time is asked for: its drivers are read at 0.
    fn gate_clauses(self, gate: Gate, node: usize, read: &mut Read, writer: &mut Writer<'_>)
        requires { Gated self.source Pins gate 0 × (node < 65536) × Fits gate_most writer.old.at }
        ensures { Puts gate_most (tokens_of (gate_clauses node_variable gate.kind
            (pins_from (file_in self.entry.source) (shape_in self.entry.source) gate.first gate.count) node))
            writer.old writer.new }
    {
        let form = self.source.accepted.form;
        let count = gate.count;
        self.read(Side::Pins, gate.first, count, 0, read);
        match gate.kind {
            Kind::Simple { c, k } => writer.simple_clauses(form, read, count, c, k, node),
            Kind::Parity(equal) => writer.choice_clauses(read, 1, true, equal, !equal, node),
            Kind::Mux => writer.choice_clauses(read, 2, false, true, true, node),
        }
    }

    // Each gate, rising.
    fn all_gates(self, read: &mut Read, writer: &mut Writer<'_>)
        requires { Fits gates_most writer.old.at }
        ensures { Puts gates_most (concat_map (gate_run (file_in self.entry.source) (shape_in self.entry.source))
            (up_from 0 (shape_in self.entry.source).gates)) writer.old writer.new }
    {
        let accepted = self.source.accepted;
        for i in 0..accepted.shape.gates {
            self.gate_clauses(accepted.gate(i), accepted.shape.inputs + i, read, writer);
        }
    }
}

// ---- 2. each pair

impl<'a> Writer<'a> {
    // The clause of a controlling cube of two literals, pin x at a and pin y at b: not the pair, or x late, or not at
    // a, or y late, or not at b. It is left out where a driver is late outright. Laid into its callers for the writer's
    // sake.
    #[inline(always)]
    fn cube_clause(
        &mut self,
        form: Form<'_>,
        read: &Read,
        pair: usize,
        x: usize,
        a: bool,
        y: usize,
        b: bool,
    )
        requires { (x < 64) × (y < 64) × (pair < variable_bound) × Fits 8 self.old.at }
        ensures { Puts 8 (pair_of_pins (slopes_of form.entry) pair read.now.nodes read.now.lates x a y b) self.old
            self.new }
    {
        let one = read.asked_at(form, x);
        let two = read.asked_at(form, y);
        if one.late == 1 {
            return;
        }
        if two.late == 1 {
            return;
        }
        self.put_literal(pair, false);
        self.put_literal_late(one, a);
        self.put_literal_late(two, b);
        self.put_end();
    }

    // Two cubes: pin x at a and pin y at 0; pin x at b and pin y at 1. Laid into its caller for the writer's sake.
    #[inline(always)]
    fn two_cubes(
        &mut self,
        form: Form<'_>,
        read: &Read,
        pair: usize,
        x: usize,
        a: bool,
        b: bool,
        y: usize,
    )
        requires { (x < 64) × (y < 64) × (pair < variable_bound) × Fits 16 self.old.at }
        ensures { Puts 16 (two_cubes (slopes_of form.entry) pair read.now.nodes read.now.lates x a b y) self.old
            self.new }
    {
        self.cube_clause(form, read, pair, x, a, y, false);
        self.cube_clause(form, read, pair, x, b, y, true);
    }

    // The clauses of a multiplexer's controlling cubes: select with the pin that it chooses, at 0 and at 1, then both
    // data pins alike.
    fn mux_control(&mut self, form: Form<'_>, read: &Read, pair: usize)
        requires { (pair < variable_bound) × Fits 48 self.old.at }
        ensures { Puts 48 (mux_run (slopes_of form.entry) pair read.now.nodes read.now.lates) self.old self.new }
    {
        self.two_cubes(form, read, pair, 0, false, false, 1);
        self.two_cubes(form, read, pair, 0, true, true, 2);
        self.two_cubes(form, read, pair, 1, false, true, 2);
    }

    // The clauses of what controls a gate of this kind, by what was read of its drivers.
    fn control_clauses(
        &mut self,
        form: Form<'_>,
        kind: Kind,
        read: &Read,
        count: usize,
        pair: usize,
    )
        requires { (count ≤ 8) × (pair < variable_bound) × Fits 48 self.old.at }
        ensures { Puts 48 (control_run (slopes_of form.entry) kind pair read.now.nodes read.now.lates count) self.old
            self.new }
    {
        match kind {
            Kind::Simple { c, k: _ } => self.put_shares(
                form,
                read,
                count,
                Share::Control,
                c,
                false,
                pair,
            ),
            Kind::Parity(_) => {}
            Kind::Mux => self.mux_control(form, read, pair),
        }
    }

    // The clause that the pair is not, or its gate has the final value that the rail speaks of; none where a node has
    // one rail.
    fn fixed_clause(&mut self, form: Form<'_>, rail: usize, pair: usize)
        requires { (node_of (slopes_of form) rail < 65536) × (pair < variable_bound) × Fits 3 self.old.at }
        ensures { Puts 3 (fixed_run (slopes_of form.entry) rail pair) self.old self.new }
    {
        match form {
            Form::Single => {}
            Form::RiseFall(_) => {
                self.put_literal(pair, false);
                self.put_node(rail / 2, rail % 2 == 1);
                self.put_end();
            }
        }
    }
}

// The delays that a rail goes by: the lent ones where the gate ends at 0.
fn side_of(form: Form<'_>, rail: usize) -> Side<'_>
    ensures { result ≡ side_of form.entry rail }
{
    match form {
        Form::Single => Side::Pins,
        Form::RiseFall(falls) => {
            if rail % 2 == 1 {
                return Side::Pins;
            }
            Side::Falls(falls)
        }
    }
}

impl<'a> Lookup<'a> {
    // The clauses of a pair of a rail at time t with this variable, whose gate is this one.
    fn pair_clauses(
        self,
        gate: Gate,
        rail: usize,
        pair: usize,
        t: usize,
        read: &mut Read,
        writer: &mut Writer<'_>,
    )
        requires { Gated self.source (side_of self.source.accepted.form rail) gate t
            × (node_of (slopes_in self.source) rail < 65536) × (pair ≡ variable_in self.source rail t)
            × (pair < variable_bound) × Fits gate_most writer.old.at }
        ensures { Puts gate_most (clauses_in self.entry.source (slopes_in self.entry.source)
            (rail_with (slopes_in self.entry.source) rail gate.kind
            (pins_from (file_in self.entry.source) (shape_in self.entry.source) gate.first gate.count)) t)
            writer.old writer.new }
    {
        let form = self.source.accepted.form;
        let count = gate.count;
        let side = side_of(form, rail);
        let sure = self.read(side, gate.first, count, t, read);
        writer.fixed_clause(form, rail, pair);
        writer.late_clause(pair * 2, read, pairs::rail_count(form, count), sure);
        writer.control_clauses(form, gate.kind, read, count, pair);
    }

    // Each pair, rising variable. A gate is looked up once for all of its pairs, which stand together; no gate is
    // node 0.
    fn all_pairs(self, read: &mut Read, writer: &mut Writer<'_>)
        requires { AllStand self.source × Fits pairs_most writer.old.at }
        ensures { Puts pairs_most (concat_map (pair_run self.entry.source)
            (up_from 0 (length self.entry.source.table.now / 2))) writer.old writer.new }
    {
        let source = self.source;
        let mut last = 0;
        let mut gate = Gate {
            kind: Kind::Mux,
            first: 0,
            count: 0,
        };
        for k in 0..source.table.len() / 2 {
            let pair = source.pair_at(k);
            let node = pairs::node_of(source.accepted.form, pair.rail);
            if node != last {
                gate = source.accepted.gate(node - source.accepted.shape.inputs);
                last = node;
            }
            self.pair_clauses(
                gate,
                pair.rail,
                source.pair_variable(k),
                pair.time,
                read,
                writer,
            );
        }
    }

    // The clause of the outputs: some output is late (rule F13).
    fn output_clause(self, target: usize, read: &mut Read, writer: &mut Writer<'_>)
        requires { Served self.source Outputs 0 (shape_in self.source).outputs target
            × Fits outputs_most writer.old.at }
        ensures { Puts outputs_most (outputs_late self.entry.source target) writer.old writer.new }
    {
        let count = self.source.accepted.shape.outputs;
        let sure = self.read(Side::Outputs, 0, count, target, read);
        writer.late_clause(
            0,
            read,
            pairs::rail_count(self.source.accepted.form, count),
            sure,
        );
    }
}

// ---- 3. all of it

impl<'a> Lookup<'a> {
    // Gates, pairs and outputs in order. What is read of a gate's pins, or of the outputs, is held in one place for all
    // of them: it is zeroed once, and a pair finds there what the one before it left.
    fn whole_formula(self, target: usize, writer: &mut Writer<'_>)
        requires { AllStand self.source × Served self.source Outputs 0 (shape_in self.source).outputs target
            × Fits (gates_most + pairs_most + outputs_most) writer.old.at }
        ensures { Puts (gates_most + pairs_most + outputs_most) (whole_run self.entry.source target) writer.old
            writer.new }
    {
        let mut read = Read {
            nodes: [0; 64],
            lates: [0; 128],
        };
        self.all_gates(&mut read, writer);
        self.all_pairs(&mut read, writer);
        self.output_clause(target, &mut read, writer);
    }
}

// All of it from the slice's first place on. It is one function for both sizes of `starts`, so that what it calls has
// one caller and is laid into it.
fn emit_from(
    source: Source<'_>,
    starts: &mut [usize],
    target: usize,
    formula: &mut [i32],
) -> Emitted
    requires { Slices source × AllStand source × Served source Outputs 0 (shape_in source).outputs target
        × (rail_count (slopes_in source) (nodes_in source) < length starts.old) }
    ensures { Emits (gates_most + pairs_most + outputs_most) (whole_run source.entry target) formula.old start
        formula.new result }
{
    let rails = pairs::rail_count(source.accepted.form, source.accepted.nodes());
    pairs::starts(source.table, source.table.len() / 2, rails, starts);
    let lookup = Lookup { source, starts };
    let mut writer = Writer {
        formula,
        at: Emitted {
            numbers: 0,
            clauses: 0,
        },
    };
    lookup.whole_formula(target, &mut writer);
    writer.at
}

// The same with places for fewer than N rails.
fn emit_with<const N: usize>(source: Source<'_>, target: usize, formula: &mut [i32]) -> Emitted
    requires { Slices source × AllStand source × Served source Outputs 0 (shape_in source).outputs target
        × (rail_count (slopes_in source) (nodes_in source) < N) × (N < 65536) }
    ensures { Emits (gates_most + pairs_most + outputs_most) (whole_run source.entry target) formula.old start
        formula.new result }
{
    let mut starts = [0usize; N];
    emit_from(source, &mut starts, target, formula)
}

// The same: 512 nodes at most have so many rails, or twice as many.
fn emit(source: Source<'_>, target: usize, formula: &mut [i32]) -> Emitted
    requires { Slices source × AllStand source × Served source Outputs 0 (shape_in source).outputs target }
    ensures { Emits (gates_most + pairs_most + outputs_most) (whole_run source.entry target) formula.old start
        formula.new result }
{
    match source.accepted.form {
        Form::Single => emit_with::<513>(source, target, formula),
        Form::RiseFall(_) => emit_with::<1025>(source, target, formula),
    }
}

// The formula of an accepted circuit whose tops and pairs are known; 9 where it has no room.
fn write(
    accepted: Accepted<'_>,
    target: usize,
    tops: &[u32],
    count: usize,
    pairs: &mut [u32],
    formula: &mut [i32],
) -> Result<Counts, Refusal>
    requires { Tops accepted.file.now accepted.shape accepted.arrivals.now
        (slopes_of accepted.form) tops.now
        × Held (slopes_of accepted.form) (pairs_for (circuit_in accepted) target) (length pairs.old)
        pairs.old (Some count) }
    ensures { Meets (building_of (circuit_in accepted.entry) target (length pairs.old) (length formula.old)) result
        pairs.new formula.new }
{
    let nodes = accepted.nodes();
    let source = Source {
        accepted,
        tops: &tops[..nodes],
        table: &pairs[..count * 2],
    };
    let emitted = emit(source, target, formula);
    let numbers = emitted.numbers;
    if formula.len() < numbers {
        lent::zero(pairs);
        lent::zero(formula);
        return Err(Refusal::Room(numbers));
    }
    pairs::spread(accepted.form, pairs, count);
    lent::zero_rest(formula, numbers);
    Ok(Counts {
        variables: nodes + count,
        pairs: count,
        clauses: emitted.clauses,
        numbers,
    })
}

// The formula for a target, of an accepted circuit.
pub fn build_accepted(
    accepted: &Accepted<'_>,
    target: u32,
    pairs: &mut [u32],
    formula: &mut [i32],
) -> Result<Counts, Refusal>
    ensures { Meets (building_of (circuit_in accepted.now) target (length pairs.old) (length formula.old))
        result pairs.new formula.new }
{
    let mut tops = [0u32; 512];
    pairs::tops(accepted, &mut tops);
    let wanted = target as usize;
    match pairs::table(accepted, wanted, &tops, pairs) {
        Some(count) => write(*accepted, wanted, &tops, count, pairs, formula),
        None => {
            lent::zero(formula);
            Err(Refusal::Pairs)
        }
    }
}

// The formula for a target, of any bytes, any arrivals and any form.
pub fn build(
    file: &[u8],
    arrivals: &[u32],
    form: Form<'_>,
    target: u32,
    pairs: &mut [u32],
    formula: &mut [i32],
) -> Result<Counts, Refusal>
    ensures { Meets (building file.now arrivals.now (slopes_of form.entry) target (length pairs.old)
        (length formula.old)) result pairs.new formula.new }
{
    match netlist::accept(file, arrivals, form) {
        Ok(accepted) => build_accepted(&accepted, target, pairs, formula),
        Err(refusal) => {
            lent::zero(pairs);
            lent::zero(formula);
            Err(refusal)
        }
    }
}
