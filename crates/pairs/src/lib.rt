// The tops of all nodes, and the pairs of a target in a lent table, each a rail and a time: a node has one rail, or two
// where the delays of rise and fall stand apart. The table is filled from its end, one rail after the other from the
// last: what is asked of a rail is marked, and read from the highest mark down, so that nothing is inserted or sorted.
// Assumes nothing.
#![tactic(auto)]

ghost use Rattle.std.specs.Prelude.{
  ◌≡◌,
  List,
  ◌∷◌,
  ◌++◌,
  ℕ,
  ◌+◌,
  ◌-◌,
  ◌*◌,
  ◌/◌,
  ◌≤◌,
  ◌<◌,
  max,
  min,
  length,
  get_or,
  IsTrue,
  ◌↔◌,
  take,
  drop,
};
ghost use Rattle.netlist.specs.Netlist.{apart, slopes_of, slowest};
ghost use Rattle.netlist.specs.File.{cell_at};
ghost use Rattle.netlist.specs.Open.{pins_before};
ghost use Rattle.settle.specs.Settling.{last, ready_at};
ghost use Rattle.pairs.specs.Rails.{rail_count, node_of};
ghost use Rattle.pairs.specs.Pairs.{pair_place, pair_numbers, table_holds};
ghost use Rattle.pairs.specs.Table.{
  far_time,
  pairs_in,
  pair_at,
  key_of,
  Sorted,
  Searching,
  Precede,
  Marked,
  Adds,
  Roomy,
  Spans,
  Within,
  slow_at,
  askers,
  PinAsks,
  LinkAsks,
  OutputAsks,
  most_pins,
  Ended,
  Kept,
  Put,
};
ghost use Rattle.pairs.specs.Query.{Linked, rails, pairs_of, IsOutput, AsksOf, Answerable};
ghost use Rattle.pairs.specs.Promise.{Topped, Tops, pairs_at, Held, Spread, Lists, Findable, Bounds, Begins};

use netlist::{Accepted, Form};

// A pair of the table as one number.
fn key_at(pairs: &[u32], k: usize) -> usize
    requires { k < length pairs.now / 2 }
    ensures { result ≡ key_of (pair_at (pairs_in pairs.now) k) }
{
    let node = pairs[k * 2] as usize;
    let time = pairs[k * 2 + 1] as usize;
    node * 4294967296 + time
}

// The time of a pair of the table.
fn time_at(pairs: &[u32], k: usize) -> usize
    requires { k < length pairs.now / 2 }
    ensures { result ≡ (pair_at (pairs_in pairs.now) k).1 }
{
    pairs[k * 2 + 1] as usize
}

// How many rails so many nodes have.
pub fn rail_count(form: Form<'_>, nodes: usize) -> usize
    requires { nodes < 65536 }
    ensures { result ≡ rail_count (slopes_of form.entry) nodes }
{
    match form {
        Form::Single => nodes,
        Form::RiseFall(_) => nodes * 2,
    }
}

// The node of a rail.
pub fn node_of(form: Form<'_>, rail: usize) -> usize
    ensures { result ≡ node_of (slopes_of form.entry) rail }
{
    match form {
        Form::Single => rail,
        Form::RiseFall(_) => rail / 2,
    }
}

// A pin's delay, the larger one where there are two.
fn slow_at(accepted: &Accepted<'_>, pin: usize) -> usize
    requires { pin < accepted.now.shape.pins }
    ensures { (result ≡ slow_at accepted.now.file.now accepted.now.shape (slopes_of accepted.now.form)
        pin) × (result < 65536) }
{
    let delay = accepted.delay(pin);
    match accepted.form {
        Form::Single => delay,
        Form::RiseFall(falls) => delay.max(falls[pin] as usize),
    }
}

// When the last pin of a gate is ready, if each of its drivers settles at the driver's top.
fn last_ready(accepted: &Accepted<'_>, number: usize, tops: &[u32]) -> usize
    requires { (number < accepted.now.shape.gates)
        × (length tops.now ≡ accepted.now.shape.inputs + number) }
    ensures { result ≡ last (ready_at (λ node. get_or tops.now node 0))
        (slowest (slopes_of accepted.now.form) (cell_at accepted.now.file.now accepted.now.shape number).pins) }
{
    let gate = accepted.gate(number);
    let mut latest = 0;
    for k in 0..gate.count {
        let pin = gate.first + k;
        let driver = accepted.driver(pin);
        let delay = slow_at(accepted, pin);
        latest = latest.max(tops[driver] as usize + delay);
    }
    latest
}

// The tops of all nodes, the inputs' arrivals first, and zeros after them.
pub fn tops(accepted: &Accepted<'_>, tops: &mut [u32])
    requires { accepted.now.shape.inputs + accepted.now.shape.gates ≤ length tops.old }
    ensures { Topped accepted.now.file.now accepted.now.shape accepted.now.arrivals.now (slopes_of accepted.now.form)
        (length tops.old) tops.new }
{
    lent::copy(accepted.arrivals, tops);
    for i in 0..accepted.shape.gates {
        let node = accepted.shape.inputs + i;
        let top = last_ready(accepted, i, &tops[..node]);
        tops[node] = top as u32;
    }
    lent::zero_rest(tops, accepted.nodes());
}

// How many pairs stand before a key, by halves: from `least` to `most` of them. Not std's `partition_point`, which goes
// over the entries of a slice: a pair is two of them.
fn pairs_before(pairs: &[u32], key: usize, least: usize, most: usize) -> usize
    requires { Sorted (pairs_in pairs.now) × Searching (pairs_in pairs.now) key least most }
    ensures { Precede (pairs_in pairs.now) key result }
{
    let mut low = least;
    let mut high = most;
    while low < high {
        let middle = low + (high - low) / 2;
        if key_at(pairs, middle) < key {
            low = middle + 1;
        } else {
            high = middle;
        }
    }
    low
}

// Where the pairs of each node begin among the first `count` pairs of a table, and where those of the last node end.
pub fn starts(table: &[u32], count: usize, nodes: usize, starts: &mut [usize])
    requires { Sorted (pairs_in (take (count * 2) table.now)) × (count * 2 ≤ length table.now)
        × (nodes < 65536) × (nodes < length starts.old) }
    ensures { Begins (pairs_in (take (count * 2) table.now)) starts.new nodes }
{
    let pairs = &table[..count * 2];
    for node in 0..=nodes {
        starts[node] = pairs_before(pairs, node * 4294967296, 0, count);
    }
}

// The place of a pair among the first `count` pairs of a table: where it is guessed, if it stands there, or else by
// halves.
pub fn place(
    table: &[u32],
    count: usize,
    starts: &[usize],
    node: usize,
    time: usize,
    guess: usize,
) -> usize
    requires { Findable table.now count node time
        × Bounds (pairs_in (take (count * 2) table.now)) starts.now node }
    ensures { (pairs : List (ℕ × ℕ)) → Lists table.now count pairs →
        result ≡ pair_place node time pairs }
{
    let pairs = &table[..count * 2];
    let low = starts[node];
    let high = starts[node + 1];
    if low <= guess && guess < high && time_at(pairs, guess) == time {
        return guess;
    }
    pairs_before(pairs, node * 4294967296 + time, low, high)
}

// ---- the pins that each node drives

// The pins that each node drives, in chains of links: a node's head is the number of its first link, or 0. Link e is
// that of pin e - 1, and holds the number of the next link, or 0, times 512, plus the pin's gate.
#[derive(Drop)]
struct Fanout {
    heads: [u32; 512],
    links: [u32; 2048],
}

impl Fanout {
    // Link the pins of a gate, each before the others that its driver drives.
    fn link_gate(&mut self, accepted: &Accepted<'_>, number: usize)
        requires { (number < accepted.now.shape.gates)
            × Linked accepted.now number self.old (pins_before accepted.now.file.now accepted.now.shape number) }
        ensures { Linked accepted.now (number + 1) self.new
            (pins_before accepted.now.file.now accepted.now.shape (number + 1)) }
    {
        let gate = accepted.gate(number);
        for k in 0..gate.count {
            let pin = gate.first + k;
            let driver = accepted.driver(pin);
            self.links[pin] = (self.heads[driver] as usize * 512 + number) as u32;
            self.heads[driver] = (pin + 1) as u32;
        }
    }

    // Link all pins.
    fn link(&mut self, accepted: &Accepted<'_>)
        requires { (f : ℕ) → get_or self.old.heads f 0 ≡ 0 }
        ensures { Linked accepted.now accepted.now.shape.gates self.new most_pins }
    {
        for i in 0..accepted.shape.gates {
            self.link_gate(accepted, i);
        }
    }
}

// ---- times as marks, a bit each, and the words in which they stand

// The words in which marks stand: from `low` to before `high`.
#[derive(Clone, Copy)]
struct Span {
    low: usize,
    high: usize,
}

impl Span {
    // No word: the first one is after all words of marks.
    const NONE: Span = Span { low: 7151, high: 0 };

    // The words of a span, and those of the times from one to another.
    fn with(self, first: usize, last: usize) -> Span
        requires { last < far_time }
        ensures low { result.low ≡ min self.low (first / 64) }
        ensures high { result.high ≡ max self.high (last / 64 + 1) }
    {
        Span {
            low: self.low.min(first / 64),
            high: self.high.max(last / 64 + 1),
        }
    }
}

// Mark a time.
fn mark(marks: &mut [usize], time: usize)
    requires { time / 64 < length marks.old }
    ensures { Adds marks.old (λ t. t ≡ time) marks.new }
{
    marks[time / 64] |= 1usize << (time % 64);
}

// ---- what is asked of a node by the pairs that are found

// Pairs that are found: all of the rails from `first` on. `ends` says of each of these rails, and of the one after the
// last, how many of the pairs stand from its first one on.
#[derive(Clone, Copy)]
struct Found<'a> {
    pairs: &'a [u32],
    ends: &'a [u32],
    first: usize,
    ghost sorted: { Sorted (pairs_in pairs.now) },
    ghost ended: { Ended (pairs_in pairs.now) first (first + length ends.now - 1) ends.now first },
}

impl Found<'_> {
    // Where the pairs of a rail begin.
    fn begin(&self, rail: usize) -> usize
        requires { (self.now.first ≤ rail) × (rail < self.now.first + length self.now.ends.now) }
        ensures { Precede (pairs_in self.now.pairs.now) (rail * 4294967296) result }
    {
        self.pairs.len() / 2 - self.ends[rail - self.first] as usize
    }

    // Mark what a pin with this delay asks for by a rail, from 1 to the top: of the rail's pairs, those from the one
    // after the delay to the one at the top and the delay. Laid into `fill`: a call for each pin costs 28 % of filling
    // where few pairs are asked for.
    #[inline]
    fn mark_rail(
        &self,
        rail: usize,
        delay: usize,
        top: usize,
        marks: &mut [usize],
        span: Span,
    ) -> Span
        requires { (self.now.first ≤ rail) × (rail + 1 < self.now.first + length self.now.ends.now) × (rail < 65536)
            × (delay < 1000) × (top < far_time) × (top / 64 < length marks.old) × Spans top marks.old span }
        ensures { Adds marks.old (Within top (PinAsks (pairs_in self.now.pairs.now) rail delay)) marks.new
            × Spans top marks.new result }
    {
        let pairs = self.pairs;
        let next = self.begin(rail + 1);
        let key = rail * 4294967296 + delay;
        let begin = pairs_before(pairs, key + 1, self.begin(rail), next);
        let end = pairs_before(pairs, key + top + 1, begin, next);
        if end <= begin {
            return span;
        }
        for k in begin..end {
            mark(marks, time_at(pairs, k) - delay);
        }
        let first = time_at(pairs, begin) - delay;
        let last = time_at(pairs, end - 1) - delay;
        span.with(first, last)
    }
}

// What is asked of an accepted circuit: the pairs of a target. `tops` begins with the tops of all nodes.
#[derive(Clone, Copy)]
struct Query<'a> {
    accepted: &'a Accepted<'a>,
    target: usize,
    tops: &'a [u32],
    fanout: &'a Fanout,
}

impl Query<'_> {
    // A node is an output. A loop, since by `any` an output costs five instructions more.
    fn is_output(&self, node: usize) -> bool
        ensures { IsTrue result ↔ IsOutput self.now.accepted.now node }
    {
        for i in 0..self.accepted.shape.outputs {
            if self.accepted.output(i) == node {
                return true;
            }
        }
        false
    }

    // Mark the target, where f is an output and the target is 1 to the top; nothing is marked before.
    fn mark_output(&self, f: usize, top: usize, marks: &mut [usize]) -> Span
        requires { (top / 64 < length marks.old) × ((t : ℕ) → Marked marks.old t → ⊥) }
        ensures { Adds marks.old
            (Within top
            (OutputAsks self.now.accepted.now.file.now self.now.accepted.now.shape self.now.target f))
            marks.new × Spans top marks.new result }
    {
        let target = self.target;
        if target == 0 || top < target || !self.is_output(f) {
            return Span::NONE;
        }
        mark(marks, target);
        Span {
            low: target / 64,
            high: target / 64 + 1,
        }
    }

    // Mark what a pin asks for by each rail of its gate, from 1 to the top.
    fn mark_link(
        &self,
        found: &Found<'_>,
        number: usize,
        pin: usize,
        top: usize,
        marks: &mut [usize],
        span: Span,
    ) -> Span
        requires { (number < self.now.accepted.now.shape.gates) × (pin < self.now.accepted.now.shape.pins)
            × (found.now.first ≤ rails self.now (self.now.accepted.now.shape.inputs + number))
            × (rails self.now (self.now.accepted.now.shape.inputs + self.now.accepted.now.shape.gates)
            < found.now.first + length found.now.ends.now)
            × (top < far_time) × (top / 64 < length marks.old) × Spans top marks.old span }
        ensures { Adds marks.old
            (Within top
            (LinkAsks (pairs_in found.now.pairs.now)
            (askers self.now.accepted.now.file.now self.now.accepted.now.shape
            (slopes_of self.now.accepted.now.form) (number, pin))))
            marks.new × Spans top marks.new result }
    {
        let accepted = self.accepted;
        let delay = accepted.delay(pin);
        let node = accepted.shape.inputs + number;
        match accepted.form {
            Form::Single => found.mark_rail(node, delay, top, marks, span),
            Form::RiseFall(falls) => {
                let fall = falls[pin] as usize;
                let first = found.mark_rail(node * 2, fall, top, marks, span);
                found.mark_rail(node * 2 + 1, delay, top, marks, first)
            }
        }
    }

    // Mark what is asked of the rails of f, from 1 to a top: by the outputs, and by the pins that f drives.
    fn mark_asked(&self, found: &Found<'_>, f: usize, top: usize, marks: &mut [usize]) -> Span
        requires { Answerable self.now
            × (f < self.now.accepted.now.shape.inputs + self.now.accepted.now.shape.gates)
            × (found.now.first ≤ rails self.now (f + 1))
            × (rails self.now (self.now.accepted.now.shape.inputs + self.now.accepted.now.shape.gates)
            < found.now.first + length found.now.ends.now)
            × (top < far_time) × (top / 64 < length marks.old) × ((t : ℕ) → Marked marks.old t → ⊥) }
        ensures { Adds marks.old (Within top (AsksOf (pairs_in found.now.pairs.now) self.now f)) marks.new
            × Spans top marks.new result }
    {
        let mut span = self.mark_output(f, top, marks);
        let mut at = self.fanout.heads[f] as usize;
        while 0 < at {
            let link = self.fanout.links[at - 1] as usize;
            span = self.mark_link(found, link % 512, at - 1, top, marks, span);
            at = link / 512;
        }
        span
    }

    // Fill the table from its end: what stands from `at` on are the pairs found, of the rails that are done and of this
    // one's times from the last on. What is asked of a rail is marked, and read from the highest mark down. `ends` has,
    // for each rail of a gate that is done, how many pairs stand from its first on, which no pair more alters, and so
    // for the one after the last. Nothing is asked for above the target. `at` falls by one for each bit of each word. A
    // word without marks is left at once: there are thousands of them where two marks stand far apart.
    fn fill(&self, table: &mut [u32], marks: &mut [usize], ends: &mut [u32]) -> Option<usize>
        requires { Answerable self.now × (length table.old / 2 * 2 ≡ length table.old)
            × ((t : ℕ) → Marked marks.old t → ⊥) × Roomy self.now.target (length marks.old)
            × (length table.old ≤ 131072)
            × (length ends.old ≡ rails self.now self.now.accepted.now.shape.gates + 1) }
        ensures { Kept (pairs_of self.now) (length table.old / 2) table.new result }
    {
        let accepted = self.accepted;
        let room = table.len() / 2;
        let first = rail_count(accepted.form, accepted.shape.inputs);
        let after = rail_count(accepted.form, accepted.nodes());
        let mut at = room;
        for rail in (first..after).rev() {
            let done = rail + 1 - first;
            ends[done] = (room - at) as u32;
            let found = Found {
                pairs: &table[at * 2..],
                ends: &ends[done..],
                first: rail + 1,
            };
            let node = node_of(accepted.form, rail);
            let top = (self.tops[node] as usize).min(self.target);
            let Span { low, high } = self.mark_asked(&found, node, top, marks);
            for word in (low..high).rev() {
                let mut bits = marks[word];
                if bits == 0 {
                    continue;
                }
                marks[word] = 0;
                while bits != 0 {
                    let bit = bits.ilog2() as usize;
                    if at == 0 {
                        return None;
                    }
                    bits -= 1usize << bit;
                    at -= 1;
                    put_pair(table, at, rail, word * 64 + bit);
                }
            }
        }
        Some(at)
    }

    // Fill the table, with a place for each rail of a gate and for the one after the last.
    fn find_in(&self, table: &mut [u32], marks: &mut [usize]) -> Option<usize>
        requires { Answerable self.now × (length table.old / 2 * 2 ≡ length table.old)
            × ((t : ℕ) → Marked marks.old t → ⊥) × Roomy self.now.target (length marks.old)
            × (length table.old ≤ 131072) }
        ensures { Kept (pairs_of self.now) (length table.old / 2) table.new result }
    {
        let count = rail_count(self.accepted.form, self.accepted.shape.gates) + 1;
        match self.accepted.form {
            Form::Single => {
                let mut ends = [0u32; 449];
                self.fill(table, marks, &mut ends[..count])
            }
            Form::RiseFall(_) => {
                let mut ends = [0u32; 897];
                self.fill(table, marks, &mut ends[..count])
            }
        }
    }

    // Fill the table, with words for the marks of all times up to the target and the largest top: few where the target
    // is small, since all are zeroed.
    fn find(&self, table: &mut [u32]) -> Option<usize>
        requires { Answerable self.now × (length table.old / 2 * 2 ≡ length table.old)
            × (length table.old ≤ 131072) }
        ensures { Kept (pairs_of self.now) (length table.old / 2) table.new result }
    {
        if self.target < 16000 {
            let mut marks = [0usize; 251];
            return self.find_in(table, &mut marks);
        }
        let mut marks = [0usize; 7151];
        self.find_in(table, &mut marks)
    }
}

// A pair into the table.
fn put_pair(table: &mut [u32], k: usize, node: usize, time: usize)
    requires { (k < length table.old / 2) × (node < 4294967296) × (time < 4294967296) }
    ensures { (length table.new ≡ length table.old)
        × (drop (k * 2) table.new ≡ node ∷ time ∷ drop (k * 2 + 2) table.old) }
{
    table[k * 2] = node as u32;
    table[k * 2 + 1] = time as u32;
}

// What stands from a place on, moved to the front. Not std's `copy_within`, which calls memmove: a C host owes memset
// alone.
fn move_down(table: &mut [u32], from: usize, count: usize)
    requires { from + count ≤ length table.old }
    ensures { table.new
        ≡ take count (drop from table.old) ++ drop count table.old }
{
    for i in 0..count {
        table[i] = table[from + i];
    }
}

// How many pairs a table of so many numbers holds.
fn holds(accepted: &Accepted<'_>, numbers: usize) -> usize
    ensures { result ≡ table_holds (pair_numbers (slopes_of accepted.now.form)) numbers }
{
    match accepted.form {
        Form::Single => (numbers / 2).min(65536),
        Form::RiseFall(_) => (numbers / 3).min(65536),
    }
}

// The pairs of a target by rail rising, then time rising, two numbers each, and zeros after them; or, where they are
// more than the table holds, zeros.
pub fn table(
    accepted: &Accepted<'_>,
    target: usize,
    tops: &[u32],
    table: &mut [u32],
) -> Option<usize>
    requires { Tops accepted.now.file.now accepted.now.shape accepted.now.arrivals.now
        (slopes_of accepted.now.form) tops.now }
    ensures { Held (slopes_of accepted.now.form)
        (pairs_at accepted.now.file.now accepted.now.shape accepted.now.arrivals.now
        (slopes_of accepted.now.form) target)
        (length table.old) table.new result }
{
    let room = holds(accepted, table.len());
    let mut fanout = Fanout {
        heads: [0; 512],
        links: [0; 2048],
    };
    fanout.link(accepted);
    let query = Query {
        accepted,
        target,
        tops,
        fanout: &fanout,
    };
    match query.find(&mut table[..room * 2]) {
        Some(at) => {
            let count = room - at;
            move_down(table, at * 2, count * 2);
            lent::zero_rest(table, count * 2);
            Some(count)
        }
        None => {
            lent::zero(table);
            None
        }
    }
}

// A pair of the lent table: its rail's node, its rail's final value and its time, at three places.
fn put_three(table: &mut [u32], k: usize, rail: u32, time: u32)
    requires { k * 3 + 2 < length table.old }
    ensures { Put table.old k rail time table.new }
{
    table[k * 3] = rail / 2;
    table[k * 3 + 1] = rail % 2;
    table[k * 3 + 2] = time;
}

// The pairs of a table from two numbers each to three, in place: from the last down, so that none is overwritten before
// it is read.
fn spread_pairs(table: &mut [u32], count: usize)
    requires { count * 3 ≤ length table.old }
    ensures { (falls : List ℕ) → Spread (apart falls) table.old count table.new }
{
    for k in (0..count).rev() {
        let rail = table[k * 2];
        let time = table[k * 2 + 1];
        put_three(table, k, rail, time);
    }
}

// The table of so many pairs as it is left to the caller: where rise and fall stand apart, three numbers a pair.
pub fn spread(form: Form<'_>, table: &mut [u32], count: usize)
    requires { count * pair_numbers (slopes_of form) ≤ length table.old }
    ensures { Spread (slopes_of form.entry) table.old count table.new }
{
    match form {
        Form::Single => {}
        Form::RiseFall(_) => spread_pairs(table, count),
    }
}
