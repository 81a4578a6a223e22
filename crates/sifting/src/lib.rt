// Whether two runs of parameter rows hold the same ones, in any order: in rounds over a shelf of rows in order, so that a feed of many rows takes no minutes.
#![tactic(auto)]

ghost use Rattle.std.specs.Prelude.{◌≡◌, true, false, ◌+◌, ◌/◌, ◌≤◌, ◌<◌, length, IfSome};
ghost use Rattle.octets.specs.Views.{viewed};
ghost use Rattle.tables.specs.Rows.{parameter_size};
ghost use Rattle.tables.specs.Trees.{parameter_of, value_of};
ghost use Rattle.comparing.specs.Runs.{parameter_in, same_runs};
ghost use Rattle.sifting.specs.Orders.{key_order, value_order, parameter_order, precedes};
ghost use Rattle.sifting.specs.Shelves.{shelf_size, Stand, Moved};
ghost use Rattle.sifting.specs.Tallies.{Empty, Left};

use arrayvec::ArrayVec;
use comparing::Runs;
use std::cmp::Ordering;
use tables::{ParameterRow, Row};

// How many rows a shelf holds.
const SHELF: usize = 768;
// Runs of so few rows are compared row by row.
const FEW: usize = 64;

// A part of the text as a row has it.
fn part(text: &[u8], start: u32, len: u32) -> &[u8]
    ensures { result.now ≡ viewed text.now start len }
{
    octets::view(text, start as usize, len as usize)
}

// Where one key stands beside another, in any case of their letters: the first that differ decide. Most are the same as they are.
fn key_order(a: &[u8], b: &[u8]) -> Ordering
    ensures { result ≡ key_order a.now b.now }
{
    for (x, y) in a.iter().zip(b) {
        if *x != *y {
            let order = x.to_ascii_lowercase().cmp(&y.to_ascii_lowercase());
            if order.is_ne() {
                return order;
            }
        }
    }
    a.len().cmp(&b.len())
}

// The same of the values of two parameters: an absent one stands before one that is present.
fn value_order(text: &[u8], p: ParameterRow, q: ParameterRow) -> Ordering
    ensures { result ≡ value_order (value_of text.now p) (value_of text.now q) }
{
    match (p.present, q.present) {
        (0, 0) => Ordering::Equal,
        (0, _) => Ordering::Less,
        (_, 0) => Ordering::Greater,
        _ => part(text, p.value_start, p.value_len).cmp(part(text, q.value_start, q.value_len)),
    }
}

// Where one parameter stands beside another in the order of a shelf: their keys decide, and then their values.
fn parameter_order(text: &[u8], p: ParameterRow, q: ParameterRow) -> Ordering
    ensures { result ≡ parameter_order (parameter_of text.now p) (parameter_of text.now q) }
{
    let one = part(text, p.key_start, p.key_len);
    let other = part(text, q.key_start, q.key_len);
    key_order(one, other).then_with(|| value_order(text, p, q))
}

// Whether the parameter of one row stands before that of another.
fn row_before(text: &[u8], parameters: &[u32], p: usize, q: usize) -> bool
    requires { (p < length parameters.now / parameter_size) × (q < length parameters.now / parameter_size) }
    ensures { result ≡ precedes (parameter_in text.now parameters.now p) (parameter_in text.now parameters.now q) }
{
    parameter_order(
        text,
        ParameterRow::at(parameters, p),
        ParameterRow::at(parameters, q),
    )
    .is_lt()
}

// Takes the last row down to a place; those from there on move up by one. By hand, as the library's `insert` asks for `memmove` from outside.
fn last_to(rows: &mut [usize], place: usize)
    requires { place < length rows.old }
    ensures { Moved rows.old rows.new }
{
    let last = rows.len() - 1;
    let row = rows[last];
    for k in (place..last).rev() {
        rows[k + 1] = rows[k];
    }
    rows[place] = row;
}

// Rows of the first of two runs, each of another parameter, in their order.
#[derive(Drop)]
struct Shelf<'a> {
    runs: Runs<'a>,
    rows: ArrayVec<usize, SHELF>,
    ghost stocked: { Stand (length runs.parameters.now / parameter_size) rows.items },
}

impl<'a> Shelf<'a> {
    ghost use Rattle.sifting.specs.Rounds.{row_of, place, lands, alike, Settled, Counted, Reduced, Level};

    // Where a row is looked for: behind those that stand before it.
    fn place_of(&self, row: usize) -> usize
        requires { row < length self.now.runs.parameters.now / parameter_size }
        ensures within { result ≤ length self.now.rows.items }
        ensures value { result ≡ place self.now (row_of self.now row) }
    {
        // By hand: the library's search promises a place only in a sorted slice, and no answer here rests on the order of a shelf.
        let rows = self.rows.as_slice();
        let mut lo: usize = 0;
        let mut hi = rows.len();
        while lo < hi {
            let middle = (lo + hi) / 2;
            if row_before(self.runs.text, self.runs.parameters, rows[middle], row) {
                lo = middle + 1;
            } else {
                hi = middle;
            }
        }
        lo
    }

    // The place where a row that is the same stands, if it stands where it is looked for.
    fn landing_of(&self, row: usize) -> Option<usize>
        requires { row < length self.now.runs.parameters.now / parameter_size }
        ensures value { result ≡ lands self.now (row_of self.now row) }
        ensures on_shelf { IfSome result (λ place. place < shelf_size) }
    {
        let rows = self.rows.as_slice();
        let place = self.place_of(row);
        if rows.len() <= place {
            return None;
        }
        if comparing::same_rows(self.runs.text, self.runs.parameters, rows[place], row) {
            return Some(place);
        }
        None
    }

    // Puts row k of the first run on the shelf, which has room, if none that is the same is there.
    fn shelve(&mut self, k: usize)
        requires in_run { k < self.old.runs.count }
        requires room { length self.old.rows.items < shelf_size }
        ensures runs { self.new.runs ≡ self.old.runs }
        ensures one_more { length self.new.rows.items ≤ length self.old.rows.items + 1 }
    {
        let runs = &self.runs;
        let row = runs.a + k;
        if self.landing_of(row).is_none() {
            let place = self.place_of(row);
            self.rows.push(row);
            last_to(self.rows.as_mut_slice(), place);
        }
    }

    // Fills the shelf with rows of the first run from row `from` on, until it is full or the run ends, and says which row is next.
    fn gather(&mut self, from: usize) -> usize
        requires { from < self.old.runs.count }
        ensures next { (from < result) × (result ≤ self.new.runs.count) }
        ensures runs { self.new.runs ≡ self.old.runs }
    {
        self.rows.clear();
        for k in from..self.runs.count {
            if self.rows.is_full() {
                return k;
            }
            self.shelve(k);
        }
        self.runs.count
    }

    // Counts each row of the first run for the place on which it lands.
    fn count_up(&self, tally: &mut [usize; SHELF])
        requires { Empty tally.old }
        ensures { Counted self.now tally.new self.now.runs.count }
    {
        let runs = &self.runs;
        for i in 0..runs.count {
            if let Some(place) = self.landing_of(runs.a + i) {
                tally[place] += 1;
            }
        }
    }

    // Takes the rows of the second run off the tallies of the first, unless more of them land on a place than of the first.
    fn count_down(&self, tally: &mut [usize; SHELF]) -> bool
        requires { Counted self.now tally.old self.now.runs.count }
        ensures unlike { result ≡ false → alike self.now ≡ false }
        ensures reduced { result ≡ true → Reduced self.now tally.new self.now.runs.count }
    {
        let runs = &self.runs;
        for i in 0..runs.count {
            if let Some(place) = self.landing_of(runs.b + i) {
                if tally[place] == 0 {
                    return false;
                }
                tally[place] -= 1;
            }
        }
        true
    }

    // Whether as many rows of the first run as of the second land on each place.
    fn are_even(&self) -> bool
        ensures unlike { result ≡ false → alike self.now ≡ false }
        ensures level { result ≡ true → Level self.now }
    {
        let mut tally = [0usize; SHELF];
        self.count_up(&mut tally);
        self.count_down(&mut tally) && is_empty(&tally)
    }

    // Whether no parameter stands oftener among the rows of the first run up to `next` than in the second, where none does among those up to `from`. A
    // row that lands stands in both as often. One that does not is asked about by itself: that is slow, but no row comes to it that was put on the shelf.
    fn settle(&self, from: usize, next: usize) -> bool
        requires in_run { (from ≤ next) × (next ≤ self.now.runs.count) }
        requires level { Level self.now }
        requires settled_to { Settled self.now from }
        ensures unlike { result ≡ false → alike self.now ≡ false }
        ensures settled_on { result ≡ true → Settled self.now next }
    {
        let runs = &self.runs;
        for k in from..next {
            if self.landing_of(runs.a + k).is_none() && !runs.is_settled(k) {
                return false;
            }
        }
        true
    }
}

// Whether no tally is left over.
fn is_empty(tally: &[usize; SHELF]) -> bool
    ensures empty { result ≡ true → Empty tally.now }
    ensures left { result ≡ false → Left tally.now }
{
    tally.iter().all(|left| *left == 0)
}

// Whether both runs hold the same parameters, in rounds: each is about as many rows of the first run as the shelf holds.
fn in_rounds(runs: &Runs) -> bool
    ensures { result ≡ same_runs runs.now.text.now runs.now.parameters.now runs.now.a runs.now.b runs.now.count }
{
    // As a literal: a function that returns it would cost the stack a second one.
    let mut shelf = Shelf {
        runs: *runs,
        rows: ArrayVec::new(),
    };
    let mut from: usize = 0;
    // Not a range, as each round says where the next begins.
    while from < runs.count {
        let next = shelf.gather(from);
        if !shelf.are_even() || !shelf.settle(from, next) {
            return false;
        }
        from = next;
    }
    true
}

// Whether two runs hold the same parameters, in linear time for rows in the same order: only what lies between a front and an end that agree is counted.
pub fn same_runs(runs: &Runs) -> bool
    ensures { result ≡ same_runs runs.now.text.now runs.now.parameters.now runs.now.a runs.now.b runs.now.count }
{
    let front = runs.agreeing_front();
    let behind = Runs {
        text: runs.text,
        parameters: runs.parameters,
        a: runs.a + front,
        b: runs.b + front,
        count: runs.count - front,
    };
    let between = Runs {
        text: runs.text,
        parameters: runs.parameters,
        a: behind.a,
        b: behind.b,
        count: behind.without_agreeing_back(),
    };
    if between.count <= FEW {
        return between.all_settled();
    }
    in_rounds(&between)
}
