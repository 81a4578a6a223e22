// Whether parts of a text, keys and parameters are the same, and whether two runs of parameter rows hold the same ones, in any order, each row counted.
#![tactic(auto)]

ghost use Rattle.std.specs.Prelude.{◌≡◌, ◌+◌, ◌/◌, ◌≤◌, ◌<◌, length, ltb};
ghost use Rattle.octets.specs.Views.{viewed};
ghost use Rattle.octets.specs.Words.{same_bytes};
ghost use Rattle.tables.specs.Rows.{parameter_size};
ghost use Rattle.tables.specs.Trees.{parameter_of};
ghost use Rattle.comparing.specs.Pieces.{same_key, same_parameter};
ghost use Rattle.comparing.specs.Runs.{parameter_in, many_in, same_runs, settled, agreeing_front, without_agreeing_back};

use octets::Span;
use tables::{ParameterRow, Row};

// A start and a length as a row has them.
pub fn span(start: u32, len: u32) -> Span
    ensures { (result.start ≡ start) × (result.len ≡ len) }
{
    Span {
        start: start as usize,
        len: len as usize,
    }
}

// Whether two parts of a text have the same bytes. It and the next one are a call each: one function over the test would be longer than both.
pub fn same_part(text: &[u8], a: Span, b: Span) -> bool
    ensures { result ≡ same_bytes (viewed text.now a.start a.len) (viewed text.now b.start b.len) }
{
    octets::same_bytes(
        octets::view(text, a.start, a.len),
        octets::view(text, b.start, b.len),
    )
}

// Whether two properties, or two parameters, have the same key, in any case of its letters.
pub fn same_key(text: &[u8], a: Span, b: Span) -> bool
    ensures { result ≡ same_key (viewed text.now a.start a.len) (viewed text.now b.start b.len) }
{
    octets::same_word(
        octets::view(text, a.start, a.len),
        octets::view(text, b.start, b.len),
    )
}

// Whether two parameters are the same: their keys, and their values if they have one.
fn same_parameter(text: &[u8], p: ParameterRow, q: ParameterRow) -> bool
    ensures { result ≡ same_parameter (parameter_of text.now p) (parameter_of text.now q) }
{
    if !same_key(
        text,
        span(p.key_start, p.key_len),
        span(q.key_start, q.key_len),
    ) {
        return false;
    }
    if p.present == 0 {
        return q.present == 0;
    }
    if q.present == 0 {
        return false;
    }
    same_part(
        text,
        span(p.value_start, p.value_len),
        span(q.value_start, q.value_len),
    )
}

// Whether the parameters of two rows are the same.
pub fn same_rows(text: &[u8], parameters: &[u32], p: usize, q: usize) -> bool
    requires { (p < length parameters.now / parameter_size) × (q < length parameters.now / parameter_size) }
    ensures { result ≡ same_parameter (parameter_in text.now parameters.now p) (parameter_in text.now parameters.now q) }
{
    same_parameter(
        text,
        ParameterRow::at(parameters, p),
        ParameterRow::at(parameters, q),
    )
}

// Two runs of equally many parameter rows of a table, the one from row a on and the other from row b on, with the text that they speak of.
#[derive(Clone, Copy)]
pub struct Runs<'a> {
    pub text: &'a [u8],
    pub parameters: &'a [u32],
    pub a: usize,
    pub b: usize,
    pub count: usize,
    ghost a_inside: { a + count ≤ length parameters.now / parameter_size },
    ghost b_inside: { b + count ≤ length parameters.now / parameter_size },
}

impl Runs<'_> {
    // How many rows at the front of both are the same one by one: the runs are as alike as what is behind them.
    pub fn agreeing_front(&self) -> usize
        ensures within { result ≤ self.now.count }
        ensures value { result ≡ agreeing_front self.now.text.now self.now.parameters.now self.now.a self.now.b self.now.count }
    {
        for i in 0..self.count {
            if !same_rows(self.text, self.parameters, self.a + i, self.b + i) {
                return i;
            }
        }
        self.count
    }

    // How many rows are left of both without those at the end that are the same one by one.
    pub fn without_agreeing_back(&self) -> usize
        ensures within { result ≤ self.now.count }
        ensures value { result ≡ without_agreeing_back self.now.text.now self.now.parameters.now self.now.a self.now.b self.now.count }
    {
        // What is left is the answer, so it is counted down: a range taken from its end would be no plainer.
        let mut left = self.count;
        while 0 < left
            && same_rows(
                self.text,
                self.parameters,
                self.a + (left - 1),
                self.b + (left - 1),
            )
        {
            left -= 1;
        }
        left
    }

    // How many rows before row i of the first run are the same as it.
    fn many_before(&self, i: usize) -> usize
        requires { i < self.now.count }
        ensures { result ≡ many_in self.now.text.now self.now.parameters.now (self.now.a + i) self.now.a i }
    {
        let mut found: usize = 0;
        for k in 0..i {
            if same_rows(self.text, self.parameters, self.a + i, self.a + k) {
                found += 1;
            }
        }
        found
    }

    // Whether more rows of the second run than so many are the same as row i of the first. It counts down and stops at the first row beyond them.
    fn more_than(&self, i: usize, many: usize) -> bool
        requires { i < self.now.count }
        ensures { result ≡ ltb many (many_in self.now.text.now self.now.parameters.now (self.now.a + i) self.now.b self.now.count) }
    {
        let mut left = many;
        for k in 0..self.count {
            if same_rows(self.text, self.parameters, self.a + i, self.b + k) {
                if left == 0 {
                    return true;
                }
                left -= 1;
            }
        }
        false
    }

    // Whether the second run has a row for row i of the first: more that are like it than stand before it in the first, as each of those needs one of
    // its own.
    pub fn is_settled(&self, i: usize) -> bool
        requires { i < self.now.count }
        ensures { result ≡ settled self.now.text.now self.now.parameters.now self.now.a self.now.b self.now.count i }
    {
        self.more_than(i, self.many_before(i))
    }

    // Whether both runs hold the same parameters: each row of the first has its own in the second, so the second has no others.
    pub fn all_settled(&self) -> bool
        ensures { result ≡ same_runs self.now.text.now self.now.parameters.now self.now.a self.now.b self.now.count }
    {
        (0..self.count).all(|i| self.is_settled(i))
    }
}
