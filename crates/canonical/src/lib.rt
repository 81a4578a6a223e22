// The canonical line of a case: what one of our functions answers, as text that can be compared.
#![tactic(auto)]

ghost use Rattle.std.specs.Prelude.{ℕ, ◌<◌};

use octets::{Output, Span};
use parameters::{Param, Value};
use tables::{ComponentRow, ParameterRow, PropertyRow, Row, Tables};
use trial::Room;

// A line that is laid piece by piece over the front of a buffer, as far as it goes, and is counted in full.
pub struct Line<'a> {
    out: &'a mut [u8],
    length: usize,
}

const DIGITS: &[u8; 16] = b"0123456789abcdef";

impl<'a> Line<'a> {
    pub fn new(out: &'a mut [u8]) -> Self {
        Line { out, length: 0 }
    }

    // The buffer behind what is laid.
    pub fn rest(&mut self) -> &mut [u8] {
        let from = self.length.min(self.out.len());
        &mut self.out[from..]
    }

    // Ends the line. The length is the one needed where the buffer is too short for it.
    pub fn close(mut self) -> Output {
        self.lay(b"\n");
        let Line { out, length } = self;
        octets::room_for(length, out.len())
    }

    fn lay(&mut self, bytes: &[u8]) {
        self.length = octets::lay(bytes, self.out, self.length);
    }

    fn number(&mut self, n: usize) {
        let mut digits = itoa::Buffer::new();
        self.lay(digits.format(n).as_bytes());
    }

    // A space and a number.
    fn field(&mut self, n: usize) {
        self.lay(b" ");
        self.number(n);
    }

    // The two digits of each byte.
    fn hex(&mut self, bytes: &[u8]) {
        for b in bytes {
            self.lay(&[DIGITS[usize::from(b / 16)], DIGITS[usize::from(b % 16)]]);
        }
    }

    pub fn refuse(&mut self) {
        self.lay(b"err");
    }

    // `ok` and a number.
    fn count(&mut self, n: usize) {
        self.lay(b"ok");
        self.field(n);
    }

    // `ok` and the bytes that an output left at the front of the text, or `err` where it was refused.
    pub fn output(&mut self, answered: Output, text: &[u8]) {
        if !answered.is_done() {
            return self.refuse();
        }
        self.lay(b"ok ");
        self.hex(octets::view(text, 0, answered.length));
    }

    // Start and length of a part, counted from `from` on.
    fn span(&mut self, from: usize, span: Span) {
        self.number(from.saturating_add(span.start));
        self.field(span.len);
    }

    // The row of a parameter whose `;` stands at `from`. An empty key has no place.
    fn row(&mut self, from: usize, param: Param) {
        let Param { key, value, .. } = param;
        if key.len == 0 {
            self.lay(b"e 0");
        } else {
            self.span(from, key);
        }
        match value {
            Value::Absent => self.lay(b" 0 0 0"),
            Value::Present(value) => {
                self.lay(b" 1 ");
                self.span(from, value);
            }
        }
    }

    // A mark and the digits of a part of the text.
    fn part(&mut self, mark: &[u8], text: &[u8], start: u32, len: u32) {
        self.lay(mark);
        self.hex(octets::view(text, start as usize, len as usize));
    }
}

fn lay_unfolded(case: &[u8], text: &mut [u8], line: &mut Line) {
    let n = unfolding::unfold_into(case, text);
    line.output(octets::room_for(n, text.len()), text);
}

fn lay_key(case: &[u8], line: &mut Line) {
    match octets::property_key(case) {
        None => line.refuse(),
        Some(n) => line.count(n),
    }
}

fn lay_front(case: &[u8], line: &mut Line) {
    match parameters::parameter(case) {
        None => line.refuse(),
        Some(param) => {
            line.count(param.used);
            line.lay(b" ");
            line.row(0, param);
        }
    }
}

fn lay_passed(case: &[u8], line: &mut Line) {
    let passed = parameters::parameters(case);
    line.count(passed.used);
    line.field(passed.count);
    let mut from: usize = 0;
    for _ in 0..passed.count {
        let start = from.min(case.len());
        let Some(param) = parameters::parameter(&case[start..]) else {
            return;
        };
        line.lay(b" ; ");
        line.row(from, param);
        from = from.saturating_add(param.used);
    }
}

fn lay_parameter(text: &[u8], row: ParameterRow, line: &mut Line) {
    if row.present == 0 {
        return line.part(b" p =", text, row.key_start, row.key_len);
    }
    line.part(b" v =", text, row.key_start, row.key_len);
    line.part(b" =", text, row.value_start, row.value_len);
}

// Lays the parameters from row `from` on, up to the first of another property.
fn lay_parameters(t: Tables, property: usize, from: usize, line: &mut Line) {
    for i in from..ParameterRow::count(t.parameters) {
        let row = ParameterRow::at(t.parameters, i);
        if row.property as usize != property {
            return;
        }
        lay_parameter(t.text, row, line);
    }
}

fn lay_property(text: &[u8], row: PropertyRow, line: &mut Line) {
    line.part(b" P =", text, row.key_start, row.key_len);
    line.part(b" =", text, row.value_start, row.value_len);
}

// The first of so many rows, from `from` on, that belongs to this one or to one that began later.
fn first_of<F: Fn(usize) -> u32>(owner: usize, from: usize, rows: usize, owner_of: F) -> usize
    requires { (row : ℕ) → row < rows → F.pre owner_of row }
{
    for row in from..rows {
        if owner <= owner_of(row) as usize {
            return row;
        }
    }
    rows
}

// Lays the properties of a component with their parameters. Its own may stand behind those of its children.
fn lay_properties(t: Tables, owner: usize, from: usize, line: &mut Line) {
    let parameters = ParameterRow::count(t.parameters);
    let mut next: usize = 0;
    for i in from..PropertyRow::count(t.properties) {
        let row = PropertyRow::at(t.properties, i);
        if row.owner as usize == owner {
            next = first_of(
                i,
                next,
                parameters,
                |p| ParameterRow::at(t.parameters, p).property,
            );
            lay_property(t.text, row, line);
            lay_parameters(t, i, next, line);
        }
    }
}

// Lays the ends of the components from one depth on, up to another.
fn lay_ends(depth: usize, below: usize, line: &mut Line) {
    for _ in depth..below {
        line.lay(b" E");
    }
}

// Lays all components. They stand in the order of their BEGINs, so a row of no greater depth closes those before it.
fn lay_components(t: Tables, line: &mut Line) {
    let properties = PropertyRow::count(t.properties);
    // One more than the depth of the last component; a top component has depth 1.
    let mut below: usize = 1;
    let mut from: usize = 0;
    for i in 0..ComponentRow::count(t.components) {
        let row = ComponentRow::at(t.components, i);
        let depth = row.depth as usize;
        lay_ends(depth, below, line);
        line.part(b" C =", t.text, row.name_start, row.name_len);
        from = first_of(
            i,
            from,
            properties,
            |p| PropertyRow::at(t.properties, p).owner,
        );
        lay_properties(t, i, from, line);
        below = depth + 1;
    }
    lay_ends(1, below, line);
}

fn lay_read(case: &[u8], text: &mut [u8], room: &mut Room, line: &mut Line) {
    let done = room.read(case, text);
    match room.tables(done, text) {
        Some(tables) => {
            line.lay(b"ok");
            lay_components(tables, line);
        }
        None => line.refuse(),
    }
}

// Lays the answer to a case of one of the parts here; the text and the room are lent for the work. A part that is not known is refused.
pub fn lay_answer(part: u8, case: &[u8], text: &mut [u8], room: &mut Room, line: &mut Line) {
    // Letters, as the frames of the comparison have them; each crate knows its own alone.
    match part {
        b'u' => lay_unfolded(case, text, line),
        b'k' => lay_key(case, line),
        b's' => line.count(octets::key_run(case)),
        b'p' => lay_front(case, line),
        b'P' => lay_passed(case, line),
        b'f' => line.output(folding::fold_line(case, text), text),
        b'F' => line.output(folding::fold_strict(case, text), text),
        b'q' => line.output(quoting::quote_special_chars(case, text), text),
        b'r' => lay_read(case, text, room, line),
        _ => line.refuse(),
    }
}
