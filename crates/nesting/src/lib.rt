// Nesting: the lines of a text, one after another, with the components that are open, and the rows they add.
#![tactic(auto)]

ghost use Rattle.std.specs.Prelude.{◌≡◌, [], ◌∷◌, ◌+◌, ◌≤◌, ◌<◌, length};
ghost use Rattle.octets.specs.Answers.{deepest, longest};
ghost use Rattle.tables.specs.Rows.{parameter_size, parameter_words};
ghost use Rattle.octets.specs.Views.{viewed};
ghost use Rattle.parameters.specs.Parameters.{moved};
ghost use Rattle.parameters.specs.Values.{ValueWithin};
ghost use Rattle.lines.specs.Sound.{SoundProperty};
ghost use Rattle.tables.specs.Rows.{put_row, property_size, property_words};
ghost use Rattle.nesting.specs.Rows.{entry, top, component_row, parameter_row, parameter_rows, property_row, rows_from};
ghost use Rattle.nesting.specs.Steps.{State, nothing, finished, run_of, outcome_of, counts_of, ended_at, refused_at, met_at, names, check_of, closed, property_counted, component_counted};
ghost use Rattle.nesting.specs.Held.{innermost, Tabled, put_rows};

use lines::{Fault, Line, Property};
use octets::Span;
use parameters::{Param, Value};
use std::marker::Model;
use tables::{ComponentRow, ParameterRow, PropertyRow, Row};

// An open component: its row, and where its name stands in the text.
#[derive(Clone, Copy)]
pub struct Entry {
    pub row: u32,
    pub start: u32,
    pub len: u32,
}

// The open components, the innermost last, as an array and a depth: docs/SPECIFICATION.md fixes the form (B-96). Contracts see a list, the innermost first.
// The list tells the whole array, as a value that is `Copy` must: what is closed leaves no entry behind.
#[derive(Clone, Copy)]
pub struct Open {
    pub entries: [Entry; octets::DEEPEST],
    pub depth: usize,
}

impl Model for Open {
    ghost use Rattle.std.specs.Prelude.{◌≡◌, ◌≤◌, List, length};
    ghost use Rattle.nesting.specs.declared.Entry.{Entry};

    ghost Value = { List Entry };

    ghost use Rattle.octets.specs.Answers.{deepest};
    ghost use Rattle.nesting.specs.Held.{stack, length_stack, array_of};
    ghost use Rattle.std.proofs.Common.{sym};

    ghost view = { λ o. stack o.entries o.depth };

    ghost invariant = { λ o. (o.depth ≤ deepest) × ((length o.entries ≡ deepest) × (o.entries ≡ array_of (stack o.entries o.depth))) };

    ghost inverse = { λ opens. record { entries = array_of opens; depth = length opens } };

    ghost inverse_ok = { λ o h i. record { entries = sym h.1.1 i; depth = length_stack o.entries o.depth i } };
}

#[derive(Clone, Copy)]
pub struct Counts {
    pub components: usize,
    pub properties: usize,
    pub parameters: usize,
}

#[derive(Clone, Copy)]
pub enum Refusal {
    BadBegin,
    TooDeep,
    BadEnd,
    Outside,
    Line(Fault),
    Unclosed,
    NoComponent,
}

// Why a text is refused, and where that was met: at the start of a line, or at the end of the text.
#[derive(Clone, Copy)]
pub struct Refused {
    pub refusal: Refusal,
    pub from: usize,
}

impl Refused {
    fn new(refusal: Refusal, from: usize) -> Self
        ensures { result ≡ refused_at refusal from }
    {
        Refused { refusal, from }
    }
}

// What stands in the array where nothing is open.
const NO_ENTRY: Entry = Entry {
    row: tables::NO_PARENT,
    start: 0,
    len: 0,
};

impl Open {
    pub fn new() -> Self
        ensures { result ≡ [] }
    {
        Open {
            entries: [NO_ENTRY; octets::DEEPEST],
            depth: 0,
        }
    }

    // How many are open.
    fn depth(&self) -> usize
        ensures { result ≡ length self.now }
    {
        self.depth
    }

    fn innermost(&self) -> Option<Entry>
        ensures { result ≡ innermost self.now }
    {
        if self.depth == 0 {
            return None;
        }
        Some(self.entries[self.depth - 1])
    }

    // The row of the innermost, or that there is none.
    fn parent(&self) -> u32
        ensures { result ≡ top self.now }
    {
        match self.innermost() {
            Some(top) => top.row,
            None => tables::NO_PARENT,
        }
    }

    fn push(&mut self, e: Entry)
        requires { length self.old < deepest }
        ensures { self.new ≡ e ∷ self.old }
    {
        self.entries[self.depth] = e;
        self.depth += 1;
    }

    fn pop(&mut self)
        ensures { self.new ≡ closed self.old }
    {
        self.depth = self.depth.saturating_sub(1);
        self.entries[self.depth] = NO_ENTRY;
    }
}

impl Counts {
    pub fn new() -> Self
        ensures { result ≡ counts_of nothing }
    {
        Counts {
            components: 0,
            properties: 0,
            parameters: 0,
        }
    }

    pub fn with_component(mut self) -> Self
        requires { self.components < longest }
        ensures { result ≡ component_counted self }
    {
        self.components += 1;
        self
    }

    pub fn with_property(mut self, parameters: usize) -> Self
        requires { self.properties + (self.parameters + parameters) < longest }
        ensures { result ≡ property_counted parameters self }
    {
        self.properties += 1;
        self.parameters += parameters;
        self
    }
}

// Whether an END line names the open component.
fn closes(text: &[u8], line: &[u8], rest: Span, top: Entry) -> bool
    ensures { result ≡ names text.now (viewed line.now rest.start rest.len) top }
{
    let given = octets::view(line, rest.start, rest.len);
    octets::same_bytes(
        given,
        octets::view(text, top.start as usize, top.len as usize),
    )
}

// The row of a parameter that was read `by` bytes into the text.
fn parameter_row(property: u32, by: usize, p: Param) -> ParameterRow
    requires used_bound { by + p.used ≤ longest }
    requires len_bound { (p.key.start + p.key.len ≤ p.used) × ValueWithin p.value p.used }
    ensures { result ≡ parameter_row property (moved by p) }
{
    let key = p.key;
    let value = p.value;
    match value {
        Value::Absent => ParameterRow {
            property,
            key_start: (by + key.start) as u32,
            key_len: key.len as u32,
            present: 0,
            value_start: 0,
            value_len: 0,
        },
        Value::Present(v) => ParameterRow {
            property,
            key_start: (by + key.start) as u32,
            key_len: key.len as u32,
            present: 1,
            value_start: (by + v.start) as u32,
            value_len: v.len as u32,
        },
    }
}

// Puts the rows of the parameters that stand in a line from `from` on; `start` is where the line starts in the text.
fn put_parameters(
    line: &[u8],
    start: usize,
    from: usize,
    property: u32,
    first: usize,
    table: &mut [u32],
)
    requires { (start + length line.now ≤ longest) × (from ≤ length line.now) × (first ≤ longest) }
    ensures { table.new ≡ put_rows parameter_size parameter_words first (rows_from property start from line.now) table.old }
{
    if table.is_empty() {
        return;
    }
    let mut at = from;
    let mut row = first;
    // An index, as each step takes a whole parameter. A look at the byte spares the call behind the last one.
    while at < line.len()
        && line[at] == b';'
        && let Some(p) = parameters::parameter(&line[at..])
    {
        parameter_row(property, start + at, p).put(table, row);
        at += p.used;
        row += 1;
    }
}

// Puts the row of a property line and those of its parameters.
fn put_property_line(
    line: &[u8],
    start: usize,
    p: Property,
    owner: u32,
    counts: Counts,
    properties: &mut [u32],
    parameters: &mut [u32],
)
    requires line_bound { (start + length line.now ≤ longest) × (counts.properties ≤ longest) × (counts.parameters ≤ longest) }
    requires sound_property { SoundProperty line.now p }
    ensures properties_after { properties.new ≡ put_row property_size counts.properties (property_words (property_row owner start p)) properties.old }
    ensures parameters_after { parameters.new ≡ put_rows parameter_size parameter_words counts.parameters (parameter_rows counts.properties start line.now p) parameters.old }
{
    let key = p.key;
    let value = p.value;
    let row = counts.properties;
    let first = counts.parameters;
    let property = PropertyRow {
        owner,
        key_start: (start + key.start) as u32,
        key_len: key.len as u32,
        value_start: (start + value.start) as u32,
        value_len: value.len as u32,
    };
    property.put(properties, row);
    let from = key.len;
    put_parameters(line, start, from, row as u32, first, parameters);
}

// The row of a component that stands inside as many as `depth`.
fn component_row(parent: u32, depth: usize, e: Entry) -> ComponentRow
    requires { depth < deepest }
    ensures { result ≡ component_row parent (depth + 1) e }
{
    ComponentRow {
        parent,
        depth: (depth + 1) as u32,
        name_start: e.start,
        name_len: e.len,
    }
}

// The open component whose BEGIN line starts at `start`.
fn entry_of(row: usize, start: usize, name: Span) -> Entry
    requires { (row ≤ longest) × (start + (name.start + name.len) ≤ longest) }
    ensures { result ≡ entry row start name }
{
    Entry {
        row: row as u32,
        start: (start + name.start) as u32,
        len: name.len as u32,
    }
}

// Whether a line may stand where these components are open.
fn check_line(text: &[u8], bytes: &[u8], line: Line, open: &Open) -> Result<(), Refusal>
    ensures { result ≡ check_of text.now bytes.now line open.now }
{
    match line {
        Line::Empty => Ok(()),
        Line::Begin(_) if open.depth() < octets::DEEPEST => Ok(()),
        Line::Begin(_) => Err(Refusal::TooDeep),
        Line::BadBegin => Err(Refusal::BadBegin),
        Line::End(rest) => match open.innermost() {
            Some(top) if closes(text, bytes, rest, top) => Ok(()),
            _ => Err(Refusal::BadEnd),
        },
        Line::Content(_) | Line::Bad(_) if open.depth() == 0 => Err(Refusal::Outside),
        Line::Content(_) => Ok(()),
        Line::Bad(fault) => Err(Refusal::Line(fault)),
    }
}

// What a check says of the line that starts at `start`: its refusal is met there.
fn met_at(start: usize, check: Result<(), Refusal>) -> Result<(), Refused>
    ensures { result ≡ met_at start check }
{
    check.map_err(|refusal| Refused::new(refusal, start))
}

// What a text answers at its end.
fn ended(depth: usize, counts: Counts, size: usize) -> Result<Counts, Refused>
    ensures { result ≡ ended_at depth counts size }
{
    if depth != 0 {
        return Err(Refused::new(Refusal::Unclosed, size));
    }
    if counts.components == 0 {
        return Err(Refused::new(Refusal::NoComponent, size));
    }
    Ok(counts)
}

// Reads the lines of a text, one after another, and puts each row that its table has room for: empty tables only have the rows counted.
// The three tables stay apart: a struct of three `&mut` would make each clause longer, as `tables.old.components.now` in place of `components.old`.
pub fn pass(
    text: &[u8],
    components: &mut [u32],
    properties: &mut [u32],
    parameters: &mut [u32],
) -> Result<Counts, Refused>
    requires { length text.now ≤ longest }
    ensures value { result ≡ outcome_of text.now }
    ensures tabled { (s : State) → run_of text.now ≡ finished s →
        Tabled s components.old properties.old parameters.old components.new properties.new parameters.new }
{
    let mut open = Open::new();
    let mut counts = Counts::new();
    let mut at: usize = 0;
    // An index, as each step takes a line.
    while at < text.len() {
        let start = at;
        let extent = lines::line_at(text, start);
        at = extent.next;
        let end = start + extent.len;
        let bytes = &text[start..end];
        let line = lines::read_line(bytes);
        met_at(start, check_line(text, bytes, line, &open))?;
        match line {
            Line::Content(p) => {
                let owner = open.parent();
                put_property_line(bytes, start, p, owner, counts, properties, parameters);
                counts = counts.with_property(p.parameters);
            }
            Line::Begin(name) => {
                let entry = entry_of(counts.components, start, name);
                let row = component_row(open.parent(), open.depth(), entry);
                row.put(components, counts.components);
                open.push(entry);
                counts = counts.with_component();
            }
            Line::End(_) => open.pop(),
            Line::Empty | Line::BadBegin | Line::Bad(_) => {}
        }
    }
    ended(open.depth(), counts, text.len())
}

// What a text alone answers: a pass over tables without room.
pub fn count(text: &[u8]) -> Result<Counts, Refused>
    requires { length text.now ≤ longest }
    ensures { result ≡ outcome_of text.now }
{
    let mut components = [0u32; 0];
    let mut properties = [0u32; 0];
    let mut parameters = [0u32; 0];
    pass(text, &mut components, &mut properties, &mut parameters)
}
