// What the programs that run examples share: reading the input, printing what was answered, the tables, and feeds of a size.
// Buffers are arrays of a fixed size, here and in the programs: nothing takes memory from a heap.
#![tactic(auto)]

ghost use Rattle.std.specs.Prelude.{◌+◌, ◌<◌};

use octets::Output;
use reading::Reading;
use std::io::Read;
use std::{fmt, io};
use tables::{ComponentRow, ParameterRow, PropertyRow, Row, Tables};

// Reads until the buffer is full or the input ends, and counts the bytes.
pub fn read_full(input: &mut impl Read, out: &mut [u8]) -> io::Result<usize> {
    let most = out.len() as u64;
    let mut rest = out;
    let count = io::copy(&mut input.take(most), &mut rest)?;
    Ok(count as usize)
}

// Bytes that need not be text.
pub fn say(rt: &impl Print, bytes: &[u8]) -> io::Result<()> {
    rt.write_all(bytes)
}

// Prints numbers with a space before each.
#[derive(Clone, Copy)]
pub struct Numbers<T>(pub T);

impl fmt::Display for Numbers<&[u32]> {
    fn fmt<W: fmt::Write>(&self, f: &mut fmt::Formatter<W>) -> fmt::Result {
        for number in self.0 {
            write!(f, " {number}")?;
        }
        Ok(())
    }
}

impl fmt::Display for Numbers<Output> {
    fn fmt<W: fmt::Write>(&self, f: &mut fmt::Formatter<W>) -> fmt::Result {
        let Output {
            answer,
            place,
            length,
        } = self.0;
        write!(f, " {answer} {place} {length}")
    }
}

impl fmt::Display for Numbers<Reading> {
    fn fmt<W: fmt::Write>(&self, f: &mut fmt::Formatter<W>) -> fmt::Result {
        let Reading {
            answer,
            place,
            length,
            components,
            properties,
            parameters,
        } = self.0;
        write!(
            f,
            " {answer} {place} {length} {components} {properties} {parameters}"
        )
    }
}

// The rows of the three tables, lent to be filled.
#[derive(Drop)]
pub struct Room<'a> {
    pub components: &'a mut [u32],
    pub properties: &'a mut [u32],
    pub parameters: &'a mut [u32],
}

impl Room<'_> {
    pub fn read(&mut self, feed: &[u8], text: &mut [u8]) -> Reading {
        reading::read_components(
            feed,
            text,
            self.components,
            self.properties,
            self.parameters,
        )
    }

    pub fn fill(&mut self, text: &[u8]) -> Reading {
        reading::fill_components(text, self.components, self.properties, self.parameters)
    }

    // What a reading left in a text and here: nothing where it was refused.
    pub fn tables<'a>(&'a self, done: Reading, text: &'a [u8]) -> Option<Tables<'a>> {
        if !done.is_done() {
            return None;
        }
        Some(Tables {
            text: octets::view(text, 0, done.length),
            components: rows(self.components, done.components, ComponentRow::WORDS),
            properties: rows(self.properties, done.properties, PropertyRow::WORDS),
            parameters: rows(self.parameters, done.parameters, ParameterRow::WORDS),
        })
    }
}

// The first rows of a table, of so many words each: all of it where it has fewer.
fn rows(table: &[u32], count: usize, words: usize) -> &[u32] {
    let end = count.saturating_mul(words).min(table.len());
    &table[..end]
}

// Reads a feed into buffers of these sizes: the bytes of the text, and the words of the three tables.
pub fn read_into<
    const TEXT: usize,
    const COMPONENTS: usize,
    const PROPERTIES: usize,
    const PARAMETERS: usize,
>(feed: &[u8]) -> Reading
    requires { TEXT + COMPONENTS + PROPERTIES + PARAMETERS < 65_536 }
{
    let mut text = [0u8; TEXT];
    let mut components = [0u32; COMPONENTS];
    let mut properties = [0u32; PROPERTIES];
    let mut parameters = [0u32; PARAMETERS];
    reading::read_components(
        feed,
        &mut text,
        &mut components,
        &mut properties,
        &mut parameters,
    )
}

// Lays the words so many times, and counts the bytes.
pub fn repeat(words: &[u8], times: usize, out: &mut [u8], at: usize) -> usize {
    let mut to = at;
    for _ in 0..times {
        to = octets::lay(words, out, to);
    }
    to
}

// A feed of so many components inside each other, and how many bytes it has.
fn nest(depth: usize, out: &mut [u8]) -> usize {
    let inner = repeat(b"BEGIN:A\n", depth, out, 0);
    repeat(b"END:A\n", depth, out, inner)
}

// The rows of so many components inside each other: one more than is read at the most.
pub fn nest_rows(depth: usize, table: &mut [u32]) -> &[u32] {
    let depth = depth.min(octets::DEEPEST + 1);
    for row in 0..depth as u32 {
        let c = ComponentRow {
            parent: row.checked_sub(1).unwrap_or(tables::NO_PARENT),
            depth: row + 1,
            name_start: 0,
            name_len: 1,
        };
        c.put(table, row as usize);
    }
    rows(table, depth, ComponentRow::WORDS)
}

// The words of rows for one component more than is read.
const DEEP_WORDS: usize = ComponentRow::WORDS * (octets::DEEPEST + 1);

// Reads so many components inside each other.
pub fn read_nested(depth: usize) -> Reading {
    let mut feed = [0u8; 1024];
    let n = nest(depth, &mut feed);
    read_into::<1024, DEEP_WORDS, 0, 0>(octets::view(&feed, 0, n))
}

// A feed of so many bytes: a component with one property, whose value is what stood in the buffer.
fn stretch(size: usize, out: &mut [u8]) {
    octets::put(b"BEGIN:A\nK:", out);
    let end = b"\nEND:A\n";
    if let Some(at) = size.checked_sub(end.len()) {
        octets::lay(end, out, at);
    }
}

// One byte more than is read.
pub const OVER: usize = octets::LONGEST + 1;

// Reads a feed into rows for a component and a property.
pub fn read_front(feed: &[u8], text: &mut [u8]) -> Reading {
    let mut components = [0u32; ComponentRow::WORDS];
    let mut properties = [0u32; PropertyRow::WORDS];
    reading::read_components(feed, text, &mut components, &mut properties, &mut [])
}

// Reads a feed of so many bytes. An array of this size is lent as a slice only by way of a function that takes the array.
pub fn read_long(size: usize, feed: &mut [u8; OVER], text: &mut [u8; OVER]) -> Reading {
    stretch(size, feed);
    read_front(octets::view(feed, 0, size), text)
}
