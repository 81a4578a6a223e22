// What stands in lent buffers before a call, so that what stays is seen; and what stands there behind it.
use octets::Output;
use std::iter::Cycle;
use std::ops::RangeInclusive;
use std::{fmt, io};
use trial::{Numbers, Room};

// The first word of each table. The words behind it count on.
const COMPONENTS: u32 = 900_001;

const PROPERTIES: u32 = 910_001;

const PARAMETERS: u32 = 920_001;

// The bytes of every buffer.
fn marks() -> Cycle<RangeInclusive<u8>> {
    (170..=249).cycle()
}

pub fn mark_bytes(bytes: &mut [u8]) {
    for (byte, mark) in bytes.iter_mut().zip(marks()) {
        *byte = mark;
    }
}

fn bytes_kept(bytes: &[u8]) -> bool {
    bytes.iter().zip(marks()).all(|(byte, mark)| *byte == mark)
}

fn mark_words(words: &mut [u32], first: u32) {
    for (word, mark) in words.iter_mut().zip(first..) {
        *word = mark;
    }
}

fn words_kept(words: &[u32], first: u32) -> bool {
    words.iter().zip(first..).all(|(word, mark)| *word == mark)
}

pub fn mark_room(room: &mut Room) {
    mark_words(room.components, COMPONENTS);
    mark_words(room.properties, PROPERTIES);
    mark_words(room.parameters, PARAMETERS);
}

// Each byte as it is, where it can be seen; else its number.
#[derive(Clone, Copy)]
pub struct Shown<'a>(pub &'a [u8]);

impl fmt::Display for Shown<'_> {
    fn fmt<W: fmt::Write>(&self, f: &mut fmt::Formatter<W>) -> fmt::Result {
        for b in self.0 {
            match b {
                b' '..=b'~' => write!(f, "{}", char::from(*b))?,
                _ => write!(f, "<{b}>")?,
            }
        }
        Ok(())
    }
}

// A buffer: that it is as it was, or all of it.
#[derive(Clone, Copy)]
pub struct Left<'a>(pub &'a [u8]);

impl fmt::Display for Left<'_> {
    fn fmt<W: fmt::Write>(&self, f: &mut fmt::Formatter<W>) -> fmt::Result {
        let bytes = self.0;
        if bytes_kept(bytes) {
            return write!(f, " kept");
        }
        write!(f, " {}", Shown(bytes))
    }
}

// What a call answered, and the buffer.
pub fn say_output(rt: &impl Print, answered: Output, out: &[u8]) -> io::Result<()> {
    print!(rt; "{},{}", Numbers(answered), Left(out))
}

fn say_words(rt: &impl Print, name: &str, words: &[u32], first: u32) -> io::Result<()> {
    if words_kept(words, first) {
        return print!(rt; ", {name} kept");
    }
    print!(rt; ", {name}{}", Numbers(words))
}

pub fn say_room(rt: &impl Print, room: &Room) -> io::Result<()> {
    say_words(rt, "components", room.components, COMPONENTS)?;
    say_words(rt, "properties", room.properties, PROPERTIES)?;
    say_words(rt, "parameters", room.parameters, PARAMETERS)
}

// The last so many.
pub fn last<T>(items: &[T], count: usize) -> &[T] {
    &items[items.len().saturating_sub(count)..]
}

// The first so many: all where they are fewer.
pub fn front_mut<T>(items: &mut [T], count: usize) -> &mut [T] {
    let end = items.len().min(count);
    &mut items[..end]
}
