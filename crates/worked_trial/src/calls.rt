// One function for each public call that has more to say than its output. It prints the numbers that are answered, and what is left in the buffers.
use cases::fields::Case;
use cases::lent::{Left, Shown, mark_room, say_room};
use octets::Output;
use parameters::{Param, Value};
use std::io;
use tables::Tables;
use trial::{Numbers, Room};

// The most words of a table, but for the deep ones.
pub const WORDS: usize = 24;

// The room is the bytes of the text, and the words of the three tables.
pub fn read(rt: &impl Print, case: Case, feed: &[u8], text: &mut [u8]) -> io::Result<()> {
    let mut words = case.zeros::<WORDS>(1);
    let mut room = words.room();
    mark_room(&mut room);
    let read = room.read(feed, text);
    print!(rt; "{}, text{}", Numbers(read), Left(text))?;
    say_room(rt, &room)
}

pub fn measure(rt: &impl Print, feed: &[u8], text: &mut [u8]) -> io::Result<()> {
    let measured = reading::measure_components(feed, text);
    print!(rt; "{}, text{}", Numbers(measured), Left(text))
}

// Fills these tables from a text, and prints what they hold then.
fn fill_lent(rt: &impl Print, text: &[u8], room: &mut Room) -> io::Result<()> {
    print!(rt; "{}", Numbers(room.fill(text)))?;
    say_room(rt, room)
}

// In place of the room stand the words of the three tables.
pub fn fill(rt: &impl Print, case: Case, text: &[u8]) -> io::Result<()> {
    let mut words = case.zeros::<WORDS>(0);
    let mut room = words.room();
    mark_room(&mut room);
    fill_lent(rt, text, &mut room)
}

// The same with new tables, which are all zero.
pub fn fill_new(rt: &impl Print, case: Case, text: &[u8]) -> io::Result<()> {
    fill_lent(rt, text, &mut case.zeros::<WORDS>(0).room())
}

pub fn write(t: Tables, out: &mut [u8]) -> Output {
    writing::write_components(t.text, t.components, t.properties, t.parameters, out)
}

// Behind the room stand the words of the three tables.
pub fn write_words(case: Case, text: &[u8], out: &mut [u8]) -> Output {
    write(case.words::<WORDS>().tables(text), out)
}

pub fn unfold(rt: &impl Print, feed: &[u8], out: &mut [u8]) -> io::Result<()> {
    let length = unfolding::unfold_into(feed, out);
    print!(rt; " {length},{}", Left(out))
}

// In place of the room stand start and length of the view. Its length is printed, and its bytes.
pub fn view(rt: &impl Print, case: Case, text: &[u8]) -> io::Result<()> {
    let part = octets::view(text, case.number(3, 0), case.number(3, 1));
    print!(rt; " {} {}", part.len(), Shown(part))
}

// How many bytes the key of a line has is printed, or that it is refused.
pub fn key(rt: &impl Print, line: &[u8]) -> io::Result<()> {
    match octets::property_key(line) {
        None => print!(rt; " refused"),
        Some(n) => print!(rt; " {n}"),
    }
}

// The six numbers of the parameter at the front are printed, or that there is none.
pub fn parameter(rt: &impl Print, rest: &[u8]) -> io::Result<()> {
    let Some(Param { key, value, used }) = parameters::parameter(rest) else {
        return print!(rt; " none");
    };
    print!(rt; " {} {}", key.start, key.len)?;
    match value {
        Value::Absent => print!(rt; " 0 0 0 {used}"),
        Value::Present(s) => print!(rt; " 1 {} {} {used}", s.start, s.len),
    }
}
