// Runs the writer on tables made by hand: what it writes, what it refuses and at which row, and that a refusal leaves its buffer alone. Each case is a line of
// standard input: the call, the name, the text, the room of the buffer, and the words of the three tables.
#![tactic(auto)]

use cases::fields::{Case, lay_bytes};
use cases::lent::front_mut;
use octets::Output;
use std::io;
use tables::Tables;
use trial::{Numbers, OVER, say};

// Room for all lines.
const LINES: usize = 65_536;

// The most bytes of a text, and the most words of a table, but for the deep and the long ones.
const BYTES: usize = 24;

const WORDS: usize = 24;

// The most bytes of a buffer, but for the long ones.
const ROOM: usize = 1100;

// 65 rows.
const ROWS: usize = 260;

// What a buffer holds before the writer is lent it.
const BEFORE: u8 = b'#';

fn say_kept(rt: &impl Print, part: &str, bytes: &[u8]) -> io::Result<()> {
    if bytes.iter().all(|b| *b == BEFORE) {
        return println!(rt; ", {part} untouched");
    }
    println!(rt; ", {part} CHANGED")
}

// The three numbers, and whether the buffer is as it was, behind what was written.
fn say_numbers(rt: &impl Print, o: Output, out: &[u8]) -> io::Result<()> {
    print!(rt; "{}", Numbers(o))?;
    if !o.is_done() {
        return say_kept(rt, "buffer", out);
    }
    let end = o.length.min(out.len());
    say_kept(rt, "rest", &out[end..])
}

fn write_all(t: Tables, out: &mut [u8]) -> Output {
    writing::write_components(t.text, t.components, t.properties, t.parameters, out)
}

// Behind the room stand the words of the three tables.
fn write_tables(case: Case, text: &[u8], out: &mut [u8]) -> Output {
    write_all(case.words::<WORDS>().tables(text), out)
}

// The numbers alone: 13 has the length needed, and no byte written.
fn measure(rt: &impl Print, case: Case, text: &[u8], out: &mut [u8]) -> io::Result<()> {
    let o = write_tables(case, text, out);
    say_numbers(rt, o, out)
}

// They and the calendar.
fn write(rt: &impl Print, case: Case, text: &[u8], out: &mut [u8]) -> io::Result<()> {
    let o = write_tables(case, text, out);
    say_numbers(rt, o, out)?;
    if o.is_done() {
        say(rt, octets::view(out, 0, o.length))?;
    }
    Ok(())
}

// In place of the tables stands how many components there are inside each other.
fn write_nested(rt: &impl Print, case: Case, text: &[u8], out: &mut [u8]) -> io::Result<()> {
    let mut components = [0u32; ROWS];
    let nested = Tables {
        text,
        components: trial::nest_rows(case.number(4, 0), &mut components),
        properties: &[],
        parameters: &[],
    };
    let o = write_all(nested, out);
    say_numbers(rt, o, out)
}

// An array of this size is lent as a slice only by way of a function that takes the array.
fn measure_long(
    rt: &impl Print,
    case: Case,
    text: &[u8; OVER],
    out: &mut [u8; OVER],
) -> io::Result<()> {
    measure(rt, case, text, out)
}

// A text and a buffer of one byte more than the longest calendar, in place of those of the line.
fn write_long(rt: &impl Print, case: Case) -> io::Result<()> {
    measure_long(rt, case, &[b'a'; OVER], &mut [BEFORE; OVER])
}

// The call on this text, with this buffer.
fn call(rt: &impl Print, case: Case, text: &[u8], out: &mut [u8]) -> io::Result<()> {
    match case.call() {
        b"write" => write(rt, case, text, out),
        b"room" => measure(rt, case, text, out),
        b"nested" => write_nested(rt, case, text, out),
        b"long" => write_long(rt, case),
        _ => println!(rt; " NO SUCH CALL"),
    }
}

fn run(rt: &impl Print, case: Case) -> io::Result<()> {
    let mut text = [0u8; BYTES];
    let n = lay_bytes(case.field(2), &mut text);
    let mut out = [BEFORE; ROOM];
    cases::say_name(rt, case)?;
    call(
        rt,
        case,
        octets::view(&text, 0, n),
        front_mut(&mut out, case.number(3, 0)),
    )
}

fn main(rt: HostRuntime) -> io::Result<()> {
    cases::run_all::<LINES, _>(&mut rt.stdin(), |case| run(&rt, case))
}
