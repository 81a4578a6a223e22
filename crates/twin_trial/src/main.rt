// Runs the twin test, the looser one and the count of neighbours on feeds and on tables made by hand: which rows are twins, what is refused, and with which
// place. The last lines are the worked cases of crates/worked/specs/Twins.antt and LooseTwins.antt. Each case is a line of standard input: the call, the name,
// a feed or a text, and row numbers.
#![tactic(auto)]

use cases::fields::{Case, lay_bytes, number};
use std::io;
use tables::{ParameterRow, Row, Tables};
use trial::{OVER, Room};
use twins::Compared;

// Room for all lines.
const LINES: usize = 65_536;

// The most bytes of a feed that is given whole, and the most words of a table that is.
const BYTES: usize = 512;

const WORDS: usize = 36;

// The count of neighbours, or the looser test, for the calls of these names; else the twin test. The fourth field has the row numbers.
fn ask(rt: &impl Print, case: Case, t: Tables) -> io::Result<()> {
    let row = case.number(3, 0);
    match case.call() {
        b"neighbours" => {
            let told = neighbours::count_neighbours(
                t.text,
                t.components,
                t.properties,
                t.parameters,
                row,
            );
            print!(rt; " {} {} {}", told.answer, told.place, told.twins)
        }
        call => {
            let told = compare(call, t, row, case.number(3, 1));
            print!(rt; " {} {} {}", told.answer, told.place, told.twins)
        }
    }
}

fn compare(call: &[u8], t: Tables, row: usize, other: usize) -> Compared {
    match call {
        b"loose twins" | b"loose feed" | b"loose long" => {
            twins::compare_loose_twins(t.text, t.components, t.properties, t.parameters, row, other)
        }
        _ => twins::compare_twins(t.text, t.components, t.properties, t.parameters, row, other),
    }
}

// Behind the row numbers stand the words of the three tables.
fn ask_tables(rt: &impl Print, case: Case, text: &[u8]) -> io::Result<()> {
    ask(rt, case, case.words::<WORDS>().tables(text))
}

// Reads a feed and asks of its rows. The text and the tables are cut to what the reading tells.
fn ask_feed(rt: &impl Print, case: Case, feed: &[u8]) -> io::Result<()> {
    let mut text = [0u8; 2048];
    let mut room = Room {
        components: &mut [0; 600],
        properties: &mut [0; 60],
        parameters: &mut [0; 60],
    };
    let done = room.read(feed, &mut text);
    match room.tables(done, &text) {
        Some(tables) => ask(rt, case, tables),
        None => print!(rt; " NOT READ"),
    }
}

// Lays 64 components inside each other, the innermost with one property.
fn nest(line: &[u8], feed: &mut [u8], at: usize) -> usize {
    let inner = trial::repeat(b"BEGIN:A\n", octets::DEEPEST, feed, at);
    let end = octets::lay(line, feed, inner);
    trial::repeat(b"END:A\n", octets::DEEPEST, feed, end)
}

// Asks of two such, one behind the other. The third field has the property of the second.
fn ask_nested(rt: &impl Print, case: Case, line: &[u8]) -> io::Result<()> {
    let mut feed = [0u8; 2048];
    let middle = nest(b"K:v\n", &mut feed, 0);
    let end = nest(line, &mut feed, middle);
    ask_feed(rt, case, octets::view(&feed, 0, end))
}

// Asks of the rows of 65 components inside each other.
fn ask_65(rt: &impl Print, case: Case) -> io::Result<()> {
    let mut components = [0u32; 260];
    let nested = Tables {
        text: b"A",
        components: trial::nest_rows(65, &mut components),
        properties: &[],
        parameters: &[],
    };
    ask(rt, case, nested)
}

// Asks of tables whose text has these bytes in front and is one byte longer than a value that is read. An array of this size is lent as a slice only by way
// of a function that takes the array.
fn ask_lent(rt: &impl Print, case: Case, bytes: &[u8], text: &mut [u8; OVER]) -> io::Result<()> {
    octets::lay(bytes, text, 0);
    ask_tables(rt, case, text)
}

// How many parameters a property of a crowd has: more than the rows of one shelf (crates/sifting).
const CROWD: u32 = 2000;

// A parameter of the property, told from others by how long its value is.
fn as_long(property: u32, length: u32) -> ParameterRow {
    ParameterRow {
        property,
        key_start: 0,
        key_len: 1,
        present: 1,
        value_start: 0,
        value_len: length,
    }
}

// Lays the parameters of two properties, those of the second backwards.
fn lay_crowd(parameters: &mut [u32]) {
    for n in 0..CROWD {
        as_long(0, n).put(parameters, n as usize);
        as_long(1, CROWD - 1 - n).put(parameters, (CROWD + n) as usize);
    }
}

// Asks of two components with such properties. The third field has a row, and how long its value is instead.
fn ask_crowd(rt: &impl Print, case: Case, change: &[u8]) -> io::Result<()> {
    let mut parameters = [0u32; 24_000];
    lay_crowd(&mut parameters);
    let length = (number(change, 1) & 0xffff_ffff) as u32;
    as_long(1, length).put(&mut parameters, number(change, 0));
    let crowded = Tables {
        text: &[b'P'; 2000],
        components: &[tables::NO_PARENT, 1, 0, 1, tables::NO_PARENT, 1, 0, 1],
        properties: &[0, 0, 1, 0, 1, 1, 0, 1, 0, 1],
        parameters: &parameters,
    };
    ask(rt, case, crowded)
}

// The call on these bytes.
fn call(rt: &impl Print, case: Case, bytes: &[u8]) -> io::Result<()> {
    match case.call() {
        b"twins" | b"neighbours" | b"loose twins" => ask_tables(rt, case, bytes),
        b"feed" | b"loose feed" => ask_feed(rt, case, bytes),
        b"nested" => ask_nested(rt, case, bytes),
        b"65 levels" => ask_65(rt, case),
        b"long" | b"loose long" => ask_lent(rt, case, bytes, &mut [b'a'; OVER]),
        b"crowd" => ask_crowd(rt, case, bytes),
        _ => print!(rt; " NO SUCH CALL"),
    }
}

fn run(rt: &impl Print, case: Case) -> io::Result<()> {
    let mut bytes = [0u8; BYTES];
    let n = lay_bytes(case.field(2), &mut bytes);
    cases::say_name(rt, case)?;
    call(rt, case, octets::view(&bytes, 0, n))?;
    println!(rt; "")
}

fn main(rt: HostRuntime) -> io::Result<()> {
    cases::run_all::<LINES, _>(&mut rt.stdin(), |case| run(&rt, case))
}
