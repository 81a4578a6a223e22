// Lines: where a line of a text ends, and what it is by itself.
#![tactic(auto)]

ghost use Rattle.std.specs.Prelude.{◌≡◌, ◌+◌, ◌≤◌, ◌<◌, length, drop};
ghost use Rattle.octets.specs.Words.{starts_word};
ghost use Rattle.octets.specs.Keys.{key_of};
ghost use Rattle.lines.specs.Split.{extent_of};
ghost use Rattle.lines.specs.Rule.{line_of, after_begin, begin_of, by_key, property_or_bad, begin_mark, end_mark};

use octets::Span;

// A line of a text: how long it is without its break, and where the next one starts.
#[derive(Clone, Copy)]
pub struct Extent {
    pub len: usize,
    pub next: usize,
}

// What is wrong with a line that is neither BEGIN nor END, and no property.
#[derive(Clone, Copy)]
pub enum Fault {
    // Its key is BEGIN or END.
    ReservedKey,
    // It has no key.
    EmptyKey,
    // Behind its key and parameters stands neither a colon nor the end, but a byte at this offset in the line.
    StrayByte(usize),
}

#[derive(Clone, Copy)]
pub struct Property {
    pub key: Span,
    pub parameters: usize,
    pub value: Span,
}

#[derive(Clone, Copy)]
pub enum Line {
    Empty,
    // The name behind `BEGIN:`.
    Begin(Span),
    // Behind `BEGIN:` is no name.
    BadBegin,
    // What stands behind `END:`.
    End(Span),
    Content(Property),
    Bad(Fault),
}

// The line that starts at `at`.
pub fn line_at(text: &[u8], at: usize) -> Extent
    requires { at ≤ length text.now }
    ensures { result ≡ extent_of at (drop at text.now) }
{
    let end = octets::find_near(text, at, b'\n');
    if text.len() <= end {
        return Extent {
            len: end - at,
            next: end,
        };
    }
    // Of an empty line the byte in front belongs to the line before.
    let len = if at < end && text[end - 1] == b'\r' {
        end - 1 - at
    } else {
        end - at
    };
    Extent { len, next: end + 1 }
}

// Where the rest of a line starts, behind `BEGIN:` and behind `END:`.
const AFTER_BEGIN: usize = 6;

const AFTER_END: usize = 4;

fn begin_line(line: &[u8]) -> Line
    requires { after_begin ≤ length line.now }
    ensures { result ≡ begin_of line.now }
{
    let n = line.len() - AFTER_BEGIN;
    let run = octets::key_run(&line[AFTER_BEGIN..]);
    if (0 < n) & (run == n) {
        return Line::Begin(Span {
            start: AFTER_BEGIN,
            len: n,
        });
    }
    Line::BadBegin
}

// The property rule: a key, parameters, and behind a colon the value, which is empty where the line ends instead.
fn property_of(line: &[u8]) -> Result<Property, Fault>
    ensures { property_or_bad result ≡ by_key (key_of line.now) line.now }
{
    let len = octets::property_key(line).ok_or(Fault::ReservedKey)?;
    if len == 0 {
        return Err(Fault::EmptyKey);
    }
    let passed = parameters::parameters(&line[len..]);
    let at = len + passed.used;
    let start = if at == line.len() {
        at
    } else if line[at] == b':' {
        at + 1
    } else {
        return Err(Fault::StrayByte(at));
    };
    Ok(Property {
        key: Span { start: 0, len },
        parameters: passed.count,
        value: Span {
            start,
            len: line.len() - start,
        },
    })
}

// What a line is; it knows nothing of the lines around it.
pub fn read_line(line: &[u8]) -> Line
    ensures { result ≡ line_of line.now }
{
    if line.is_empty() {
        return Line::Empty;
    }
    if octets::may_be_reserved(line) {
        if octets::starts_word(b"BEGIN:", line) {
            return begin_line(line);
        }
        if octets::starts_word(b"END:", line) {
            return Line::End(Span {
                start: AFTER_END,
                len: line.len() - AFTER_END,
            });
        }
    }
    match property_of(line) {
        Ok(property) => Line::Content(property),
        Err(fault) => Line::Bad(fault),
    }
}
