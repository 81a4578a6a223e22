// Escaped text (RFC 5545, section 3.3.11): a value read as its text, a text written as a value, and two values compared as texts.
#![tactic(auto)]

ghost use Rattle.std.specs.Prelude.{◌≡◌, not, ◌≤◌, ltb, length, true, Ok};
ghost use Rattle.octets.specs.Answers.{longest};
ghost use Rattle.octets.specs.Laid.{laid};
ghost use Rattle.octets.specs.Runs.{run};
ghost use Rattle.escapes.specs.Text.{escapable, meant, escapes_fine, text_of, safe, letter, as_value};
ghost use Rattle.escapes.specs.Answers.{text_answer, text_out, value_answer, value_out};
ghost use Rattle.escapes.specs.Loose.{same_text};
ghost use Rattle.escapes.specs.Turns.{scanned, Turns, read_alike, Written};

use octets::{Answer, Output};

// Which escapes are read: those of the RFC, or also the colon's, as the repository's tests have it. The modes differ in one byte of one test, and come
// from C by number, so that a type for each would say no more.
#[derive(Clone, Copy)]
pub enum Mode {
    Strict,
    Repository,
}

// Whether a backslash may stand before the byte.
fn escapable(mode: Mode, b: u8) -> bool
    ensures { result ≡ escapable mode b }
{
    let known = matches!(b, b'\\' | b';' | b',' | b'n' | b'N');
    match mode {
        Mode::Strict => known,
        Mode::Repository => known | (b == b':'),
    }
}

// What the byte behind a backslash stands for.
fn meant(b: u8) -> u8
    ensures { result ≡ meant b }
{
    match b {
        b'n' | b'N' => b'\n',
        _ => b,
    }
}

// The byte of the text that stands at the front of a value, and what is left of the value: none at its end, or where a backslash begins no escape.
fn next_unit(mode: Mode, value: &[u8]) -> Option<(u8, &[u8])>
    ensures { Turns mode value.now result }
{
    let (first, rest) = value.split_first()?;
    if *first != b'\\' {
        return Some((*first, rest));
    }
    let (letter, rest) = rest.split_first()?;
    if !escapable(mode, *letter) {
        return None;
    }
    Some((meant(*letter), rest))
}

// How long the text of a value is, or the place of the first backslash that begins no escape. What stands before the first backslash is passed over at once.
fn look_through(mode: Mode, value: &[u8]) -> Result<usize, usize>
    ensures { result ≡ scanned mode value.now }
{
    let mut count = octets::find_near(value, 0, b'\\');
    let mut rest = &value[count..];
    while let Some((_, more)) = next_unit(mode, rest) {
        count += 1;
        rest = more;
    }
    if rest.is_empty() {
        return Ok(count);
    }
    Err(value.len() - rest.len())
}

// Lays the text of a value that is fine over the front of a buffer that has room for it, one byte after the other.
fn lay_units(mode: Mode, value: &[u8], out: &mut [u8])
    requires { (escapes_fine mode value.now ≡ true) × (length (text_of value.now) ≤ length out.old) }
    ensures { out.new ≡ laid (text_of value.now) out.old }
{
    // The place is counted by hand: two bytes of the value may stand for one of the text.
    let mut at = 0;
    let mut rest = value;
    while let Some((b, more)) = next_unit(mode, rest) {
        out[at] = b;
        at += 1;
        rest = more;
    }
}

// Lays the text, which has so many bytes. A value as long as its text is the text, and is laid at once.
fn lay_text(mode: Mode, value: &[u8], needed: usize, out: &mut [u8])
    requires { Ok needed ≡ scanned mode value.now × (needed ≤ length out.old) }
    ensures { out.new ≡ laid (text_of value.now) out.old }
{
    if needed == value.len() {
        octets::put(value, out);
        return;
    }
    lay_units(mode, value, out)
}

// The text that a value stands for. All of the value is looked through before a byte is written.
pub fn read_text(mode: Mode, value: &[u8], out: &mut [u8]) -> Output
    ensures { (result ≡ text_answer mode value.now (length out.old)) × (out.new ≡ text_out mode value.now out.old) }
{
    if octets::LONGEST < value.len() {
        return Output::refusal(Answer::TooLong, 0);
    }
    match look_through(mode, value) {
        Err(place) => Output::refusal(Answer::BadEscape, place),
        Ok(needed) => {
            let answer = octets::room_for(needed, out.len());
            if answer.is_done() {
                lay_text(mode, value, needed, out);
            }
            answer
        }
    }
}

// Whether the byte wants a backslash. By `|`, and not by `matches!`, which branches: the loop that counts the last bytes of a block has no branch.
fn special(b: u8) -> bool
    ensures { safe b ≡ not result }
{
    (b == b'\\') | ((b == b';') | ((b == b',') | (b == b'\n')))
}

// What stands behind the backslash for the byte.
fn letter(b: u8) -> u8
    ensures { result ≡ letter b }
{
    if b == b'\n' { b'n' } else { b }
}

// How long the value of a block is. The backslashes are counted in a byte, so that the loop becomes vector code.
fn block_length(block: &[u8]) -> usize
    requires { length block.now ≤ 128 }
    ensures { result ≡ length (as_value block.now) }
{
    let mut more: u8 = 0;
    for b in block {
        more += u8::from(special(*b));
    }
    block.len() + usize::from(more)
}

// How long the value of a text is.
fn value_length(text: &[u8]) -> usize
    requires { length text.now ≤ longest }
    ensures { result ≡ length (as_value text.now) }
{
    let mut n = 0;
    for block in text.chunks(128) {
        n += block_length(block);
    }
    n
}

// Whether one of the eight bytes at the front wants a backslash.
fn any_special(text: &[u8]) -> bool
    requires { 8 ≤ length text.now }
    ensures { result ≡ ltb (run safe text.now) 8 }
{
    octets::any_of_8(text, 0, b'\\')
        | (octets::any_of_8(text, 0, b';')
            | (octets::any_of_8(text, 0, b',') | octets::any_of_8(text, 0, b'\n')))
}

// Lays the value of a text over the front of a buffer that has room for it, one byte after the other, and counts its bytes.
fn lay_each(text: &[u8], out: &mut [u8]) -> usize
    requires { length (as_value text.now) ≤ length out.old }
    ensures { Written text.now out.old out.new result }
{
    // The place is counted by hand: a byte of the text may be written as two.
    let mut at = 0;
    for b in text {
        if !special(*b) {
            out[at] = *b;
            at += 1;
            continue;
        }
        out[at] = b'\\';
        out[at + 1] = letter(*b);
        at += 2;
    }
    at
}

// Lays bytes over the front of a buffer, as `octets::put` does. Eight bytes are moved as one number, and not by a call.
fn put_eight(bytes: &[u8], out: &mut [u8])
    ensures { out.new ≡ laid bytes.now out.old }
{
    let n = bytes.len().min(out.len());
    if n != 8 {
        return octets::put(bytes, out);
    }
    out[..8].copy_from_slice(&bytes[..8])
}

// What `lay_each` does, for at most eight bytes. Eight of which none wants a backslash are moved as one number.
fn lay_part(part: &[u8], out: &mut [u8]) -> usize
    requires { (length part.now ≤ 8) × (length (as_value part.now) ≤ length out.old) }
    ensures { Written part.now out.old out.new result }
{
    if part.len() < 8 {
        return lay_each(part, out);
    }
    if any_special(part) {
        return lay_each(part, out);
    }
    put_eight(part, out);
    part.len()
}

// The same for a whole text.
fn lay_value(text: &[u8], out: &mut [u8]) -> usize
    requires { length (as_value text.now) ≤ length out.old }
    ensures { Written text.now out.old out.new result }
{
    let mut at = 0;
    for part in text.chunks(8) {
        at += lay_part(part, &mut out[at..]);
    }
    at
}

// A text as a value that stands for it, counted first and then written: a refusal changes nothing.
// Not by `octets::lay_if_room`: the value's length has a limit too, and is counted by a loop that becomes vector code.
pub fn write_text(text: &[u8], out: &mut [u8]) -> Output
    ensures { (result ≡ value_answer text.now (length out.old)) × (out.new ≡ value_out text.now out.old) }
{
    if octets::LONGEST < text.len() {
        return Output::refusal(Answer::TooLong, 0);
    }
    let needed = value_length(text);
    if octets::LONGEST < needed {
        return Output::refusal(Answer::TooLong, 0);
    }
    let told = octets::room_for(needed, out.len());
    if told.is_done() {
        lay_value(text, out);
    }
    told
}

// Whether the mode reads two values, and as the same text: both side by side, a byte of the texts at a time.
fn read_alike(mode: Mode, a: &[u8], b: &[u8]) -> bool
    ensures { result ≡ read_alike mode a.now b.now }
{
    let mut v = a;
    let mut w = b;
    while let (Some((x, more)), Some((y, others))) = (next_unit(mode, v), next_unit(mode, w)) {
        if x != y {
            return false;
        }
        v = more;
        w = others;
    }
    v.is_empty() & w.is_empty()
}

// Whether two values are alike as texts read strictly, or as bytes where one of them is refused. Values of the same bytes are alike either way.
pub fn same_text(a: &[u8], b: &[u8]) -> bool
    ensures { result ≡ same_text a.now b.now }
{
    if octets::same_bytes(a, b) {
        return true;
    }
    if (octets::LONGEST < a.len()) | (octets::LONGEST < b.len()) {
        return false;
    }
    read_alike(Mode::Strict, a, b)
}
