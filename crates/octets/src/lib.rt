// Bytes: their classes, keys, equal parts, words in any case, views, and the numbers that every answer is made of.
#![tactic(auto)]

ghost use Rattle.std.specs.Prelude.{◌≡◌, ℕ, Bool, List, ◌<◌, false, ◌∷◌, [], ◌++◌, ◌+◌, ◌≤◌, length, get_or, take, drop, eqb, leb, ltb};
ghost use Rattle.octets.specs.Bytes.{capital, common, key_byte, lowered, other};
ghost use Rattle.octets.specs.Laid.{laid, counted, Lays, LaysEach};
ghost use Rattle.octets.specs.Answers.{answer_number, done, output, room_answer, out_after};
ghost use Rattle.octets.specs.Runs.{run};
ghost use Rattle.octets.specs.Numbers.{marks, eight};
ghost use Rattle.octets.specs.Words.{same_bytes, same_word, starts_word};
ghost use Rattle.octets.specs.Keys.{key_of, opens_reserved, reserved, stands_alone, stops_at};
ghost use Rattle.octets.specs.Views.{viewed, viewed_at, bytes_on};

mod eights;

// The most bytes of a feed, of a line to fold, of a value to quote and of the writer's output.
pub const LONGEST: usize = 1_048_576;
// The most components that stand inside each other.
pub const DEEPEST: usize = 64;

// What a call answers: Done, or why it refuses. The numbers, from 0 on in this order, are those of the documents and of callers in C.
#[derive(Clone, Copy)]
pub enum Answer {
    Done,
    TooLong,
    NoTextRoom,
    BadBegin,
    TooDeep,
    BadEnd,
    Outside,
    EmptyKey,
    Unclosed,
    NoComponent,
    NoRoom,
    HasBreak,
    NotAscii,
    NoOutRoom,
    BadTable,
    Unwritable,
    BadEscape,
    ReservedKey,
    StrayByte,
    NotUtf8,
}

impl Answer {
    pub fn number(self) -> u32
        ensures { result ≡ answer_number self }
    {
        self as u32
    }
}

// What a fold, quoting or the writer answers: on NoOutRoom the length is the one needed. The answer is a number, as theorems put answers in order.
#[derive(Clone, Copy)]
pub struct Output {
    pub answer: u32,
    pub place: usize,
    pub length: usize,
}

impl Output {
    // A refusal, at the place that it names.
    pub fn refusal(answer: Answer, place: usize) -> Output
        ensures { result ≡ output (answer_number answer) place 0 }
    {
        Output {
            answer: answer.number(),
            place,
            length: 0,
        }
    }

    // Done, with so many bytes.
    pub fn done(length: usize) -> Output
        ensures { result ≡ output done 0 length }
    {
        Output {
            answer: Answer::Done.number(),
            place: 0,
            length,
        }
    }

    // Whether it is Done, and no refusal.
    pub fn is_done(self) -> bool
        ensures { result ≡ eqb self.answer done }
    {
        self.answer == Answer::Done.number()
    }
}

// A part of a line or of a text.
#[derive(Clone, Copy)]
pub struct Span {
    pub start: usize,
    pub len: usize,
}

// Passes over capital letters at the front, eight bytes at a time: most keys are made of them.
fn skip_capitals(line: &[u8]) -> usize
    ensures { (result ≤ length line.now) × (result + run key_byte (drop result line.now) ≡ run key_byte line.now) }
{
    // An index, as each step takes eight bytes.
    let mut i: usize = 0;
    let mut left = line.len();
    while 8 <= left {
        let marked = eights::marks_of_others(line, i);
        if marked != 0 {
            return i + eights::first_mark(marked);
        }
        i += 8;
        left -= 8;
    }
    i
}

// Whether a byte is a letter, a digit or one of . , / _ -
// The brackets are the definition's. With them the compiler joins the ranges that touch.
fn is_key_byte(b: u8) -> bool
    ensures { result ≡ key_byte b }
{
    let capital = (b'A' <= b) & (b <= b'Z');
    let small = (b'a' <= b) & (b <= b'z');
    let digit = (b'0' <= b) & (b <= b'9');
    let mark = (b == b'.') | ((b == b',') | ((b == b'/') | ((b == b'_') | (b == b'-'))));
    capital | (small | (digit | mark))
}

// The length of the longest run of bytes of a class at the front. The closure tells which bytes are of the class.
pub fn run_while<F: Fn(u8) -> bool>(a: &[u8], is_in: F) -> usize
    requires { F.IsAlwaysCallable is_in }
    ensures inside { result ≤ length a.now }
    ensures longest { (class : ℕ → Bool) → ((x : ℕ) (b : Bool) → x < 256 → F.post is_in x b → b ≡ class x) → result ≡ run class a.now }
{
    for (i, x) in a.iter().enumerate() {
        if !is_in(*x) {
            return i;
        }
    }
    a.len()
}

// The length of the longest run of key bytes at the front.
pub fn key_run(line: &[u8]) -> usize
    ensures { result ≡ run key_byte line.now }
{
    let n = skip_capitals(line);
    n + run_while(&line[n..], is_key_byte)
}

// A class of bytes that eight are asked for at once.
pub trait Class {
    ghost has: { ℕ → Bool };

    // Marks each of the 8 bytes from `at` on that is not of the class.
    fn marks_outside(text: &[u8], at: usize) -> u64
        requires { at + 8 ≤ length text.now }
        ensures { result ≡ marks has (eight text.now at) };
}

pub struct Capital;

impl Class for Capital {
    ghost has = { capital };

    fn marks_outside(text: &[u8], at: usize) -> u64 {
        eights::marks_of_others(text, at)
    }
}

pub struct Common;

impl Class for Common {
    ghost has = { common };

    fn marks_outside(text: &[u8], at: usize) -> u64 {
        eights::marks_of_uncommon(text, at)
    }
}

// Whether the n bytes from `at` on are of the class. Eight are looked at together, and so are some behind the n.
pub fn all_of<C: Class>(text: &[u8], at: usize, n: usize) -> bool
    requires { at + n + 8 ≤ length text.now }
    ensures { result ≡ leb n (run C.has (drop at text.now)) }
{
    // An index, as each step takes eight bytes.
    let mut i: usize = 0;
    while i < n {
        let marked = C::marks_outside(text, at + i);
        if marked != 0 {
            return n - i <= eights::first_mark(marked);
        }
        i += 8;
    }
    true
}

// Whether a view lies inside the text, with eight bytes and more behind it.
pub fn eight_behind(text: &[u8], start: u32, len: u32) -> bool
    ensures { result ≡ leb (start + len + 8) (length text.now) }
{
    start as usize + len as usize + 8 <= text.len()
}

// How many bytes count as near: most lines are shorter.
const NEAR: usize = 256;

// Whether one of the 8 bytes from `at` on is b.
pub fn any_of_8(a: &[u8], at: usize, b: u8) -> bool
    requires { at + 8 ≤ length a.now }
    ensures { result ≡ ltb (run (other b) (drop at a.now)) 8 }
{
    eights::marks_of(a, at, b) != 0
}

// Whether one of the 64 bytes from `at` on is b. The loop has no branch, so that it becomes vector code.
pub fn any_of_64(a: &[u8], at: usize, b: u8) -> bool
    requires { at + 64 ≤ length a.now }
    ensures { result ≡ ltb (run (other b) (drop at a.now)) 64 }
{
    let mut hit: u8 = 0;
    for x in &a[at..at + 64] {
        hit |= u8::from(*x == b);
    }
    hit != 0
}

// The place of the first b from `from` on, or the end.
pub fn find_byte(a: &[u8], from: usize, b: u8) -> usize
    ensures { result ≡ from + run (other b) (drop from a.now) }
{
    if a.len() <= from {
        return from;
    }
    // An index, as each step takes 64 bytes.
    let mut i = from;
    while 64 <= a.len() - i && !any_of_64(a, i, b) {
        i += 64;
    }
    i + run_while(&a[i..], |x| x != b)
}

// The same place, for a byte that is expected near: eight bytes at a time at first, and in blocks where it is far after all.
pub fn find_near(a: &[u8], from: usize, b: u8) -> usize
    ensures { result ≡ from + run (other b) (drop from a.now) }
{
    if a.len() <= from {
        return from;
    }
    // An index, as each step takes eight bytes.
    let mut i = from;
    let mut left = NEAR.min(a.len() - from);
    while 8 <= left {
        let marked = eights::marks_of(a, i, b);
        if marked != 0 {
            return i + eights::first_mark(marked);
        }
        i += 8;
        left -= 8;
    }
    find_byte(a, i, b)
}

// Lays the bytes over the front of a buffer, as far as it goes.
pub fn put(bytes: &[u8], out: &mut [u8])
    ensures { out.new ≡ laid bytes.now out.old }
{
    let n = bytes.len().min(out.len());
    for (i, b) in bytes[..n].iter().enumerate() {
        out[i] = *b;
    }
}

// Lays the bytes over the buffer from `at` on, as far as it goes, and counts them in full.
pub fn lay(bytes: &[u8], out: &mut [u8], at: usize) -> usize
    ensures { Lays at bytes.now out.old out.new result }
{
    let from = at.min(out.len());
    put(bytes, &mut out[from..]);
    at.saturating_add(bytes.len())
}

// Lays one byte in the same way.
pub fn lay_byte(b: u8, out: &mut [u8], at: usize) -> usize
    ensures { Lays at (b ∷ []) out.old out.new result }
{
    if at < out.len() {
        out[at] = b;
    }
    at.saturating_add(1)
}

// Whether so many bytes go into so much room: Done, or the length needed.
pub fn room_for(needed: usize, room: usize) -> Output
    ensures { result ≡ room_answer needed room }
{
    if room < needed {
        return Output {
            answer: Answer::NoOutRoom.number(),
            place: 0,
            length: needed,
        };
    }
    Output::done(needed)
}

// Lays what a step lays over the buffer it is lent, if there is room: it is counted first, over no buffer, and a refusal changes nothing.
pub fn lay_if_room<F: Fn(&mut [u8]) -> usize>(lay: F, out: &mut [u8]) -> Output
    requires { F.IsAlwaysCallable lay }
    ensures { (bytes : List ℕ) → LaysEach (F.post lay) bytes
        → (result ≡ room_answer (counted (length bytes)) (length out.old)) × (out.new ≡ out_after result bytes out.old) }
{
    let told = room_for(lay(&mut []), out.len());
    if told.is_done() {
        lay(out);
    }
    told
}

// How many bytes at the front of two texts of one length are seen to be the same, eight at a time. It stops at the first eight
// that differ, or where fewer than eight are left.
fn same_eights(a: &[u8], b: &[u8]) -> usize
    requires { length a.now ≡ length b.now }
    ensures same_so_far { (result ≤ length a.now) × (take result a.now ≡ take result b.now) }
    ensures next_differ { result + 8 ≤ length a.now → same_bytes (drop result a.now) (drop result b.now) ≡ false }
{
    // An index, as each step takes eight bytes.
    let mut i: usize = 0;
    while 8 <= a.len() - i {
        if !eights::same(a, b, i) {
            return i;
        }
        i += 8;
    }
    i
}

// Whether two texts are the same.
pub fn same_bytes(a: &[u8], b: &[u8]) -> bool
    ensures { result ≡ same_bytes a.now b.now }
{
    if a.len() != b.len() {
        return false;
    }
    let n = same_eights(a, b);
    // Eight that differ tell at once. What is left otherwise is less than eight.
    a.len() - n < 8 && a[n..] == b[n..]
}

// Whether two bytes are the same, in any case if they are letters. Those of words that are the same mostly are the same byte.
fn same_letter(a: u8, b: u8) -> bool
    ensures { result ≡ eqb (lowered a) (lowered b) }
{
    a == b || a.to_ascii_lowercase() == b.to_ascii_lowercase()
}

// Whether two words are the same, in any case of their letters. One loop: many that are asked for differ, and a second look would cost as much again.
pub fn same_word(a: &[u8], b: &[u8]) -> bool
    ensures { result ≡ same_word a.now b.now }
{
    if a.len() != b.len() {
        return false;
    }
    for i in same_eights(a, b)..a.len() {
        if !same_letter(a[i], b[i]) {
            return false;
        }
    }
    true
}

// Whether the line starts with the word, in any case of its letters.
pub fn starts_word(word: &[u8], line: &[u8]) -> bool
    ensures { result ≡ starts_word word.now line.now }
{
    word.len() <= line.len() && line[..word.len()].eq_ignore_ascii_case(word)
}

// Whether the line has `:`, `;` or its end at n.
fn stops_at(n: usize, line: &[u8]) -> bool
    ensures { result ≡ stops_at n line.now }
{
    let Some(&b) = line.get(n) else {
        return true;
    };
    (b == b':') | (b == b';')
}

// Whether the word, in any case, stands at the front of the line and ends there.
fn stands_alone(word: &[u8], line: &[u8]) -> bool
    ensures { result ≡ stands_alone word.now line.now }
{
    starts_word(word, line) & stops_at(word.len(), line)
}

// Whether the first byte is one that BEGIN or END may start with: where it is not, neither word need be looked for.
pub fn may_be_reserved(line: &[u8]) -> bool
    ensures { result ≡ opens_reserved (get_or line.now 0 0) }
{
    matches!(line.first(), Some(b'B' | b'b' | b'E' | b'e'))
}

// Whether BEGIN or END stands at the front of a line and ends there. BEGINNING does not count.
pub fn is_reserved(line: &[u8]) -> bool
    ensures { result ≡ reserved line.now }
{
    may_be_reserved(line) && (stands_alone(b"BEGIN", line) | stands_alone(b"END", line))
}

// How many bytes the key at the front of a line has. BEGIN and END are no key of a property.
pub fn property_key(line: &[u8]) -> Option<usize>
    ensures { result ≡ key_of line.now }
{
    if is_reserved(line) {
        return None;
    }
    Some(key_run(line))
}

// The part of a text, or the empty part at its front where start and len reach outside.
pub fn view(text: &[u8], start: usize, len: usize) -> &[u8]
    ensures bytes_value { result.now ≡ viewed text.now start len }
    ensures place_value { result.ref_ptr ≡ bytes_on (viewed_at text.now start len) text.entry.ref_ptr }
{
    let inside = start <= text.len() && len <= text.len() - start;
    if inside {
        &text[start..start + len]
    } else {
        &text[..0]
    }
}
