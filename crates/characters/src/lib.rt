// Characters of UTF-8 (RFC 3629): how long one is by its first byte, which are well formed, and where a text may be cut.
#![tactic(auto)]

ghost use Rattle.std.specs.Prelude.{◌≡◌, ◌&&◌, ◌+◌, ◌<◌, ◌≤◌, length, get_or};
ghost use Rattle.characters.specs.Units.{tail, wanted, last_start};
ghost use Rattle.characters.specs.Utf8.{utf8_run, char_at};
ghost use Rattle.characters.specs.Quick.{asked, barred, beside, common_text};

// Whether a byte is one of those behind the first of a character.
fn is_tail(b: u8) -> bool
    ensures { result ≡ tail b }
{
    matches!(b, 0x80..=0xbf)
}

// How many tails a first byte asks for, by its leading ones: the leading zeros of its complement.
fn tails_wanted(b: u8) -> usize
    ensures { result ≡ wanted b }
{
    match (!b).leading_zeros() {
        ones @ 2..=4 => ones as usize - 1,
        _ => 0,
    }
}

// The last start of a character within so many bytes: there, or at the first byte of the character that a cut there would divide.
pub fn start_within(rest: &[u8], room: usize) -> usize
    requires { room < length rest.now }
    ensures { result ≡ last_start room rest.now }
{
    if !is_tail(rest[room]) {
        return room;
    }
    for back in 1..=room.min(3) {
        let b = rest[room - back];
        if !is_tail(b) {
            return if back <= tails_wanted(b) {
                room - back
            } else {
                room
            };
        }
    }
    room
}

// How many bytes the character at the front has: none, where it is ill-formed or cut off. Most have one, which is looked at first; of the
// others the leading ones of the first byte decide how many.
fn character_len(rest: &[u8]) -> Option<usize>
    ensures { result ≡ char_at rest.now }
{
    let [first, ..] = rest else {
        return None;
    };
    if first.is_ascii() {
        return Some(1);
    }
    match tails_wanted(*first) {
        1 => match rest {
            [0xc2..=0xdf, 0x80..=0xbf, ..] => Some(2),
            _ => None,
        },
        2 => match rest {
            [0xe0, 0xa0..=0xbf, 0x80..=0xbf, ..]
            | [0xe1..=0xec, 0x80..=0xbf, 0x80..=0xbf, ..]
            | [0xed, 0x80..=0x9f, 0x80..=0xbf, ..]
            | [0xee..=0xef, 0x80..=0xbf, 0x80..=0xbf, ..] => Some(3),
            _ => None,
        },
        3 => match rest {
            [0xf0, 0x90..=0xbf, 0x80..=0xbf, 0x80..=0xbf, ..]
            | [0xf1..=0xf3, 0x80..=0xbf, 0x80..=0xbf, 0x80..=0xbf, ..]
            | [0xf4, 0x80..=0x8f, 0x80..=0xbf, 0x80..=0xbf, ..] => Some(4),
            _ => None,
        },
        _ => None,
    }
}

// Where the first ill-formed character begins, or the end.
pub fn utf8_run(line: &[u8]) -> usize
    ensures { result ≡ utf8_run line.now }
{
    let mut rest = line;
    while let Some(n) = character_len(rest) {
        rest = &rest[n..];
    }
    line.len() - rest.len()
}

// Whether a byte has to be a tail, behind c and before that b.
fn is_asked(b: u8, c: u8) -> bool
    ensures { result ≡ asked b c }
{
    (194 <= c) | (224 <= b)
}

// The byte that does not take x as its tail: E0 or ED.
fn barred_before(x: u8) -> u8
    ensures { result ≡ barred x }
{
    if x < 160 { 224 } else { 237 }
}

// Whether a byte may stand behind c and before that b, in a text of characters of three bytes at most and without control bytes.
fn is_beside(b: u8, c: u8, x: u8) -> bool
    ensures { result ≡ beside b c x }
{
    let asked = is_asked(b, c);
    let begins = matches!(x, 32..=127) | matches!(x, 194..=239);
    ((asked & is_tail(x)) | (!asked & begins)) & (c != barred_before(x))
}

// Whether a text is seen at a look to be UTF-8 without control bytes, as most are. The loop has no branch, so that it becomes vector code.
pub fn is_common_text(line: &[u8]) -> bool
    ensures { result ≡ common_text line.now }
{
    let [first, second, ..] = line else {
        return false;
    };
    let mut fine = is_beside(0, 0, *first) & is_beside(0, *first, *second);
    for i in 2..line.len() {
        fine &= is_beside(line[i - 2], line[i - 1], line[i]);
    }
    let last = line.len() - 1;
    fine & !is_asked(line[last - 1], line[last])
}
