// Eight bytes as one number, so that one question is asked of all of them at once.
ghost use Rattle.std.specs.Prelude.{◌≡◌, ◌+◌, ◌/◌, ◌≤◌, length};
ghost use Rattle.std.specs.Int.Count.{count_trailing_zeros};
ghost use Rattle.octets.specs.Bytes.{capital, common, other};
ghost use Rattle.octets.specs.Numbers.{number, marks, eight};
ghost use Rattle.octets.specs.Words.{same_bytes};

// 1 in each byte, the lower seven bits of each, and the top bit of each.
const ONES: u64 = 0x0101_0101_0101_0101;

const LOW: u64 = 0x7f7f_7f7f_7f7f_7f7f;

const HIGH: u64 = 0x8080_8080_8080_8080;
// What lifts an A, and what lifts the letter behind Z, to the top bit.
const FROM_A: u64 = 0x3f3f_3f3f_3f3f_3f3f;

const PAST_Z: u64 = 0x2525_2525_2525_2525;
// What lifts a space there.
const FROM_SPACE: u64 = 0x6060_6060_6060_6060;

// The bytes from `at` on, the first one lowest. A place in a slice, here and below, and no array of eight, which would have to be copied out first.
fn number_at(a: &[u8], at: usize) -> u64
    requires { at + 8 ≤ length a.now }
    ensures { result ≡ number (eight a.now at) }
{
    u64::from_le_bytes([
        a[at],
        a[at + 1],
        a[at + 2],
        a[at + 3],
        a[at + 4],
        a[at + 5],
        a[at + 6],
        a[at + 7],
    ])
}

// Whether the 8 bytes from `at` on are the same in both.
pub fn same(a: &[u8], b: &[u8], at: usize) -> bool
    requires { (at + 8 ≤ length a.now) × (at + 8 ≤ length b.now) }
    ensures { result ≡ same_bytes (eight a.now at) (eight b.now at) }
{
    number_at(a, at) == number_at(b, at)
}

// Marks each of the 8 bytes from `at` on that is b.
pub fn marks_of(a: &[u8], at: usize, b: u8) -> u64
    requires { at + 8 ≤ length a.now }
    ensures { result ≡ marks (other b) (eight a.now at) }
{
    // A byte that is b becomes 0. Every other one has the top bit in the sum or had it before.
    let differ = number_at(a, at) ^ (ONES * u64::from(b));
    ((((differ & LOW) + LOW) | differ) & HIGH) ^ HIGH
}

// Marks each of the 8 bytes from `at` on that is no capital letter.
pub fn marks_of_others(a: &[u8], at: usize) -> u64
    requires { at + 8 ≤ length a.now }
    ensures { result ≡ marks capital (eight a.now at) }
{
    // One sum has the top bit from A on, the other one past Z: a capital letter has it in one of them.
    let bytes = number_at(a, at);
    let low = bytes & LOW;
    let capitals = (low + FROM_A) ^ (low + PAST_Z);
    ((capitals ^ HIGH) | bytes) & HIGH
}

// Marks each of the 8 bytes from `at` on that stands before the space or is 128 or more.
pub fn marks_of_uncommon(a: &[u8], at: usize) -> u64
    requires { at + 8 ≤ length a.now }
    ensures { result ≡ marks common (eight a.now at) }
{
    let bytes = number_at(a, at);
    let low = bytes & LOW;
    let behind = (low + FROM_SPACE) ^ low;
    ((behind ^ HIGH) | bytes) & HIGH
}

// How many bytes stand before the first mark.
pub fn first_mark(marked: u64) -> usize
    ensures { result ≡ count_trailing_zeros 64 marked / 8 }
{
    (marked.trailing_zeros() / 8) as usize
}
