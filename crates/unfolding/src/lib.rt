// Unfolding of the lines of a calendar feed (RFC 5545, section 3.1), over the bytes as they came.
// Here document 01 departs from the RFC: docs/DIFFERENCES.md, R-3.
#![tactic(auto)]

ghost use Rattle.std.specs.Prelude.{◌≡◌, ◌+◌, ◌≤◌, ◌<◌, length, drop, ltb};
ghost use Rattle.unfolding.specs.Folds.{is_fold, to_fold};
ghost use Rattle.unfolding.specs.Parts.{Stays, Unfolding};

// A run of bytes that stay ends at `end`, and all up to `next` goes.
#[derive(Clone, Copy)]
struct Piece {
    end: usize,
    next: usize,
}

// Whether the bytes are an LF and a blank.
fn is_fold(b: u8, behind: u8) -> bool
    ensures { result ≡ is_fold b behind }
{
    (b == b'\n') & ((behind == b' ') | (behind == b'\t'))
}

// Whether a fold stands at one of the 64 bytes from `at` on. The loop has no branch, so that it becomes vector code.
fn any_fold_of_64(feed: &[u8], at: usize) -> bool
    requires { at + 65 ≤ length feed.now }
    ensures { result ≡ ltb (to_fold (drop at feed.now)) 64 }
{
    // Most of a long line holds no LF at all, which takes half as long to see.
    if !octets::any_of_64(feed, at, b'\n') {
        return false;
    }
    let mut hit: u8 = 0;
    for j in 0..64 {
        hit |= u8::from(is_fold(feed[at + j], feed[at + j + 1]));
    }
    hit != 0
}

// Passes over blocks that hold no fold: lines that are not folded are many.
fn skip_blocks(feed: &[u8], from: usize) -> usize
    requires { from ≤ length feed.now }
    ensures { (result ≤ length feed.now) × (result + to_fold (drop result feed.now) ≡ from + to_fold (drop from feed.now)) }
{
    // An index, as each step takes 64 bytes.
    let mut i = from;
    while 64 < feed.len() - i && !any_fold_of_64(feed, i) {
        i += 64;
    }
    i
}

// The place of the first fold from `from` on, or the end.
fn next_fold(feed: &[u8], from: usize) -> usize
    requires { from < length feed.now }
    ensures { result ≡ from + to_fold (drop from feed.now) }
{
    let last = feed.len() - 1;
    // An index, as each step takes a whole line.
    let mut i = skip_blocks(feed, from);
    while i < last {
        let end = octets::find_near(feed, i, b'\n');
        if last <= end {
            return feed.len();
        }
        if is_fold(feed[end], feed[end + 1]) {
            return end;
        }
        i = end + 1;
    }
    feed.len()
}

// The piece at i: up to the next fold, without a CR directly before it. What goes is the break and one blank.
fn piece_at(feed: &[u8], i: usize) -> Piece
    requires { i < length feed.now }
    ensures { Stays feed.now i result }
{
    let fold = next_fold(feed, i);
    if fold == feed.len() {
        return Piece {
            end: fold,
            next: fold,
        };
    }
    let next = fold + 2;
    if i < fold && feed[fold - 1] == b'\r' {
        return Piece {
            end: fold - 1,
            next,
        };
    }
    Piece { end: fold, next }
}

// Lays the unfolded feed over the front of text, as far as it goes, and returns its whole length.
pub fn unfold_into(feed: &[u8], text: &mut [u8]) -> usize
    ensures { Unfolding feed.now text.old text.new result }
{
    let mut n: usize = 0;
    // An index, as each step takes a piece.
    let mut i: usize = 0;
    while i < feed.len() {
        let piece = piece_at(feed, i);
        n = octets::lay(&feed[i..piece.end], text, n);
        i = piece.next;
    }
    n
}
