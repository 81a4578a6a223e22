// Runs the boundaries of the documents for real, each on both sides, and prints what was answered: a line for each.
#![tactic(auto)]

ghost use Rattle.std.specs.Prelude.{◌<◌};

use escapes::Mode;
use octets::Output;
use reading::Reading;
use std::io;
use tables::{ComponentRow, PropertyRow, Row};
use trial::{Numbers, OVER, read_front, read_into};

// What a call answers that is lent a buffer of so many bytes.
fn lent<const ROOM: usize, F: FnOnce(&mut [u8]) -> Output>(call: F) -> Numbers<Output>
    requires call { F.IsAlwaysCallable call }
    requires room { ROOM < 65_536 }
{
    let mut out = [0u8; ROOM];
    Numbers(call(&mut out))
}

// Fills rows for a component and a property.
fn fill_front(text: &[u8]) -> Reading {
    let mut components = [0u32; ComponentRow::WORDS];
    let mut properties = [0u32; PropertyRow::WORDS];
    reading::fill_components(text, &mut components, &mut properties, &mut [])
}

// A feed of so many bytes in one call, and in two. It has no fold, so that the text has as many.
fn longest_feed(
    rt: &impl Print,
    size: usize,
    feed: &mut [u8; OVER],
    text: &mut [u8; OVER],
) -> io::Result<()> {
    let read = trial::read_long(size, feed, text);
    println!(rt; "feed of {size} bytes:{}", Numbers(read))?;
    let measured = reading::measure_components(octets::view(feed, 0, size), text);
    println!(rt; "measuring {size} bytes:{}", Numbers(measured))?;
    let filled = fill_front(octets::view(text, 0, size));
    println!(rt; "filling from {size} bytes:{}", Numbers(filled))
}

// An array of this size is lent as a slice only by way of a function that takes the array.
fn longest_values(rt: &impl Print, value: &[u8; OVER], out: &mut [u8; OVER]) -> io::Result<()> {
    let longest = octets::view(value, 0, octets::LONGEST);
    println!(rt;
        "quoting 1048576 bytes:{}",
        Numbers(quoting::quote_special_chars(longest, out))
    )?;
    println!(rt;
        "quoting 1048577 bytes:{}",
        Numbers(quoting::quote_special_chars(value, out))
    )?;
    println!(rt;
        "folding 1048577 bytes:{}",
        Numbers(folding::fold_strict(value, out))
    )
}

// Letters stand for themselves, read and written.
fn longest_texts(rt: &impl Print, letters: &[u8; OVER], out: &mut [u8; OVER]) -> io::Result<()> {
    let longest = octets::view(letters, 0, octets::LONGEST);
    println!(rt;
        "reading text of 1048576 bytes:{}",
        Numbers(escapes::read_text(Mode::Strict, longest, out))
    )?;
    println!(rt;
        "reading text of 1048577 bytes:{}",
        Numbers(escapes::read_text(Mode::Strict, letters, out))
    )?;
    println!(rt;
        "writing text of 1048576 bytes:{}",
        Numbers(escapes::write_text(longest, out))
    )?;
    println!(rt;
        "writing text of 1048577 bytes:{}",
        Numbers(escapes::write_text(letters, out))
    )
}

// One comma more than fits into a value, with a backslash before each.
const COMMAS: usize = octets::LONGEST / 2 + 1;

fn longest_outputs(rt: &impl Print, commas: &[u8; COMMAS], out: &mut [u8; OVER]) -> io::Result<()> {
    let longest = octets::view(commas, 0, octets::LONGEST / 2);
    println!(rt;
        "writing 524288 commas:{}",
        Numbers(escapes::write_text(longest, out))
    )?;
    println!(rt;
        "writing 524289 commas:{}",
        Numbers(escapes::write_text(commas, out))
    )
}

// The last byte that is read stands behind a key that fills the feed, and is stray.
fn longest_key(rt: &impl Print, feed: &mut [u8; OVER], text: &mut [u8; OVER]) -> io::Result<()> {
    octets::put(b"BEGIN:A\n", feed);
    octets::lay(b"!", feed, octets::LONGEST - 1);
    let read = read_front(octets::view(feed, 0, octets::LONGEST), text);
    println!(rt;
        "a stray byte at the end of 1048576 bytes:{}",
        Numbers(read)
    )
}

// Two components, two properties, two parameters, and 49 bytes of unfolded text.
const SMALL: &[u8] = b"BEGIN:A\r\nK;P=1;Q:v\r\n w\r\nBEGIN:B\r\nL:x\r\nEND:B\r\nEND:A\r\n";

fn small_buffers(rt: &impl Print) -> io::Result<()> {
    println!(rt;
        "empty feed into empty buffers:{}",
        Numbers(read_into::<0, 0, 0, 0>(b""))
    )?;
    println!(rt;
        "empty lines alone:{}",
        Numbers(read_into::<5, 4, 5, 6>(b"\r\n\n\r\n"))
    )?;
    println!(rt;
        "text and tables exactly full:{}",
        Numbers(read_into::<49, 8, 10, 12>(SMALL))
    )?;
    println!(rt;
        "text one byte short:{}",
        Numbers(read_into::<48, 8, 10, 12>(SMALL))
    )?;
    println!(rt;
        "components one word short:{}",
        Numbers(read_into::<49, 7, 10, 12>(SMALL))
    )?;
    println!(rt;
        "properties one word short:{}",
        Numbers(read_into::<49, 8, 9, 12>(SMALL))
    )?;
    println!(rt;
        "parameters one word short:{}",
        Numbers(read_into::<49, 8, 10, 11>(SMALL))
    )?;
    println!(rt;
        "lengths that are no multiple of their rows:{}",
        Numbers(read_into::<49, 11, 14, 17>(SMALL))
    )
}

fn fold(rt: &impl Print) -> io::Result<()> {
    let line = [b'a'; 76];
    println!(rt;
        "folding 75 letters, exactly full:{}",
        lent::<75, _>(|out| folding::fold_strict(&line[..75], out))
    )?;
    println!(rt;
        "folding 75 letters, one short:{}",
        lent::<74, _>(|out| folding::fold_strict(&line[..75], out))
    )?;
    println!(rt;
        "folding 76 letters, exactly full:{}",
        lent::<79, _>(|out| folding::fold_strict(&line, out))
    )?;
    println!(rt;
        "folding 76 letters, one short:{}",
        lent::<78, _>(|out| folding::fold_strict(&line, out))
    )?;
    println!(rt;
        "folding 76 letters as the repository, exactly full:{}",
        lent::<79, _>(|out| folding::fold_line(&line, out))
    )?;
    println!(rt;
        "folding 76 letters as the repository, one short:{}",
        lent::<78, _>(|out| folding::fold_line(&line, out))
    )
}

fn quote(rt: &impl Print) -> io::Result<()> {
    println!(rt;
        "quoting a,b, exactly full:{}",
        lent::<5, _>(|out| quoting::quote_special_chars(b"a,b", out))
    )?;
    println!(rt;
        "quoting a,b, one short:{}",
        lent::<4, _>(|out| quoting::quote_special_chars(b"a,b", out))
    )
}

// The first line that the lister prints for so many times these words, between what stands before and behind them.
fn list_repeated(
    rt: &impl Print,
    before: &[u8],
    words: &[u8],
    times: usize,
    behind: &[u8],
) -> io::Result<()> {
    let mut feed = [0u8; 16_400];
    let opened = octets::lay(before, &mut feed, 0);
    let filled = trial::repeat(words, times, &mut feed, opened);
    let end = octets::lay(behind, &mut feed, filled);
    let mut out = [0u8; 32_768];
    let n = listing::list_feed(octets::view(&feed, 0, end), &mut out);
    let listed = octets::view(&out, 0, n);
    trial::say(
        rt,
        octets::view(listed, 0, octets::find_byte(listed, 0, b'\n')),
    )?;
    println!(rt; "")
}

fn list_bytes(rt: &impl Print) -> io::Result<()> {
    print!(rt; "listing 16384 bytes: ")?;
    list_repeated(rt, b"BEGIN:A\nK:", b"a", 16_367, b"\nEND:A\n")?;
    print!(rt; "listing 16385 bytes: ")?;
    list_repeated(rt, b"BEGIN:A\nK:", b"a", 16_368, b"\nEND:A\n")
}

fn list_rows(rt: &impl Print) -> io::Result<()> {
    for times in [128, 129] {
        print!(rt; "listing {times} components: ")?;
        list_repeated(rt, b"", b"BEGIN:A\nEND:A\n", times, b"")?;
    }
    for times in [512, 513] {
        print!(rt; "listing {times} properties: ")?;
        list_repeated(rt, b"BEGIN:A\n", b"K\n", times, b"END:A\n")?;
    }
    for times in [512, 513] {
        print!(rt; "listing {times} parameters: ")?;
        list_repeated(rt, b"BEGIN:A\nK", b";P", times, b"\nEND:A\n")?;
    }
    Ok(())
}

// The longest feed, value, text and output, and one byte more.
fn longest(rt: &impl Print) -> io::Result<()> {
    let mut feed = [b'a'; OVER];
    let mut text = [0u8; OVER];
    longest_feed(rt, octets::LONGEST, &mut feed, &mut text)?;
    longest_feed(rt, OVER, &mut feed, &mut text)?;
    let mut line = [b'a'; OVER];
    longest_values(rt, &line, &mut text)?;
    longest_texts(rt, &line, &mut text)?;
    longest_key(rt, &mut line, &mut text)?;
    longest_outputs(rt, &[b','; COMMAS], &mut text)
}

fn main(rt: HostRuntime) -> io::Result<()> {
    longest(&rt)?;
    for depth in [64, 65] {
        println!(rt; "depth {depth}:{}", Numbers(trial::read_nested(depth)))?;
    }
    small_buffers(&rt)?;
    fold(&rt)?;
    quote(&rt)?;
    list_bytes(&rt)?;
    list_rows(&rt)
}
