// Runs the examples of documents 01 and 02 that are run and not proved, and prints what came out.
#![tactic(auto)]

use octets::Output;
use std::io;
use trial::{Numbers, say};

// "75 letters fold to one line": what was folded stands between the bars.
fn fold_75<F: FnOnce(&[u8], &mut [u8]) -> Output>(
    rt: &impl Print,
    way: &str,
    fold: F,
) -> io::Result<()>
    requires { F.IsAlwaysCallable fold }
{
    let mut out = [0u8; 80];
    let folded = fold(&[b'a'; 75], &mut out);
    print!(rt; "75 letters, {way}, answer {}: |", folded.answer)?;
    say(rt, octets::view(&out, 0, folded.length))?;
    println!(rt; "|")
}

fn list(rt: &impl Print, feed: &[u8]) -> io::Result<()> {
    let mut out = [0u8; 256];
    let n = listing::list_feed(feed, &mut out);
    say(rt, octets::view(&out, 0, n))
}

// The input that document 01 gives for the lister, with the listing that it gives for it.
fn list_example(rt: &impl Print) -> io::Result<()> {
    println!(rt; "the listing:")?;
    list(
        rt,
        b"BEGIN:VEVENT\r\nUID:7\r\nATTENDEE;CN=\"A:B\";RSVP:mailto:x\r\nEND:VEVENT\r\n",
    )
}

// "Split BadLine into an empty key, a reserved key, and a stray byte after key or parameters."
fn list_refused(rt: &impl Print) -> io::Result<()> {
    println!(rt; "an empty key:")?;
    list(rt, b"BEGIN:A\n:v\nEND:A\n")?;
    list(rt, b"BEGIN:A\n\n  K:v\nEND:A\n")?;
    println!(rt; "a reserved key:")?;
    list(rt, b"BEGIN:A\nBEGIN;X=1:v\nEND:A\n")?;
    list(rt, b"BEGIN:A\nend\nEND:A\n")?;
    println!(rt; "a stray byte:")?;
    list(rt, b"BEGIN:A\nBEGIN x\nEND:A\n")?;
    list(rt, b"BEGIN:A\nEND\r")?;
    list(rt, b"BEGIN:A\nKEY foo:bar\nEND:A\n")?;
    list(rt, b"BEGIN:A\nK;A=\"a\"b:v\nEND:A\n")?;
    list(rt, b"BEGIN:A\nK;A=\"x\",y:v\nEND:A\n")
}

fn main(rt: HostRuntime) -> io::Result<()> {
    fold_75(&rt, "strict", folding::fold_strict)?;
    fold_75(&rt, "repository", folding::fold_line)?;
    // "depth 64 is read, 65 refused"
    for depth in [64, 65] {
        println!(rt; "depth {depth}:{}", Numbers(trial::read_nested(depth)))?;
    }
    // "1,048,576 bytes are read, one more refused"
    let mut feed = [b'a'; trial::OVER];
    let mut text = [0u8; trial::OVER];
    for size in [octets::LONGEST, trial::OVER] {
        let read = trial::read_long(size, &mut feed, &mut text);
        println!(rt; "{size} bytes:{}", Numbers(read))?;
    }
    list_example(&rt)?;
    list_refused(&rt)
}
