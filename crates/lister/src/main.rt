// Prints the listing of the feed on standard input: three sections of rows, or one line that says why it is refused.
#![tactic(auto)]

use std::io;

// A listing always fits, so that what is printed is all of it.
fn print_listing(rt: &(impl Print + Eprint), feed: &[u8]) -> io::Result<()> {
    let mut out = [0u8; listing::ROOM];
    let n = listing::list_feed(feed, &mut out);
    if rt.write_all(&out[0..n]).is_err() {
        return eprintln!(rt; "lister: standard output could not be written");
    }
    Ok(())
}

fn main(rt: HostRuntime) -> io::Result<()> {
    // One byte more than is listed shows that there is more.
    let mut feed = [0u8; listing::LONGEST + 1];
    let input = trial::read_full(&mut rt.stdin(), &mut feed);
    if let Ok(n) = input {
        print_listing(&rt, octets::view(&feed, 0, n))
    } else {
        eprintln!(rt; "lister: standard input could not be read")
    }
}
