// Lists calendars in the shapes that common programs export, each after its name.
#![tactic(auto)]

use std::io::Read;
use std::rt::Files;
use std::{fs, io};
use trial::{read_full, say};

// Lists a file, which is shorter than a feed that is listed.
fn list_open(rt: &impl Print, file: &mut impl Read) -> io::Result<()> {
    let mut feed = [0u8; listing::LONGEST + 1];
    let n = read_full(file, &mut feed)?;
    let mut out = [0u8; listing::ROOM];
    let listed = listing::list_feed(octets::view(&feed, 0, n), &mut out);
    say(rt, octets::view(&out, 0, listed))
}

// Lists the file of this name. One that cannot be opened is told on standard error, and the next ones are listed all the same.
fn list_file(rt: &(impl Files + Print + Eprint), name: &str) -> io::Result<()> {
    println!(rt; "{name}")?;
    match fs::open(rt, name) {
        Ok(mut file) => list_open(rt, &mut file),
        Err(e) => eprintln!(rt; "{name}: {e}"),
    }
}

// One for each program.
const NAMES: [&str; 6] = [
    "booking.ics",
    "outlook.ics",
    "google.ics",
    "apple.ics",
    "thunderbird.ics",
    "relayed.ics",
];

fn main(rt: HostRuntime) -> io::Result<()> {
    for name in NAMES {
        list_file(&rt, name)?;
    }
    Ok(())
}
