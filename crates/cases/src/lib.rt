// What the programs that run cases share: each case is a line of standard input, and what comes of it is a line of standard output.
#![tactic(auto)]

ghost use Rattle.std.specs.Prelude.{◌<◌};

use fields::{Case, lay_bytes};
use lent::mark_bytes;
use std::io;
use std::io::Read;

pub mod fields;
pub mod lent;

// Runs each line that has its end, as far as the input goes into so much room.
pub fn run_all<const ROOM: usize, F: FnMut(Case<'_>) -> io::Result<()>>(
    input: &mut impl Read,
    mut run: F,
) -> io::Result<()>
    requires call { F.IsAlwaysCallable run }
    requires room { ROOM < 1_048_576 }
{
    let mut lines = [0u8; ROOM];
    let n = trial::read_full(input, &mut lines)?;
    let Some(end) = octets::view(&lines, 0, n).iter().rposition(|b| *b == b'\n') else {
        return Ok(());
    };
    for line in octets::view(&lines, 0, end).split(|b| *b == b'\n') {
        run(Case(line))?;
    }
    Ok(())
}

pub fn say_name(rt: &impl Print, case: Case) -> io::Result<()> {
    trial::say(rt, case.name())?;
    print!(rt; ":")
}

// Runs a case whose third field has the bytes that the call is given, and whose fourth begins with the room of the buffer that it is lent.
pub fn run_lent<const MOST: usize, F: FnOnce(&[u8], &mut [u8]) -> io::Result<()>>(
    rt: &impl Print,
    case: Case,
    call: F,
) -> io::Result<()>
    requires call { F.IsAlwaysCallable call }
    requires room { MOST < 1_048_576 }
{
    let mut bytes = [0u8; MOST];
    let n = lay_bytes(case.field(2), &mut bytes);
    let mut out = [0u8; MOST];
    mark_bytes(&mut out);
    say_name(rt, case)?;
    call(
        octets::view(&bytes, 0, n),
        lent::front_mut(&mut out, case.number(3, 0)),
    )?;
    println!(rt; "")
}
