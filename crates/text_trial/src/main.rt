// Runs the worked cases of escaped text, crates/worked/specs/Texts.antt, against the compiled code, with the same names and in the same order. Each is a line
// of standard input: the call, the name, the bytes, and the room of the buffer. For each it prints a line: the name, the three numbers, and the buffer whole,
// or that it is as it was.
#![tactic(auto)]

use cases::fields::Case;
use cases::lent::say_output;
use escapes::Mode;
use std::io;

// Room for all lines.
const LINES: usize = 16_384;

// The most bytes of a value or a text, and of the buffer for an output.
const BYTES: usize = 80;

// The call on these bytes, with this buffer. Without a word more it is the second mode that reads.
fn call(rt: &impl Print, case: Case, bytes: &[u8], out: &mut [u8]) -> io::Result<()> {
    let answered = match case.call() {
        b"read text strictly" => escapes::read_text(Mode::Strict, bytes, out),
        b"read text" => escapes::read_text(Mode::Repository, bytes, out),
        b"write text" => escapes::write_text(bytes, out),
        _ => return print!(rt; " NO SUCH CALL"),
    };
    say_output(rt, answered, out)
}

fn main(rt: HostRuntime) -> io::Result<()> {
    cases::run_all::<LINES, _>(&mut rt.stdin(), |case| {
        cases::run_lent::<BYTES, _>(&rt, case, |bytes, out| call(&rt, case, bytes, out))
    })
}
