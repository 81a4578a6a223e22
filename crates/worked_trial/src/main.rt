// Runs the worked cases of crates/worked against the compiled code, with the same names and in the same order; those of escaped text are run by text_trial,
// and those of the twin tests by twin_trial. Each is a line of standard input: the call, the name, and what the call is given. For each it prints a line: the
// name, the numbers, and the buffers whole, or that they are as they were.
#![tactic(auto)]

use cases::fields::Case;
use cases::lent::say_output;
use std::io;

mod calls;
mod deep;

// Room for all lines.
const LINES: usize = 65_536;

// The most bytes of a feed, a line or a value, and of the buffer for an output.
const BYTES: usize = 160;

// The call on these bytes, with this buffer.
fn call(rt: &impl Print, case: Case, bytes: &[u8], out: &mut [u8]) -> io::Result<()> {
    match case.call() {
        b"read" => calls::read(rt, case, bytes, out),
        b"measure" => calls::measure(rt, bytes, out),
        b"fill" => calls::fill(rt, case, bytes),
        b"fill new" => calls::fill_new(rt, case, bytes),
        b"fold" => say_output(rt, folding::fold_line(bytes, out), out),
        b"fold strictly" => say_output(rt, folding::fold_strict(bytes, out), out),
        b"quote" => say_output(rt, quoting::quote_special_chars(bytes, out), out),
        b"write" => say_output(rt, calls::write_words(case, bytes, out), out),
        b"unfold" => calls::unfold(rt, bytes, out),
        b"view" => calls::view(rt, case, bytes),
        b"key" => calls::key(rt, bytes),
        b"parameter" => calls::parameter(rt, bytes),
        b"read deep" => deep::read(rt, case, bytes),
        b"measure deep" => deep::measure(rt, case, bytes),
        b"fill deep" => deep::fill(rt, case, bytes),
        b"write deep" => say_output(rt, deep::write(case, out), out),
        _ => print!(rt; " NO SUCH CALL"),
    }
}

fn main(rt: HostRuntime) -> io::Result<()> {
    cases::run_all::<LINES, _>(&mut rt.stdin(), |case| {
        cases::run_lent::<BYTES, _>(&rt, case, |bytes, out| call(&rt, case, bytes, out))
    })
}
