// Quoting of a parameter value: what the writer sets in quotes, and what stays as it is.
#![tactic(auto)]

ghost use Rattle.std.specs.Prelude.{◌≡◌, length};
ghost use Rattle.octets.specs.Laid.{Lays};
ghost use Rattle.octets.specs.Runs.{only};
ghost use Rattle.quoting.specs.Quoting.{plain, enclosed, wraps, quoted};
ghost use Rattle.quoting.specs.Answers.{quote_answer, quote_out};

use octets::{Answer, Output};

// Whether no byte is `:`, `;` or `,`. The loop has no branch, so that it becomes vector code.
fn all_plain(value: &[u8]) -> bool
    ensures { result ≡ only plain value.now }
{
    let mut fine = true;
    for b in value {
        fine &= (*b != b':') & (*b != b';') & (*b != b',');
    }
    fine
}

// Whether the value starts and ends with a quote, as a lone one does. One test for both ends: a pattern for them has more branches, and is slower on short values.
fn in_quotes(value: &[u8]) -> bool
    ensures { result ≡ enclosed value.now }
{
    let [first, ..] = value else {
        return false;
    };
    (*first == b'"') & (value[value.len() - 1] == b'"')
}

// Whether the value is written in quotes of the writer's own.
pub fn wraps(value: &[u8]) -> bool
    ensures { result ≡ wraps value.now }
{
    !in_quotes(value) & !all_plain(value)
}

// Lays the value, in quotes where it wants them, over the front of the buffer, and counts its bytes.
fn lay_quoted(value: &[u8], out: &mut [u8]) -> usize
    ensures { Lays 0 (quoted value.now) out.old out.new result }
{
    if !wraps(value) {
        return octets::lay(value, out, 0);
    }
    let start = octets::lay(b"\"", out, 0);
    let end = octets::lay(value, out, start);
    octets::lay(b"\"", out, end)
}

// The value as the writer puts it, counted first and then written: a refusal changes nothing.
pub fn quote_special_chars(value: &[u8], out: &mut [u8]) -> Output
    ensures { (result ≡ quote_answer value.now (length out.old)) × (out.new ≡ quote_out value.now out.old) }
{
    if value.len() > octets::LONGEST {
        return Output::refusal(Answer::TooLong, 0);
    }
    octets::lay_if_room(|buffer| lay_quoted(value, buffer), out)
}
