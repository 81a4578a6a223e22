// The parameters of a property line (RFC 5545, section 3.2): where each key and value stands, and how many bytes they take.
// Here document 01 departs from the RFC: docs/DIFFERENCES.md, R-6 to R-14.
#![tactic(auto)]

ghost use Rattle.std.specs.Prelude.{◌≡◌, ◌+◌, ◌≤◌, get_or};
ghost use Rattle.octets.specs.Bytes.{blank, bare};
ghost use Rattle.octets.specs.Runs.{run};
ghost use Rattle.parameters.specs.Values.{quoted_len, further_len, form_of, form_used, value_at, listed_all, is_list};
ghost use Rattle.parameters.specs.Parameter.{front_of};
ghost use Rattle.parameters.specs.Parameters.{passed_of};

use octets::Span;

// The forms that the value behind an `=` can have.
#[derive(Clone, Copy)]
pub enum Form {
    Nothing,
    // As many bytes without quotes around them.
    Bare(usize),
    // One quoted part, with as many bytes inside its quotes.
    Quoted(usize),
    // Two or more quoted parts: as many bytes, with their quotes and commas.
    Listed(usize),
}

// An enum and no Option: docs/SPECIFICATION.md, "The shape each place takes", fixes it.
#[derive(Clone, Copy)]
pub enum Value {
    Absent,
    Present(Span),
}

// A parameter: offsets count from its `;`, and `used` is where the next one may begin.
#[derive(Clone, Copy)]
pub struct Param {
    pub key: Span,
    pub value: Value,
    pub used: usize,
}

// How many parameters stand at the front of the rest of a line, and how many bytes they take.
#[derive(Clone, Copy)]
pub struct Passed {
    pub count: usize,
    pub used: usize,
}

// How many spaces and tabs stand at the front.
fn blank_run(a: &[u8]) -> usize
    ensures { result ≡ run blank a.now }
{
    octets::run_while(a, |x| (x == b' ') | (x == b'\t'))
}

// How many bytes stand before the first `;` or `:`, or in all.
fn bare_run(a: &[u8]) -> usize
    ensures { result ≡ run bare a.now }
{
    octets::run_while(a, |x| !((x == b';') | (x == b':')))
}

// The byte at i, or 0 past the end.
fn byte_at(a: &[u8], i: usize) -> u8
    ensures { result ≡ get_or a.now i 0 }
{
    a.get(i).copied().unwrap_or(0)
}

// The bytes of the quoted part at the front, with both quotes. No part has 0 bytes, as in the definition, which counts them.
fn quoted_len(a: &[u8]) -> usize
    ensures { result ≡ quoted_len a.now }
{
    if byte_at(a, 0) != b'"' {
        return 0;
    }
    let end = octets::find_near(a, 1, b'"');
    if end == 1 {
        return 0;
    }
    if end >= a.len() {
        return 0;
    }
    end + 1
}

// The bytes of the further parts at the front, each a comma and a quoted part.
fn further_len(a: &[u8]) -> usize
    ensures { result ≡ further_len a.now }
{
    let mut at: usize = 0;
    // An index, as each step takes a comma and a whole part.
    while byte_at(a, at) == b',' {
        let next = at + 1;
        let n = quoted_len(&a[next..]);
        if n == 0 {
            return at;
        }
        at = next + n;
    }
    at
}

// The form of the value that stands at the front.
pub fn form_of(a: &[u8]) -> Form
    ensures { result ≡ form_of a.now }
{
    let first = quoted_len(a);
    if first == 0 {
        return match bare_run(a) {
            0 => Form::Nothing,
            n => Form::Bare(n),
        };
    }
    match further_len(&a[first..]) {
        0 => Form::Quoted(first - 2),
        more => Form::Listed(first + more),
    }
}

// Whether the form is a list of two or more quoted parts that takes all of `len` bytes.
fn listed_all(form: Form, len: usize) -> bool
    ensures { result ≡ listed_all form len }
{
    matches!(form, Form::Listed(n) if n == len)
}

// Whether a value is exactly a list of two or more quoted parts.
pub fn is_list(value: &[u8]) -> bool
    ensures { result ≡ is_list value.now }
{
    listed_all(form_of(value), value.len())
}

// The bytes that a value takes, with its quotes.
fn form_used(form: Form) -> usize
    requires { form_used form ≤ 18446744073709551615 }
    ensures { result ≡ form_used form }
{
    match form {
        Form::Nothing => 0,
        Form::Bare(n) | Form::Listed(n) => n,
        Form::Quoted(n) => n + 2,
    }
}

// The value that begins at `at`: one quoted part alone gives its inside.
fn value_at(at: usize, form: Form) -> Value
    requires { at + form_used form ≤ 18446744073709551615 }
    ensures { result ≡ value_at at form }
{
    match form {
        Form::Nothing => Value::Absent,
        Form::Bare(len) | Form::Listed(len) => Value::Present(Span { start: at, len }),
        Form::Quoted(len) => Value::Present(Span { start: at + 1, len }),
    }
}

// The parameter at the front of the rest of a line, if one begins there.
pub fn parameter(rest: &[u8]) -> Option<Param>
    ensures { result ≡ front_of rest.now }
{
    if byte_at(rest, 0) != b';' {
        return None;
    }
    let start = 1 + blank_run(&rest[1..]);
    let len = octets::key_run(&rest[start..]);
    let key = Span { start, len };
    let end = start + len;
    if byte_at(rest, end) != b'=' {
        return Some(Param {
            key,
            value: Value::Absent,
            used: end,
        });
    }
    let from = end + 1;
    let form = form_of(&rest[from..]);
    Some(Param {
        key,
        value: value_at(from, form),
        used: from + form_used(form),
    })
}

// The parameters at the front of the rest of a line: reading stops at a byte that is not `;`.
pub fn parameters(rest: &[u8]) -> Passed
    ensures { result ≡ passed_of rest.now }
{
    let mut count: usize = 0;
    let mut used: usize = 0;
    // An index, as each step takes a whole parameter. Most lines have none: a look at the byte spares the call.
    while byte_at(rest, used) == b';'
        && let Some(p) = parameter(&rest[used..])
    {
        used += p.used;
        count += 1;
    }
    Passed { count, used }
}
