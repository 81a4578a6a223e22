// The listing of a feed as text: three sections of rows, or one line that says why the feed is refused.
#![tactic(auto)]

ghost use Rattle.std.specs.Prelude.{◌≡◌, ◌≤◌, ◌/◌, List, ℕ, length};
ghost use Rattle.octets.specs.Laid.{Lays};
ghost use Rattle.listing.specs.Texts.{field, digit, digits, decimal, parent_field};
ghost use Rattle.listing.specs.Lines.{Components, Properties, Parameters, listed_component, listed_property, listed_parameter, listed_rows, heading, section, refused};
ghost use Rattle.listing.specs.Listing.{HasRows, listed, listing, left_listed, listing_of};
ghost use Rattle.tables.specs.Lent.{lent};
ghost use Rattle.tables.specs.Rows.{row_at};
ghost use Rattle.reading.specs.Lent.{read_into, left};

use octets::Answer;
use reading::Reading;
use tables::{ComponentRow, ParameterRow, PropertyRow, Row};

// The most bytes of a feed that is listed.
pub const LONGEST: usize = 16_384;

// Room for the listing of any such feed.
pub const ROOM: usize = 32_768;

// The words of 128 components, 512 properties and 512 parameters.
const COMPONENTS: usize = 128 * ComponentRow::WORDS;

const PROPERTIES: usize = 512 * PropertyRow::WORDS;

const PARAMETERS: usize = 512 * ParameterRow::WORDS;

// A number of 64 bits has at most so many digits.
const PLACES: usize = 20;

// A kind of row as its section lists it: the heading, and the line of a row.
trait Listed: Row {
    ghost title: { List ℕ };

    ghost line: { List ℕ → Self → List ℕ };

    fn lay_heading(out: &mut [u8], at: usize) -> usize
        ensures { Lays at title out.old out.new result };

    fn lay(self, text: &[u8], out: &mut [u8], at: usize) -> usize
        ensures { Lays at (line text.now self) out.old out.new result };
}

// Lays the bytes and the one byte that ends them.
fn lay_field(bytes: &[u8], end: u8, out: &mut [u8], at: usize) -> usize
    ensures { Lays at (field bytes.now end) out.old out.new result }
{
    let to = octets::lay(bytes, out, at);
    octets::lay(&[end], out, to)
}

fn digit_of(n: usize) -> u8
    ensures { result ≡ digit n }
{
    b'0' + (n % 10) as u8
}

// Lays the last digits of a number, as many as there are places, without zeros in front. By hand, as a definition states the digits that lie in the buffer.
fn lay_digits(places: usize, n: usize, out: &mut [u8], at: usize) -> usize
    ensures { Lays at (digits places n) out.old out.new result }
{
    if places == 0 {
        return at;
    }
    let to = if n < 10 {
        at
    } else {
        lay_digits(places - 1, n / 10, out, at)
    };
    octets::lay(&[digit_of(n)], out, to)
}

fn lay_number(n: usize, end: u8, out: &mut [u8], at: usize) -> usize
    ensures { Lays at (field (decimal n) end) out.old out.new result }
{
    let to = lay_digits(PLACES, n, out, at);
    octets::lay(&[end], out, to)
}

fn lay_parent(parent: u32, out: &mut [u8], at: usize) -> usize
    ensures { Lays at (parent_field parent) out.old out.new result }
{
    match parent {
        tables::NO_PARENT => lay_field(b"-", b' ', out, at),
        row => lay_number(row as usize, b' ', out, at),
    }
}

impl Listed for ComponentRow {
    ghost title = { heading Components };

    ghost line = { listed_component };

    fn lay_heading(out: &mut [u8], at: usize) -> usize {
        lay_field(b"components", b' ', out, at)
    }

    fn lay(self, text: &[u8], out: &mut [u8], at: usize) -> usize {
        let name = octets::view(text, self.name_start as usize, self.name_len as usize);
        let to = lay_parent(self.parent, out, at);
        let to = lay_number(self.depth as usize, b' ', out, to);
        lay_field(name, b'\n', out, to)
    }
}

impl Listed for PropertyRow {
    ghost title = { heading Properties };

    ghost line = { listed_property };

    fn lay_heading(out: &mut [u8], at: usize) -> usize {
        lay_field(b"properties", b' ', out, at)
    }

    fn lay(self, text: &[u8], out: &mut [u8], at: usize) -> usize {
        let key = octets::view(text, self.key_start as usize, self.key_len as usize);
        let value = octets::view(text, self.value_start as usize, self.value_len as usize);
        let to = lay_number(self.owner as usize, b' ', out, at);
        let to = lay_field(key, b' ', out, to);
        lay_field(value, b'\n', out, to)
    }
}

impl Listed for ParameterRow {
    ghost title = { heading Parameters };

    ghost line = { listed_parameter };

    fn lay_heading(out: &mut [u8], at: usize) -> usize {
        lay_field(b"parameters", b' ', out, at)
    }

    fn lay(self, text: &[u8], out: &mut [u8], at: usize) -> usize {
        let key = octets::view(text, self.key_start as usize, self.key_len as usize);
        let value = octets::view(text, self.value_start as usize, self.value_len as usize);
        let to = lay_number(self.property as usize, b' ', out, at);
        if self.present == 0 {
            return lay_field(key, b'\n', out, to);
        }
        let to = lay_field(key, b'=', out, to);
        lay_field(value, b'\n', out, to)
    }
}

fn lay_rows<R: Listed>(text: &[u8], table: &[u32], count: usize, out: &mut [u8], at: usize) -> usize
    requires { count ≤ length table.now / R.WORDS }
    ensures { Lays at (listed_rows (λ n. R.line text.now (row_at R.WORDS R.from table.now n)) 0 count) out.old out.new result }
{
    let mut to = at;
    for row in 0..count {
        to = R::at(table, row).lay(text, out, to);
    }
    to
}

// Lays the rows of one table after their count.
fn lay_section<R: Listed>(
    text: &[u8],
    table: &[u32],
    count: usize,
    out: &mut [u8],
    at: usize,
) -> usize
    requires { count ≤ length table.now / R.WORDS }
    ensures { Lays at (section R.title (λ n. R.line text.now (row_at R.WORDS R.from table.now n)) count) out.old out.new result }
{
    let to = R::lay_heading(out, at);
    let to = lay_number(count, b'\n', out, to);
    lay_rows::<R>(text, table, count, out, to)
}

// Lays the one line of a refusal: the word, and the six numbers of the reading.
fn lay_refusal(r: Reading, out: &mut [u8]) -> usize
    ensures { Lays 0 (refused r) out.old out.new result }
{
    let to = lay_field(b"refused", b' ', out, 0);
    let to = lay_number(r.answer as usize, b' ', out, to);
    let to = lay_number(r.place, b' ', out, to);
    let to = lay_number(r.length, b' ', out, to);
    let to = lay_number(r.components, b' ', out, to);
    let to = lay_number(r.properties, b' ', out, to);
    lay_number(r.parameters, b'\n', out, to)
}

// Lists what a reading left: its rows, or its refusal.
fn lay_listing(
    r: Reading,
    text: &[u8],
    components: &[u32],
    properties: &[u32],
    parameters: &[u32],
    out: &mut [u8],
) -> usize
    requires { HasRows r (lent text.now components.now properties.now parameters.now) }
    ensures { Lays 0 (listed r (lent text.now components.now properties.now parameters.now)) out.old out.new result }
{
    if !r.is_done() {
        return lay_refusal(r, out);
    }
    let to = lay_section::<ComponentRow>(text, components, r.components, out, 0);
    let to = lay_section::<PropertyRow>(text, properties, r.properties, out, to);
    lay_section::<ParameterRow>(text, parameters, r.parameters, out, to)
}

// Reads a feed into the text and the tables by the two calls in turn: what measuring refuses, or what filling answers.
fn read_in_turn(
    feed: &[u8],
    text: &mut [u8],
    components: &mut [u32],
    properties: &mut [u32],
    parameters: &mut [u32],
) -> Reading
    ensures value { result ≡ read_into feed.now (lent text.old components.old properties.old parameters.old) }
    ensures lent_after { lent text.new components.new properties.new parameters.new
        ≡ left feed.now (lent text.old components.old properties.old parameters.old) }
{
    let measured = reading::measure_components(feed, text);
    if !measured.is_done() {
        return measured;
    }
    reading::fill_components(&text[..measured.length], components, properties, parameters)
}

// Lists a feed into `out` as far as it goes, and counts the listing's bytes in full. The feed is read into the text and the tables.
pub fn list(
    feed: &[u8],
    text: &mut [u8],
    components: &mut [u32],
    properties: &mut [u32],
    parameters: &mut [u32],
    out: &mut [u8],
) -> usize
    ensures lays { Lays 0 (listing feed.now (lent text.old components.old properties.old parameters.old))
        out.old out.new result }
    ensures lent_after { lent text.new components.new properties.new parameters.new
        ≡ left_listed feed.now (lent text.old components.old properties.old parameters.old) }
{
    if LONGEST < feed.len() {
        return lay_refusal(Reading::refusal(Answer::TooLong, 0, 0), out);
    }
    let r = read_in_turn(feed, text, components, properties, parameters);
    lay_listing(r, text, components, properties, parameters, out)
}

// Lists a feed in the lister's own rooms: arrays of a fixed size, as nothing here takes memory from a heap.
pub fn list_feed(feed: &[u8], out: &mut [u8]) -> usize
    ensures { Lays 0 (listing_of feed.now) out.old out.new result }
{
    let mut text = [0u8; LONGEST];
    let mut components = [0u32; COMPONENTS];
    let mut properties = [0u32; PROPERTIES];
    let mut parameters = [0u32; PARAMETERS];
    list(
        feed,
        &mut text,
        &mut components,
        &mut properties,
        &mut parameters,
        out,
    )
}
