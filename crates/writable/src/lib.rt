// The writing rule as a test: which row of three tables is the first that cannot be written.
#![tactic(auto)]

ghost use Rattle.std.specs.Prelude.{◌≡◌, true, ℕ, List, Result, ◌||◌, ◌+◌, ◌/◌, ◌≤◌, length};
ghost use Rattle.octets.specs.Bytes.{quote, key_byte, other};
ghost use Rattle.octets.specs.Runs.{only};
ghost use Rattle.octets.specs.Answers.{output};
ghost use Rattle.parameters.specs.Values.{is_list};
ghost use Rattle.characters.specs.Utf8.{is_utf8};
ghost use Rattle.tables.specs.Rows.{row_at, rows_of};
ghost use Rattle.tables.specs.Lent.{held};
ghost use Rattle.writable.specs.WritingRule.{name_fits, key_fits, no_break, present_fits, verdict, component_verdict, property_verdict, parameter_verdict, judged_from, judged_in, number_of};
ghost use Rattle.writable.specs.declared.Fault.{Fault};
ghost use Rattle.writable.specs.Views.{bytes_of};

use octets::{Answer, Capital, Class, Common, Output};
use tables::{ComponentRow, ParameterRow, PropertyRow, Row, Tables};

// Why a row cannot be written.
#[derive(Clone, Copy)]
pub enum Fault {
    Unwritable,
    NotUtf8,
}

// The first row that cannot be written, and why.
#[derive(Clone, Copy)]
pub struct Unfit {
    pub row: usize,
    pub fault: Fault,
}

// The writer refuses with the number of the fault, at the row.
impl From<Unfit> for Output {
    ghost from_gives = { λ unfit told. told ≡ output (number_of unfit.fault) unfit.row 0 };

    fn from(unfit: Unfit) -> Output {
        let answer = match unfit.fault {
            Fault::Unwritable => Answer::Unwritable,
            Fault::NotUtf8 => Answer::NotUtf8,
        };
        Output::refusal(answer, unfit.row)
    }
}

// A part of the text, as a row names it.
#[derive(Clone, Copy)]
struct View<'a> {
    text: &'a [u8],
    start: u32,
    len: u32,
}

impl<'a> View<'a> {
    fn bytes(&self) -> &'a [u8]
        ensures { result.now ≡ bytes_of self.now }
    {
        octets::view(self.text, self.start as usize, self.len as usize)
    }

    // Whether all bytes are seen at a look to be of a class, as those of most names, keys and values are.
    fn is_seen<C: Class>(&self) -> bool
        ensures { result ≡ true → only C.has (bytes_of self.now) ≡ true }
    {
        if !octets::eight_behind(self.text, self.start, self.len) {
            return false;
        }
        octets::all_of::<C>(self.text, self.start as usize, self.len as usize)
    }

    // Whether all of it are key bytes.
    fn of_key_bytes(&self) -> bool
        ensures { result ≡ only key_byte (bytes_of self.now) }
    {
        if self.is_seen::<Capital>() {
            return true;
        }
        let key = self.bytes();
        key.len() <= octets::key_run(key)
    }

    // Whether a component may have this name.
    fn name_fits(&self) -> bool
        ensures { result ≡ name_fits (bytes_of self.now) }
    {
        (0 < self.bytes().len()) & self.of_key_bytes()
    }

    // Whether a property may have this key: all of it is read as one.
    fn key_fits(&self) -> bool
        ensures { result ≡ key_fits (bytes_of self.now) }
    {
        if octets::is_reserved(self.bytes()) {
            return false;
        }
        self.name_fits()
    }

    // What a value makes of its row. What is wrong is looked for only where something is.
    fn value_verdict(&self) -> Result<(), Fault>
        ensures { result ≡ verdict (only no_break (bytes_of self.now)) (is_utf8 (bytes_of self.now)) }
    {
        if self.is_seen::<Common>() {
            return Ok(());
        }
        let value = self.bytes();
        if characters::is_common_text(value) {
            return Ok(());
        }
        if !(lacks(value, b'\r') & lacks(value, b'\n')) {
            return Err(Fault::Unwritable);
        }
        if characters::utf8_run(value) < value.len() {
            return Err(Fault::NotUtf8);
        }
        Ok(())
    }

    // What the value of a parameter, which is present, makes of its row.
    fn present_verdict(&self) -> Result<(), Fault>
        ensures { result ≡ verdict (present_fits (bytes_of self.now)) (is_utf8 (bytes_of self.now)) }
    {
        let value = self.bytes();
        if value.len() == 0 {
            return Err(Fault::Unwritable);
        }
        if !quotes_fit(value) {
            return Err(Fault::Unwritable);
        }
        self.value_verdict()
    }
}

// Whether no byte of the value is b.
fn lacks(value: &[u8], b: u8) -> bool
    ensures { result ≡ only (other b) value.now }
{
    value.len() <= octets::find_near(value, 0, b)
}

// Whether a value has no quote, or is a list of two or more quoted parts.
fn quotes_fit(value: &[u8]) -> bool
    ensures { result ≡ only (other quote) value.now || is_list value.now }
{
    if lacks(value, b'"') {
        return true;
    }
    parameters::is_list(value)
}

// A row of one of the three tables, as the writing rule judges it.
trait Writable: Row {
    ghost verdict_of: { List ℕ → Self → Result (Unit {0}) Fault };

    fn verdict(&self, text: &[u8]) -> Result<(), Fault>
        ensures { result ≡ verdict_of text.now self.now };
}

impl Writable for ComponentRow {
    ghost verdict_of = { component_verdict };

    fn verdict(&self, text: &[u8]) -> Result<(), Fault> {
        let name = View {
            text,
            start: self.name_start,
            len: self.name_len,
        };
        if name.name_fits() {
            return Ok(());
        }
        Err(Fault::Unwritable)
    }
}

impl Writable for PropertyRow {
    ghost verdict_of = { property_verdict };

    fn verdict(&self, text: &[u8]) -> Result<(), Fault> {
        let key = View {
            text,
            start: self.key_start,
            len: self.key_len,
        };
        if !key.key_fits() {
            return Err(Fault::Unwritable);
        }
        let value = View {
            text,
            start: self.value_start,
            len: self.value_len,
        };
        value.value_verdict()
    }
}

impl Writable for ParameterRow {
    ghost verdict_of = { parameter_verdict };

    fn verdict(&self, text: &[u8]) -> Result<(), Fault> {
        let key = View {
            text,
            start: self.key_start,
            len: self.key_len,
        };
        if !key.of_key_bytes() {
            return Err(Fault::Unwritable);
        }
        if self.present == 0 {
            return Ok(());
        }
        let value = View {
            text,
            start: self.value_start,
            len: self.value_len,
        };
        value.present_verdict()
    }
}

// The first row of a table that cannot be written; its rows are numbered from `first` on.
fn judge_rows<R: Writable>(text: &[u8], table: &[u32], first: usize) -> Result<(), Unfit>
    requires { first + length table.now / R.WORDS ≤ 18446744073709551615 }
    ensures { result ≡ judged_from (R.verdict_of text.now) first (rows_of R.WORDS (row_at R.WORDS R.from) table.now) (Ok tt) }
{
    for i in 0..R::count(table) {
        if let Err(fault) = R::at(table, i).verdict(text) {
            return Err(Unfit {
                row: first + i,
                fault,
            });
        }
    }
    Ok(())
}

// The first row, numbered through the three tables, that breaks the writing rule or has a value to write that is not UTF-8.
pub fn judge(tables: &Tables) -> Result<(), Unfit>
    ensures { result ≡ judged_in (held tables.now) }
{
    judge_rows::<ComponentRow>(tables.text, tables.components, 0)?;
    let first = ComponentRow::count(tables.components);
    judge_rows::<PropertyRow>(tables.text, tables.properties, first)?;
    let first = first + PropertyRow::count(tables.properties);
    judge_rows::<ParameterRow>(tables.text, tables.parameters, first)
}
