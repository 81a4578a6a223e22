// The writer: tables that meet the two rules, as the bytes of a calendar.
#![tactic(auto)]

ghost use Rattle.std.specs.Prelude.{◌≡◌, true, ◌++◌, ◌+◌, ◌≤◌, ◌<◌, ◌/◌, length, MatchResult};
ghost use Rattle.octets.specs.Bytes.{ascii};
ghost use Rattle.octets.specs.Runs.{only};
ghost use Rattle.octets.specs.Laid.{counted, Lays};
ghost use Rattle.octets.specs.Answers.{out_after};
ghost use Rattle.tables.specs.Rows.{property_size};
ghost use Rattle.tables.specs.Fronts.{front};
ghost use Rattle.tables.specs.Lent.{held, lent, components_in, properties_in, parameters_in, name_in};
ghost use Rattle.walking.specs.Walk.{held_before};
ghost use Rattle.walking.specs.Totals.{total};
ghost use Rattle.walking.specs.Places.{Owns, Arrived};
ghost use Rattle.printing.specs.Lines.{closed_line, end_line};
ghost use Rattle.printing.specs.Pens.{behind, printed_line};
ghost use Rattle.writing.specs.Answers.{by_length, written_in, write_answer, write_out, Judged, Refused};
ghost use Rattle.writing.specs.Places.{WroteHead, Wrote, line_in, lines_in};
ghost use Rattle.writing.specs.Lengths.{marks_length, line_length};

use checking::Checked;
use octets::{Answer, Output};
use printing::{Line, Printed};
use tables::{ComponentRow, PropertyRow, Row, Tables};
use walking::{Cursor, Walk, Window};

// Where the writer stands: the component row that comes next, where the output goes on, and how far the walk has come.
#[derive(Clone, Copy)]
pub struct Place {
    pub row: usize,
    pub at: usize,
    pub cursor: Cursor,
}

impl Place {
    const START: Place = Place {
        row: 0,
        at: 0,
        cursor: Cursor::START,
    };
}

// A component whose BEGIN and properties are written: where its children begin, and the row behind its subtree.
#[derive(Clone, Copy)]
pub struct Head {
    pub children: Place,
    pub end: usize,
}

// The name of a component.
fn name_of<'a>(tables: &Tables<'a>, row: usize) -> &'a [u8]
    requires { row < length (components_in (held tables.now).components) }
    ensures { result.now ≡ name_in (held tables.now).text (components_in (held tables.now).components) row }
{
    let c = ComponentRow::at(tables.components, row);
    octets::view(tables.text, c.name_start as usize, c.name_len as usize)
}

// Lays the line that opens or closes a component over the front of what is left of the output.
fn write_mark(mark: &[u8], name: &[u8], out: &mut [u8], at: usize) -> usize
    requires { only ascii mark.now ≡ true }
    ensures { Lays at (closed_line (mark.now ++ name.now)) out.old out.new result }
{
    let from = at.min(out.len());
    let length = printing::print_mark(mark, name, &mut out[from..]);
    at.saturating_add(length)
}

// The line of a property, with its parameters; no parameter before `passed` is its own.
fn line_at<'a>(walk: &'a Walk<'a>, number: usize, passed: usize) -> Line<'a>
    requires there { number < length (held walk.now.tables).properties / property_size }
    requires before { passed ≤ front (held_before number) (parameters_in (held walk.now.tables).parameters) }
    ensures value { printed_line result ≡ line_in (held walk.now.tables) number }
    ensures next_bound { behind result ≤ front (held_before (number + 1)) (parameters_in (held walk.now.tables).parameters) }
{
    let tables = &walk.tables;
    Line {
        tables,
        row: PropertyRow::at(tables.properties, number),
        number,
        first: walking::first_held(tables.parameters, passed, number),
    }
}

// Lays the line of a property behind what is printed, over the front of what is left of the output.
fn write_property(line: &Line, printed: Printed, out: &mut [u8]) -> Printed
    ensures lays { Lays printed.length (printed_line line.now) out.old out.new result.length }
    ensures next_value { result.next ≡ behind line.now }
{
    let from = printed.length.min(out.len());
    let own = printing::print_property(line, &mut out[from..]);
    Printed {
        length: printed.length.saturating_add(own.length),
        next: own.next,
    }
}

// Lays the lines of the properties of a component, all of which stand in its window.
fn write_properties(walk: &Walk, row: usize, window: Window, out: &mut [u8], at: usize) -> usize
    requires { Owns (properties_in (held walk.now.tables).properties) (parameters_in (held walk.now.tables).parameters) row window }
    ensures { Lays at (lines_in (held walk.now.tables) row) out.old out.new result }
{
    let mut printed = Printed {
        length: at,
        next: window.parameter,
    };
    for number in window.first..window.last {
        if PropertyRow::at(walk.tables.properties, number).owner as usize == row {
            printed = write_property(&line_at(&*walk, number, printed.next), printed, out);
        }
    }
    printed.length
}

// Lays the line BEGIN and the properties of a component; its children come behind them.
fn write_head(walk: &Walk, place: Place, out: &mut [u8]) -> Head
    requires { Arrived (held walk.now.tables) place.row place.cursor }
    ensures { WroteHead (held walk.now.tables) place out.old out.new result }
{
    let row = place.row;
    let name = name_of(&walk.tables, row);
    let opened = write_mark(b"BEGIN:", name, out, place.at);
    let window = walk.window(row, place.cursor);
    let listed = write_properties(walk, row, window, out, opened);
    Head {
        children: Place {
            row: row + 1,
            at: listed,
            cursor: window.cursor,
        },
        end: window.end,
    }
}

// Lays the line END of a component.
fn write_end(tables: &Tables, row: usize, out: &mut [u8], at: usize) -> usize
    requires { row < length (components_in (held tables.now).components) }
    ensures { Lays at (closed_line (end_line (name_in (held tables.now).text (components_in (held tables.now).components) row))) out.old out.new result }
{
    write_mark(b"END:", name_of(tables, row), out, at)
}

// Lays the lines of a component: BEGIN, its properties, its children inside it, END. So many levels of children may follow.
fn write_component(walk: &Walk, level: usize, place: Place, out: &mut [u8]) -> Place
    requires { Arrived (held walk.now.tables) place.row place.cursor }
    ensures { Wrote (held walk.now.tables) level place out.old out.new result }
{
    let head = write_head(walk, place, out);
    let last = walking::children_end(level, place.row + 1, head.end);
    let mut child = head.children;
    // Each child ends where its subtree does, so the rows are not counted one by one.
    while child.row < last {
        child = write_component(walk, level - 1, child, out);
    }
    Place {
        row: head.end,
        at: write_end(&walk.tables, place.row, out, child.at),
        cursor: child.cursor,
    }
}

// Lays the trees of whole tables, one after the other.
fn write_trees(walk: &Walk, out: &mut [u8]) -> usize
    ensures { Lays 0 (written_in (held walk.now.tables)) out.old out.new result }
{
    let rows = ComponentRow::count(walk.tables.components);
    let mut place = Place::START;
    // Each tree ends where its subtree does, so the rows are not counted one by one.
    while place.row < rows {
        place = write_component(walk, octets::DEEPEST - 1, place, out);
    }
    place.at
}

// Counts the lines BEGIN and END of all components.
fn count_marks(tables: &Tables) -> usize
    ensures { result ≡ counted (total (marks_length (held tables.now)) 0 (length (components_in (held tables.now).components))) }
{
    let mut at: usize = 0;
    for row in 0..ComponentRow::count(tables.components) {
        let name = name_of(tables, row);
        at = at.saturating_add(printing::count_marks(name));
    }
    at
}

// Counts the lines of all properties on from `at`.
fn count_lines(walk: &Walk, at: usize) -> usize
    ensures { result ≡ counted (at + total (line_length (held walk.now.tables)) 0 (length (properties_in (held walk.now.tables).properties))) }
{
    let mut printed = Printed {
        length: at,
        next: 0,
    };
    for number in 0..PropertyRow::count(walk.tables.properties) {
        let own = printing::count_property(&line_at(&*walk, number, printed.next));
        printed = Printed {
            length: printed.length.saturating_add(own.length),
            next: own.next,
        };
    }
    printed.length
}

// How long the trees of tables are: each row has its lines in one of them, so no tree is walked.
fn count_rows(checked: &Checked) -> usize
    ensures { result ≡ counted (length (written_in (held checked.now.tables))) }
{
    let marks = count_marks(&checked.tables);
    count_lines(&Walk::new(checked), marks)
}

// Counts the trees of tables that meet both rules and then writes them: a refusal changes nothing.
fn write_fitting(checked: &Checked, out: &mut [u8]) -> Output
    ensures value { result ≡ by_length (length (written_in (held checked.now.tables))) (length out.old) }
    ensures out_after { out.new ≡ out_after result (written_in (held checked.now.tables)) out.old }
{
    let needed = count_rows(checked);
    if octets::LONGEST < needed {
        return Output::refusal(Answer::TooLong, 0);
    }
    let answer = octets::room_for(needed, out.len());
    if !answer.is_done() {
        return answer;
    }
    write_trees(&Walk::new(checked).with_order(), out);
    answer
}

// The tables, if they meet both rules, or else the first reason why not.
fn judge<'a>(tables: &Tables<'a>) -> Result<Checked<'a>, Output>
    ensures { MatchResult result (λ checked. Judged tables.now checked.tables) (λ refusal. Refused (held tables.now) refusal) }
{
    let checked = checking::check(tables).map_err(|row| Output::refusal(Answer::BadTable, row))?;
    writable::judge(tables)?;
    Ok(checked)
}

// The tables as a calendar, or the first reason why they cannot be written.
pub fn write_components(
    text: &[u8],
    components: &[u32],
    properties: &[u32],
    parameters: &[u32],
    out: &mut [u8],
) -> Output
    ensures value { result ≡ write_answer (lent text.now components.now properties.now parameters.now) (length out.old) }
    ensures out_after { out.new ≡ write_out (lent text.now components.now properties.now parameters.now) out.old }
{
    let tables = Tables {
        text,
        components,
        properties,
        parameters,
    };
    match judge(&tables) {
        Ok(checked) => write_fitting(&checked, out),
        Err(refusal) => refusal,
    }
}
