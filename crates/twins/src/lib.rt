// The twin test: whether two component rows stand for the same tree, and the looser one, which compares values as texts.
#![tactic(auto)]

ghost use Rattle.std.specs.Prelude.{◌≡◌, Bool, ℕ, true, false, List, ◌≤◌, ◌<◌, length};
ghost use Rattle.tables.specs.Rows.{property_size, property_at};
ghost use Rattle.tables.specs.Lent.{lent, held, components_in, properties_in, parameters_in};
ghost use Rattle.tables.specs.Trees.{properties_of};
ghost use Rattle.tables.specs.declared.ParameterRow.{ParameterRow};
ghost use Rattle.walking.specs.Walk.{owned_by, stands, window_first, Reached, Holds};
ghost use Rattle.walking.specs.Places.{Arrived};
ghost use Rattle.comparing.specs.Pieces.{same_parameters};
ghost use Rattle.matching.specs.Alike.{alike, same_property_by};
ghost use Rattle.twins.specs.Answers.{told, rows_alike_by, compared_by, twins_answer, loose_twins_answer};
ghost use Rattle.twins.specs.Matched.{at_row, start_at, spot_in, Headed, Matched};

use matching::{AsText, Exact, Side, Values};
use octets::Answer;
use tables::{ComponentRow, PropertyRow, Row, Tables};
use walking::{Cursor, Walk, Window};

// The answer, the place, and 1 for twins: three numbers, as docs/SPECIFICATION.md and callers in C have them.
#[derive(Clone, Copy)]
pub struct Compared {
    pub answer: u32,
    pub place: usize,
    pub twins: u32,
}

// Whether two rows are alike, or the number that is refused.
impl From<Result<bool, usize>> for Compared {
    ghost from_gives = { λ found answer. answer ≡ told found };

    fn from(found: Result<bool, usize>) -> Compared {
        match found {
            Ok(alike) => Compared {
                answer: Answer::Done.number(),
                place: 0,
                twins: u32::from(alike),
            },
            Err(number) => Compared {
                answer: Answer::BadTable.number(),
                place: number,
                twins: 0,
            },
        }
    }
}

// A component row, and how far a walk that has come to it is in the two other tables.
#[derive(Clone, Copy)]
pub struct Spot {
    pub row: usize,
    pub cursor: Cursor,
}

impl Spot {
    // A row that a walk begins at.
    pub fn start(row: usize) -> Spot
        ensures { result ≡ start_at row }
    {
        Spot {
            row,
            cursor: Cursor::START,
        }
    }

    // A walk that is as far, at another row.
    fn moved(self, row: usize) -> Spot
        ensures { result ≡ at_row row self }
    {
        Spot {
            row,
            cursor: self.cursor,
        }
    }

    // The row behind a component's subtree, and where its children are looked for.
    fn inside(window: Window) -> Spot
        ensures { result ≡ spot_in window }
    {
        Spot {
            row: window.end,
            cursor: window.cursor,
        }
    }

    // The component with the window of its properties.
    fn side(self, walk: &Walk) -> Side
        requires { Arrived (held walk.now.tables) self.row self.cursor }
        ensures { (result.row ≡ self.row)
            × Holds (components_in (held walk.now.tables).components) (properties_in (held walk.now.tables).properties)
            (parameters_in (held walk.now.tables).parameters) self.row result.window }
    {
        Side {
            row: self.row,
            window: walk.window(self.row, self.cursor),
        }
    }
}

// Compares the names and the properties of two components. Where they are alike, the rows behind both subtrees follow, and where the children are looked for.
// That a walk has arrived at a spot ties the two, so it is a clause here and below: a struct of both would hold the walk twice for each pair of spots.
fn same_head<V: Values>(walk: &Walk, first: Spot, second: Spot) -> Option<(Spot, Spot)>
    requires first_arrived { Arrived (held walk.now.tables) first.row first.cursor }
    requires second_arrived { Arrived (held walk.now.tables) second.row second.cursor }
    ensures { Headed V.test (held walk.now.tables) first.row second.row result }
{
    let tables = &walk.tables;
    let one = ComponentRow::at(tables.components, first.row);
    let other = ComponentRow::at(tables.components, second.row);
    if !matching::same_name(tables.text, one, other) {
        return None;
    }
    let a = first.side(walk);
    let b = second.side(walk);
    if !matching::same_properties::<V>(tables, a, b) {
        return None;
    }
    Some((Spot::inside(a.window), Spot::inside(b.window)))
}

// Compares two components: names, properties, and children in turn while the level falls. Where they are alike, the spots behind both follow.
fn same_component<V: Values>(
    walk: &Walk,
    first: Spot,
    second: Spot,
    level: usize,
) -> Option<(Spot, Spot)>
    requires first_arrived { Arrived (held walk.now.tables) first.row first.cursor }
    requires second_arrived { Arrived (held walk.now.tables) second.row second.cursor }
    ensures { Matched V.test (held walk.now.tables) level first.row second.row result }
{
    let (a, b) = same_head::<V>(walk, first, second)?;
    let one_last = walking::children_end(level, first.row + 1, a.row);
    let other_last = walking::children_end(level, second.row + 1, b.row);
    let mut one = a.moved(first.row + 1);
    let mut other = b.moved(second.row + 1);
    // Two walks side by side: where the next children stand is known only behind the subtrees of these.
    while (one.row < one_last) & (other.row < other_last) {
        (one, other) = same_component::<V>(walk, one, other, level - 1)?;
    }
    if (one_last <= one.row) & (other_last <= other.row) {
        Some((one.moved(a.row), other.moved(b.row)))
    } else {
        None
    }
}

// Whether there is such a property and it belongs to the component.
fn is_own(properties: &[u32], property: usize, row: usize) -> bool
    ensures { result ≡ stands property_size property_at (owned_by row) properties.now property }
{
    property < PropertyRow::count(properties)
        && PropertyRow::at(properties, property).owner as usize == row
}

// Whether the first properties of two components agree in key and value: it tells most of them apart at once. A property behind those of all earlier
// components that belongs to a component is its first, whatever the order of the table.
pub fn same_front<V: Values>(tables: &Tables, first: Spot, second: Spot) -> bool
    requires first_bound { first.cursor.property ≤ window_first (properties_in tables.now.properties.now) first.row }
    requires second_bound { second.cursor.property ≤ window_first (properties_in tables.now.properties.now) second.row }
    ensures { result ≡ false → (parameters : List ParameterRow) → alike (same_property_by V.test same_parameters)
        (properties_of tables.now.text.now (properties_in tables.now.properties.now) parameters first.row)
        (properties_of tables.now.text.now (properties_in tables.now.properties.now) parameters second.row)
        ≡ false }
{
    let properties = tables.properties;
    let a = walking::first_from(properties, first.cursor.property, first.row);
    if !is_own(properties, a, first.row) {
        return true;
    }
    let b = walking::first_from(properties, second.cursor.property, second.row);
    if !is_own(properties, b, second.row) {
        return true;
    }
    let one = PropertyRow::at(properties, a);
    let other = PropertyRow::at(properties, b);
    matching::same_key_and_value::<V>(tables.text, one, other)
}

// Whether the trees of two rows are alike. A caller that compares many pairs checks the tables once (checking::check, Walk::with_order) and walks on with its
// cursors; the start of a walk is always right.
pub fn same_trees<V: Values>(walk: &Walk, first: Spot, second: Spot) -> bool
    requires first_arrived { Arrived (held walk.now.tables) first.row first.cursor }
    requires second_arrived { Arrived (held walk.now.tables) second.row second.cursor }
    ensures { result ≡ rows_alike_by V.test (held walk.now.tables) first.row second.row }
{
    same_front::<V>(&walk.tables, first, second)
        && walking::same_size(walk.tables.components, first.row, second.row)
        && same_component::<V>(walk, first, second, octets::DEEPEST - 1).is_some()
}

// Whether two component rows are alike, values by the test, or the number for which the question cannot be asked.
fn compare<V: Values>(tables: &Tables, first: usize, second: usize) -> Result<bool, usize>
    ensures { told result ≡ compared_by V.test (held tables.now) first second }
{
    let checked = checking::check(tables)?;
    let rows = ComponentRow::count(tables.components);
    if rows <= first {
        return Err(first);
    }
    if rows <= second {
        return Err(second);
    }
    let walk = Walk::new(&checked).with_order();
    Ok(same_trees::<V>(&walk, Spot::start(first), Spot::start(second)))
}

// Whether two component rows are twins, or why the question cannot be asked. It and the looser test are two calls, as callers know them by these names.
pub fn compare_twins(
    text: &[u8],
    components: &[u32],
    properties: &[u32],
    parameters: &[u32],
    first: usize,
    second: usize,
) -> Compared
    ensures { result ≡ twins_answer (lent text.now components.now properties.now parameters.now) first second }
{
    let tables = Tables {
        text,
        components,
        properties,
        parameters,
    };
    compare::<Exact>(&tables, first, second).into()
}

// Whether two component rows are loose twins: values are compared as the texts that they stand for, and all else as in twins.
pub fn compare_loose_twins(
    text: &[u8],
    components: &[u32],
    properties: &[u32],
    parameters: &[u32],
    first: usize,
    second: usize,
) -> Compared
    ensures { result ≡ loose_twins_answer (lent text.now components.now properties.now parameters.now) first second }
{
    let tables = Tables {
        text,
        components,
        properties,
        parameters,
    };
    compare::<AsText>(&tables, first, second).into()
}
