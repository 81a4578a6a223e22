// How many children of a component are twins of the sibling directly before them: many pairs are compared, and the tables are checked once.
#![tactic(auto)]

ghost use Rattle.std.specs.Prelude.{◌≡◌, ◌<◌, ◌/◌, length, IfSome};
ghost use Rattle.tables.specs.Rows.{component_size};
ghost use Rattle.tables.specs.Trees.{none};
ghost use Rattle.tables.specs.Lent.{lent, held, components_in, properties_in, parameters_in};
ghost use Rattle.walking.specs.Walk.{end_of, Reached};
ghost use Rattle.walking.specs.Places.{Arrived};
ghost use Rattle.twins.specs.Answers.{twin_rows};
ghost use Rattle.neighbours.specs.Counts.{repeats, children_in, told, neighbours_answer};

use matching::Exact;
use octets::Answer;
use tables::{ComponentRow, Row, Tables};
use twins::Spot;
use walking::{Cursor, Walk};

// The answer, the place, and how many: three numbers, as callers in C have them.
#[derive(Clone, Copy)]
pub struct Neighbours {
    pub answer: u32,
    pub place: usize,
    pub twins: usize,
}

// How many are counted, or the number that is refused.
impl From<Result<usize, usize>> for Neighbours {
    ghost from_gives = { λ found answer. answer ≡ told found };

    fn from(found: Result<usize, usize>) -> Neighbours {
        match found {
            Ok(twins) => Neighbours {
                answer: Answer::Done.number(),
                place: 0,
                twins,
            },
            Err(number) => Neighbours {
                answer: Answer::BadTable.number(),
                place: number,
                twins: 0,
            },
        }
    }
}

// The spot behind the subtree of a component.
fn spot_behind(tables: &Tables, spot: Spot) -> Spot
    requires row_in_bounds { spot.row < length tables.now.components.now / component_size }
    requires reached { Reached (properties_in tables.now.properties.now) (parameters_in tables.now.parameters.now) spot.cursor spot.row }
    ensures { (result.row ≡ end_of (components_in tables.now.components.now) spot.row)
        × Reached (properties_in tables.now.properties.now) (parameters_in tables.now.parameters.now) result.cursor result.row }
{
    let row = walking::end_of(tables.components, spot.row);
    let property = walking::first_from(tables.properties, spot.cursor.property, row);
    let parameter = walking::first_held(tables.parameters, spot.cursor.parameter, property);
    Spot {
        row,
        cursor: Cursor {
            property,
            parameter,
        },
    }
}

// Whether two components are twins. Most differ in their first property, and that tells without the order of rows, which is looked at where it is first needed.
fn compare<'a>(walk: &Walk<'a>, with_order: &mut Option<Walk<'a>>, before: Spot, next: Spot) -> bool
    requires before_arrived { Arrived (held walk.now.tables) before.row before.cursor }
    requires next_arrived { Arrived (held walk.now.tables) next.row next.cursor }
    requires same_tables { IfSome with_order.old (λ w. w.tables ≡ walk.now.tables) }
    ensures twins { result ≡ twin_rows (held walk.now.tables) before.row next.row }
    ensures same_tables_after { IfSome with_order.new (λ w. w.tables ≡ walk.now.tables) }
{
    if !twins::same_front::<Exact>(&walk.tables, before, next) {
        return false;
    }
    // A known order is only lent, as many pairs are compared. Two calls: a reference into the option and one that `insert` gives do not join.
    match with_order {
        Some(ordered) => twins::same_trees::<Exact>(ordered, before, next),
        None => {
            let ordered = with_order.insert(walk.with_order());
            twins::same_trees::<Exact>(ordered, before, next)
        }
    }
}

// Compares each child of a component with the one before it.
fn count_children(walk: &Walk, parent: usize) -> usize
    requires { parent < length walk.now.tables.components.now / component_size }
    ensures { result ≡ repeats none (children_in (held walk.now.tables) parent) }
{
    let last = walking::end_of(walk.tables.components, parent);
    let mut before = Spot::start(parent + 1);
    if last <= before.row {
        return 0;
    }
    let mut next = spot_behind(&walk.tables, before);
    let mut with_order = None;
    let mut found: usize = 0;
    // A walk: where the next child stands is known only behind the subtree of this one.
    while next.row < last {
        found += usize::from(compare(walk, &mut with_order, before, next));
        before = next;
        next = spot_behind(&walk.tables, next);
    }
    found
}

// Counts the children of a row, or tells the number for which the question cannot be asked.
fn count(tables: &Tables, parent: usize) -> Result<usize, usize>
    ensures { told result ≡ neighbours_answer (held tables.now) parent }
{
    let checked = checking::check(tables)?;
    if ComponentRow::count(tables.components) <= parent {
        return Err(parent);
    }
    Ok(count_children(&Walk::new(&checked), parent))
}

// How many children of a component are twins of the sibling directly before them, or why the question cannot be asked.
pub fn count_neighbours(
    text: &[u8],
    components: &[u32],
    properties: &[u32],
    parameters: &[u32],
    parent: usize,
) -> Neighbours
    ensures { result ≡ neighbours_answer (lent text.now components.now properties.now parameters.now) parent }
{
    let tables = Tables {
        text,
        components,
        properties,
        parameters,
    };
    count(&tables, parent).into()
}
