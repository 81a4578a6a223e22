// Where the rows of a component stand. The writer and the twin test find them here, in time that stays linear for the tables of a reading.
#![tactic(auto)]

ghost use Rattle.std.specs.Prelude.{◌≡◌, true, false, ◌+◌, ◌-◌, ◌≤◌, ◌<◌, ◌/◌, length, [], take, drop, eqb, None};
ghost use Rattle.octets.specs.Choice.{pick};
ghost use Rattle.tables.specs.Rows.{component_size, property_size, component_at, property_at};
ghost use Rattle.tables.specs.TableRule.{broken_component};
ghost use Rattle.tables.specs.Lent.{components_in, properties_in, parameters_in, held};
ghost use Rattle.tables.specs.Fronts.{front, belongs};
ghost use Rattle.walking.specs.Walk.{deeper, end_of, owned_before, owned_within, owned_by, owned_by_other, held_before, tally, in_order, stands, Reached, Holds};
ghost use Rattle.walking.specs.Places.{rises};

use checking::Checked;
use tables::{ComponentRow, ParameterRow, PropertyRow, Row, Tables};

// How far a walk through the component rows has come in the two other tables.
#[derive(Clone, Copy)]
pub struct Cursor {
    pub property: usize,
    pub parameter: usize,
}

impl Cursor {
    pub const START: Cursor = Cursor {
        property: 0,
        parameter: 0,
    };
}

// Where the properties of a component stand, from `first` up to `last`, with the first parameter that may be one of theirs;
// the row behind its subtree; and where its children are looked for.
#[derive(Clone, Copy)]
pub struct Window {
    pub first: usize,
    pub last: usize,
    pub parameter: usize,
    pub end: usize,
    pub cursor: Cursor,
}

// Tables that meet the table rule, as far as a walk leans on it: components nest, and parameters stand by rising property. `ordered` is said only
// where every property stands in its owner's window. It is a flag, as a walk that does not say it is as right; what it means is the last ghost field.
#[derive(Clone, Copy)]
pub struct Walk<'a> {
    pub tables: Tables<'a>,
    pub ordered: bool,
    pub ghost nested: { broken_component (length (held tables).text) 0 [] (components_in (held tables).components) ≡ None },
    pub ghost rising: { rises 0 (parameters_in (held tables).parameters) ≡ true },
    pub ghost order: { ordered ≡ true → in_order (components_in (held tables).components) (properties_in (held tables).properties) ≡ true },
}

impl<'a> Walk<'a> {
    // A walk that has not looked whether properties stand in their windows.
    pub fn new(checked: &Checked<'a>) -> Walk<'a>
        ensures { (result.tables ≡ checked.now.tables) × (result.ordered ≡ false) }
    {
        Walk {
            tables: checked.tables,
            ordered: false,
        }
    }

    // The same tables, with the order of their properties looked at.
    pub fn with_order(&self) -> Walk<'a>
        ensures { result.tables ≡ self.now.tables }
    {
        Walk {
            tables: self.tables,
            ordered: in_order(self.tables.components, self.tables.properties),
        }
    }

    // The window of a component.
    pub fn window(&self, row: usize, cursor: Cursor) -> Window
        requires row_in_bounds { row < length (held self.now.tables).components / component_size }
        requires reached { Reached (properties_in (held self.now.tables).properties) (parameters_in (held self.now.tables).parameters) cursor row }
        ensures { Holds (components_in (held self.now.tables).components) (properties_in (held self.now.tables).properties) (parameters_in (held self.now.tables).parameters) row result }
    {
        window_of(
            self.tables.components,
            self.tables.properties,
            self.tables.parameters,
            row,
            cursor,
            self.ordered,
        )
    }
}

// The row behind the subtree of a component: the first later one that is no deeper.
pub fn end_of(components: &[u32], row: usize) -> usize
    requires { row < length components.now / component_size }
    ensures { result ≡ end_of (components_in components.now) row }
{
    let depth = ComponentRow::at(components, row).depth;
    let rows = ComponentRow::count(components);
    row + 1
        + (row + 1..rows)
            .take_while(|i| depth < ComponentRow::at(components, *i).depth)
            .count()
}

// The first property from `from` on that belongs to no earlier component.
pub fn first_from(properties: &[u32], from: usize, row: usize) -> usize
    ensures { result ≡ from + front (owned_before row) (drop from (properties_in properties.now)) }
{
    let rows = PropertyRow::count(properties);
    from + (from..rows)
        .take_while(|i| (PropertyRow::at(properties, *i).owner as usize) < row)
        .count()
}

// The first property from `from` on that belongs to none of the components from `row` up to `end`.
fn last_within(properties: &[u32], from: usize, row: usize, end: usize) -> usize
    ensures { result ≡ from + front (owned_within row end) (drop from (properties_in properties.now)) }
{
    let rows = PropertyRow::count(properties);
    from + (from..rows)
        .take_while(|i| {
            let owner = PropertyRow::at(properties, *i).owner as usize;
            (row <= owner) & (owner < end)
        })
        .count()
}

// The first parameter from `from` on that belongs to no earlier property. One chain for each kind of row: a trait for whom a row belongs to would be longer.
pub fn first_held(parameters: &[u32], from: usize, property: usize) -> usize
    ensures { result ≡ from + front (held_before property) (drop from (parameters_in parameters.now)) }
{
    let rows = ParameterRow::count(parameters);
    from + (from..rows)
        .take_while(|i| (ParameterRow::at(parameters, *i).property as usize) < property)
        .count()
}

// How many parameters from `from` on belong to a property: they stand in one run.
pub fn run_of(parameters: &[u32], from: usize, property: usize) -> usize
    ensures { result ≡ front (belongs property) (drop from (parameters_in parameters.now)) }
{
    let rows = ParameterRow::count(parameters);
    (from..rows)
        .take_while(|i| ParameterRow::at(parameters, *i).property as usize == property)
        .count()
}

// The first property from `from` up to `last` that belongs to a component; `last` where there is none.
pub fn next_own(properties: &[u32], row: usize, from: usize, last: usize) -> usize
    requires { last ≤ length properties.now / property_size }
    ensures { result ≡ from + front (owned_by_other row) (take (last - from) (drop from (properties_in properties.now))) }
{
    from + (from..last)
        .take_while(|i| PropertyRow::at(properties, *i).owner as usize != row)
        .count()
}

// How many of the properties from `first` up to `last` belong to a component.
fn own_rows(properties: &[u32], row: usize, first: usize, last: usize) -> usize
    requires { last ≤ length properties.now / property_size }
    ensures { result ≡ tally (owned_by row) (take (last - first) (drop first (properties_in properties.now))) }
{
    // A loop, as a filter that is counted goes row by row where this takes four at a time.
    let mut own: usize = 0;
    for i in first..last {
        own += usize::from(PropertyRow::at(properties, i).owner as usize == row);
    }
    own
}

// Whether every property stands in its owner's window. The windows are gone through in the order of the components, and their first rows only rise.
pub fn in_order(components: &[u32], properties: &[u32]) -> bool
    ensures { result ≡ in_order (components_in components.now) (properties_in properties.now) }
{
    let mut found: usize = 0;
    let mut first: usize = 0;
    for row in 0..ComponentRow::count(components) {
        first = first_from(properties, first, row);
        let last = last_within(properties, first, row, end_of(components, row));
        found += own_rows(properties, row, first, last);
    }
    found == PropertyRow::count(properties)
}

// The window of a component; all rows, where the tables are not in order. Tables and flag stand apart, as docs/CONTRACTS.md has this call.
pub fn window_of(
    components: &[u32],
    properties: &[u32],
    parameters: &[u32],
    row: usize,
    cursor: Cursor,
    ordered: bool,
) -> Window
    requires row_in_bounds { row < length components.now / component_size }
    requires reached { Reached (properties_in properties.now) (parameters_in parameters.now) cursor row }
    requires in_order_if_told { ordered ≡ true → in_order (components_in components.now) (properties_in properties.now) ≡ true }
    ensures { Holds (components_in components.now) (properties_in properties.now) (parameters_in parameters.now) row result }
{
    let first = first_from(properties, cursor.property, row);
    let parameter = first_held(parameters, cursor.parameter, first);
    let end = end_of(components, row);
    let next = Cursor {
        property: first,
        parameter,
    };
    if !ordered {
        return Window {
            first: 0,
            last: PropertyRow::count(properties),
            parameter: 0,
            end,
            cursor: next,
        };
    }
    let last = last_within(properties, first, row, end);
    Window {
        first,
        last,
        parameter,
        end,
        cursor: next,
    }
}

// Where the children of a component end: below the last level there are none. No table that meets the rule goes so deep.
pub fn children_end(level: usize, first: usize, end: usize) -> usize
    ensures { result ≡ pick (eqb level 0) first end }
{
    if level == 0 { first } else { end }
}

// Whether there is such a row and it is deeper.
fn is_below(components: &[u32], row: usize, depth: u32) -> bool
    ensures { result ≡ stands component_size component_at (deeper depth) components.now row }
{
    row < ComponentRow::count(components) && depth < ComponentRow::at(components, row).depth
}

// Whether the subtrees of two components have equally many rows. It looks no further than the shorter one goes.
pub fn same_size(components: &[u32], first: usize, second: usize) -> bool
    requires { (first < length components.now / component_size) × (second < length components.now / component_size) }
    ensures { result ≡ eqb (end_of (components_in components.now) first - first) (end_of (components_in components.now) second - second) }
{
    let one = ComponentRow::at(components, first).depth;
    let other = ComponentRow::at(components, second).depth;
    // Two numbers, as both subtrees go on in step and a chain would have to ask again which of them ended.
    let mut i = first + 1;
    let mut j = second + 1;
    while is_below(components, i, one) {
        if !is_below(components, j, other) {
            return false;
        }
        i += 1;
        j += 1;
    }
    !is_below(components, j, other)
}
