// The table rule as a test: which row of three tables is the first to break it.
#![tactic(auto)]

ghost use Rattle.std.specs.Prelude.{◌≡◌, ◌&&◌, [], ◌∷◌, ◌++◌, ◌+◌, ◌-◌, ◌/◌, ◌≤◌, ◌<◌, length, take, Some, None, MatchResult};
ghost use Rattle.arrayvec.specs.ArrayVec.{array_vec_len};
ghost use Rattle.octets.specs.Laid.{most};
ghost use Rattle.octets.specs.Answers.{deepest};
ghost use Rattle.tables.specs.Rows.{property_size, parameter_size};
ghost use Rattle.tables.specs.TableRule.{inside, parent_fits, depth_fits, component_fits, property_fits, rising_in, presence_fits, parameter_fits, broken_component, broken_property, broken_parameter};
ghost use Rattle.tables.specs.Lent.{lent, broken_in, components_in, properties_in, parameters_in, held};
ghost use Rattle.checking.specs.Chains.{chain, Rising};

use arrayvec::ArrayVec;
use tables::{ComponentRow, ParameterRow, PropertyRow, Row, Tables};

// Tables that meet the table rule.
#[derive(Clone, Copy)]
pub struct Checked<'a> {
    pub tables: Tables<'a>,
    pub ghost meets: { broken_in (held tables) ≡ None },
}

// Whether a view lies inside a text of so many bytes.
fn inside(size: usize, start: u32, len: u32) -> bool
    ensures { result ≡ inside size start len }
{
    start as usize + len as usize <= size
}

// Whether a component may stand behind the last of the rows, whose ancestors are the others, outermost first: the parent is the row one place
// below the component's own.
fn nested(rows: &[usize], c: ComponentRow) -> bool
    requires { Rising rows.now (length rows.now) }
    ensures { result ≡ (parent_fits (chain rows.now (length rows.now)) c && depth_fits (chain rows.now (length rows.now)) c) }
{
    let own = c.depth as usize;
    if c.parent == tables::NO_PARENT {
        return own == 1;
    }
    if own < 2 {
        return false;
    }
    if rows.len() < own - 1 {
        return false;
    }
    if octets::DEEPEST < own {
        return false;
    }
    rows[own - 2] == c.parent as usize
}

fn component_fits(size: usize, rows: &[usize], c: ComponentRow) -> bool
    requires { Rising rows.now (length rows.now) }
    ensures { result ≡ component_fits size (chain rows.now (length rows.now)) c }
{
    inside(size, c.name_start, c.name_len) & nested(rows, c)
}

fn property_fits(size: usize, components: usize, p: PropertyRow) -> bool
    ensures { result ≡ property_fits size components p }
{
    inside(size, p.key_start, p.key_len)
        & (inside(size, p.value_start, p.value_len) & ((p.owner as usize) < components))
}

fn rising(properties: usize, before: u32, p: ParameterRow) -> bool
    ensures { result ≡ rising_in properties before p }
{
    (before <= p.property) & ((p.property as usize) < properties)
}

fn presence_fits(p: ParameterRow) -> bool
    ensures { result ≡ presence_fits p }
{
    (p.present == 1) | ((p.present == 0) & ((p.value_start == 0) & (p.value_len == 0)))
}

fn parameter_fits(size: usize, properties: usize, before: u32, p: ParameterRow) -> bool
    ensures { result ≡ parameter_fits size properties before p }
{
    inside(size, p.key_start, p.key_len)
        & (inside(size, p.value_start, p.value_len)
            & (rising(properties, before, p) & presence_fits(p)))
}

// Puts a row into the place of its depth, which holds a row already or is the first free one. What stands in deeper places stays.
fn put(rows: &mut ArrayVec<usize, 64>, depth: usize, row: usize)
    requires some { 0 < depth }
    requires few { depth ≤ deepest }
    requires behind { depth - 1 ≤ array_vec_len rows.old }
    ensures items { take depth rows.new.items ≡ take (depth - 1) rows.old.items ++ row ∷ [] }
    ensures len { depth ≤ array_vec_len rows.new }
{
    if rows.len() < depth {
        rows.push(row);
        return;
    }
    rows.as_mut_slice()[depth - 1] = row;
}

// The first component row that does not fit. The row before the one at hand and its ancestors stand in the places of their depths; what is
// left of deeper rows behind them is not looked at.
fn broken_component(size: usize, table: &[u32]) -> Option<usize>
    ensures { result ≡ broken_component size 0 [] (components_in table.now) }
{
    let mut rows: ArrayVec<usize, 64> = ArrayVec::new();
    let mut depth: usize = 0;
    for row in 0..ComponentRow::count(table) {
        let c = ComponentRow::at(table, row);
        if !component_fits(size, &rows.as_slice()[..depth], c) {
            return Some(row);
        }
        depth = c.depth as usize;
        put(&mut rows, depth, row);
    }
    None
}

// The first property row that does not fit; the rows are numbered on from the components.
fn broken_property(size: usize, components: usize, table: &[u32]) -> Option<usize>
    requires { components + length table.now / property_size ≤ most }
    ensures { result ≡ broken_property size components components (properties_in table.now) }
{
    for row in 0..PropertyRow::count(table) {
        if !property_fits(size, components, PropertyRow::at(table, row)) {
            return Some(components + row);
        }
    }
    None
}

// The first parameter row that does not fit; the rows are numbered from `first` on.
fn broken_parameter(size: usize, properties: usize, first: usize, table: &[u32]) -> Option<usize>
    requires { first + length table.now / parameter_size ≤ most }
    ensures { result ≡ broken_parameter size properties first 0 (parameters_in table.now) }
{
    // A loop of its own, as a row here is tested with the one before it and a property row is not.
    let mut before: u32 = 0;
    for row in 0..ParameterRow::count(table) {
        let p = ParameterRow::at(table, row);
        if !parameter_fits(size, properties, before, p) {
            return Some(first + row);
        }
        before = p.property;
    }
    None
}

// The first row that breaks the table rule, numbered through the three tables, components first. No component at all is row 0.
pub fn first_broken(
    text: &[u8],
    components: &[u32],
    properties: &[u32],
    parameters: &[u32],
) -> Option<usize>
    ensures { result ≡ broken_in (lent text.now components.now properties.now parameters.now) }
{
    let size = text.len();
    let component_rows = ComponentRow::count(components);
    let property_rows = PropertyRow::count(properties);
    if component_rows == 0 {
        return Some(0);
    }
    broken_component(size, components)
        .or_else(|| broken_property(size, component_rows, properties))
        .or_else(|| {
            broken_parameter(
                size,
                property_rows,
                component_rows + property_rows,
                parameters,
            )
        })
}

// The tables, if they meet the table rule, or else the first row that breaks it.
pub fn check<'a>(tables: &Tables<'a>) -> Result<Checked<'a>, usize>
    ensures { MatchResult result (λ checked. checked.tables ≡ tables.now) (λ row. broken_in (held tables.now) ≡ Some row) }
{
    let broken = first_broken(
        tables.text,
        tables.components,
        tables.properties,
        tables.parameters,
    );
    match broken {
        None => Ok(Checked { tables: *tables }),
        Some(row) => Err(row),
    }
}
