// Whether two rows say the same: names, values, the parameters of two properties, and the properties of two components.
#![tactic(auto)]

ghost use Rattle.std.specs.Prelude.{◌≡◌, ◌&&◌, ◌<◌, ◌≤◌, ◌/◌, ℕ, Bool, List, [], ◌∷◌, length, MatchOption};
ghost use Rattle.octets.specs.Views.{viewed};
ghost use Rattle.tables.specs.Rows.{property_size};
ghost use Rattle.tables.specs.Lent.{held, properties_in, parameters_in};
ghost use Rattle.tables.specs.Trees.{properties_of};
ghost use Rattle.walking.specs.Places.{RisingParameters, Owns};
ghost use Rattle.escapes.specs.Loose.{same_text};
ghost use Rattle.comparing.specs.Pieces.{same_name, same_key, same_value, same_parameters};
ghost use Rattle.matching.specs.Alike.{alike, same_property_by};
ghost use Rattle.matching.specs.Held.{property_in, row_property, Passed, left};

mod properties;

use comparing::Runs;
use properties::Properties;
use tables::{ComponentRow, PropertyRow, Row, Tables};
use walking::Window;

// How the values of two properties are compared.
pub trait Values {
    ghost test: { List ℕ → List ℕ → Bool };

    fn same(a: &[u8], b: &[u8]) -> bool
        ensures { result ≡ test a.now b.now };
}

// Byte by byte.
pub struct Exact;

impl Values for Exact {
    ghost test = { same_value };

    fn same(a: &[u8], b: &[u8]) -> bool {
        octets::same_bytes(a, b)
    }
}

// As the texts that they stand for.
pub struct AsText;

impl Values for AsText {
    ghost test = { same_text };

    fn same(a: &[u8], b: &[u8]) -> bool {
        escapes::same_text(a, b)
    }
}

// A property row, and the parameter row from which on those that belong to it stand.
#[derive(Clone, Copy)]
pub struct Held {
    pub property: usize,
    pub first: usize,
}

// A component row, and where its properties stand.
#[derive(Clone, Copy)]
pub struct Side {
    pub row: usize,
    pub window: Window,
}

// Whether two components have the same name.
pub fn same_name(text: &[u8], a: ComponentRow, b: ComponentRow) -> bool
    ensures { result ≡ same_name (viewed text.now a.name_start a.name_len) (viewed text.now b.name_start b.name_len) }
{
    let one = comparing::span(a.name_start, a.name_len);
    let other = comparing::span(b.name_start, b.name_len);
    comparing::same_part(text, one, other)
}

// Whether two properties have the same value, by the test that is asked for.
pub fn same_value<V: Values>(text: &[u8], p: PropertyRow, q: PropertyRow) -> bool
    ensures { result
        ≡ V.test (viewed text.now p.value_start p.value_len) (viewed text.now q.value_start q.value_len) }
{
    let one = comparing::span(p.value_start, p.value_len);
    let other = comparing::span(q.value_start, q.value_len);
    V::same(
        octets::view(text, one.start, one.len),
        octets::view(text, other.start, other.len),
    )
}

// Whether two properties have the same key and the same value; their parameters are not looked at.
pub fn same_key_and_value<V: Values>(text: &[u8], p: PropertyRow, q: PropertyRow) -> bool
    ensures { result
        ≡ same_key (viewed text.now p.key_start p.key_len) (viewed text.now q.key_start q.key_len)
        && V.test (viewed text.now p.value_start p.value_len) (viewed text.now q.value_start q.value_len) }
{
    let one = comparing::span(p.key_start, p.key_len);
    let other = comparing::span(q.key_start, q.key_len);
    comparing::same_key(text, one, other) && same_value::<V>(text, p, q)
}

// Whether two properties have the same parameters, in any order.
pub fn same_parameters(tables: &Tables, a: Held, b: Held) -> bool
    ensures { result
        ≡ same_parameters (property_in (held tables.now) a).parameters (property_in (held tables.now) b).parameters }
{
    let parameters = tables.parameters;
    let count = walking::run_of(parameters, a.first, a.property);
    if walking::run_of(parameters, b.first, b.property) != count {
        return false;
    }
    if count == 0 {
        return true;
    }
    let runs = Runs {
        text: tables.text,
        parameters,
        a: a.first,
        b: b.first,
        count,
    };
    sifting::same_runs(&runs)
}

// Whether two properties are the same: key, value and parameters.
pub fn same_property<V: Values>(tables: &Tables, a: Held, b: Held) -> bool
    requires { (a.property < length tables.now.properties.now / property_size)
        × (b.property < length tables.now.properties.now / property_size) }
    ensures { result
        ≡ same_property_by V.test same_parameters (property_in (held tables.now) a) (property_in (held tables.now) b) }
{
    let p = PropertyRow::at(tables.properties, a.property);
    let q = PropertyRow::at(tables.properties, b.property);
    same_key_and_value::<V>(tables.text, p, q) && same_parameters(tables, a, b)
}

impl Properties<'_> {
    // The row of the next one, if one is left. Where its parameters stand `hold` finds: a walk that only asks whether one is left needs none.
    fn next(&mut self) -> Option<usize>
        ensures same_tables { self.new.tables.now ≡ self.old.tables.now }
        ensures next { MatchOption result (left self.old ≡ [])
            (λ n. Passed self.new n × (left self.old ≡ row_property (held self.old.tables.now) n ∷ left self.new)) }
    {
        let property = walking::next_own(self.tables.properties, self.row, self.at, self.last);
        if self.last <= property {
            return None;
        }
        self.at = property + 1;
        Some(property)
    }

    // The row that was the next one, with its parameters.
    fn hold(&mut self, property: usize) -> Held
        requires rising { RisingParameters (parameters_in self.old.tables.now.parameters.now) }
        requires passed { Passed self.old property }
        ensures same_tables { self.new.tables.now ≡ self.old.tables.now }
        ensures same_left { left self.new ≡ left self.old }
        ensures there { result.property < length self.old.tables.now.properties.now / property_size }
        ensures held { property_in (held self.old.tables.now) result ≡ row_property (held self.old.tables.now) property }
    {
        self.first = walking::first_held(self.tables.parameters, self.first, property);
        Held {
            property,
            first: self.first,
        }
    }
}

impl Side {
    // The properties of the component; all of them stand in its window.
    fn properties<'a>(self, tables: &'a Tables<'a>) -> Properties<'a>
        requires { Owns (properties_in tables.now.properties.now) (parameters_in tables.now.parameters.now) self.row self.window }
        ensures same_tables { result.tables.now ≡ tables.now }
        ensures all { left result
            ≡ properties_of tables.now.text.now (properties_in tables.now.properties.now) (parameters_in tables.now.parameters.now) self.row }
    {
        Properties {
            tables,
            row: self.row,
            at: self.window.first,
            last: self.window.last,
            first: self.window.parameter,
        }
    }
}

// Whether two components have the same properties, in order; all of each stand in its window.
pub fn same_properties<V: Values>(tables: &Tables, a: Side, b: Side) -> bool
    requires { RisingParameters (parameters_in tables.now.parameters.now)
        × Owns (properties_in tables.now.properties.now) (parameters_in tables.now.parameters.now) a.row a.window
        × Owns (properties_in tables.now.properties.now) (parameters_in tables.now.parameters.now) b.row b.window }
    ensures { result ≡ alike (same_property_by V.test same_parameters)
        (properties_of tables.now.text.now (properties_in tables.now.properties.now) (parameters_in tables.now.parameters.now) a.row)
        (properties_of tables.now.text.now (properties_in tables.now.properties.now) (parameters_in tables.now.parameters.now) b.row) }
{
    let mut one = a.properties(tables);
    let mut other = b.properties(tables);
    while let Some(p) = one.next() {
        let Some(q) = other.next() else {
            return false;
        };
        if !same_property::<V>(tables, one.hold(p), other.hold(q)) {
            return false;
        }
    }
    other.next().is_none()
}
