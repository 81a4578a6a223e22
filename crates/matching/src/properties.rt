// A walk through the properties of a component.
#![tactic(auto)]

ghost use Rattle.std.specs.Prelude.{◌≤◌, ◌/◌, length};
ghost use Rattle.tables.specs.Rows.{property_size};
ghost use Rattle.tables.specs.Lent.{parameters_in};
ghost use Rattle.tables.specs.Fronts.{front};
ghost use Rattle.walking.specs.Walk.{held_before};

use tables::Tables;

// The properties of a component in turn: those from row `at` on, in its window. No parameter before `first` belongs to one of them.
#[derive(Drop)]
pub struct Properties<'a> {
    pub tables: &'a Tables<'a>,
    pub row: usize,
    pub at: usize,
    pub last: usize,
    pub first: usize,
    ghost inside: { last ≤ length tables.now.properties.now / property_size },
    ghost none_before: { first ≤ front (held_before at) (parameters_in tables.now.parameters.now) },
}
