// Rows of the three tables: only these functions know how many words a row has and in which order they stand.
#![tactic(auto)]

ghost use Rattle.std.specs.Prelude.{◌≡◌, ℕ, ◌+◌, ◌/◌, ◌<◌, ◌≤◌, List, length};
ghost use Rattle.std.proofs.Common.{rules};
ghost use Rattle.tables.specs.Rows.{component_size, property_size, parameter_size, component_words, property_words, parameter_words, component_from, property_from, parameter_from, row_at, put_row};

// The parent of a component at the top.
pub const NO_PARENT: u32 = 4294967295;

#[derive(Clone, Copy)]
pub struct ComponentRow {
    pub parent: u32,
    pub depth: u32,
    pub name_start: u32,
    pub name_len: u32,
}

#[derive(Clone, Copy)]
pub struct PropertyRow {
    pub owner: u32,
    pub key_start: u32,
    pub key_len: u32,
    pub value_start: u32,
    pub value_len: u32,
}

#[derive(Clone, Copy)]
pub struct ParameterRow {
    pub property: u32,
    pub key_start: u32,
    pub key_len: u32,
    pub present: u32,
    pub value_start: u32,
    pub value_len: u32,
}

// What a reading fills, and the writer and the twin test look at.
#[derive(Clone, Copy)]
pub struct Tables<'a> {
    pub text: &'a [u8],
    pub components: &'a [u32],
    pub properties: &'a [u32],
    pub parameters: &'a [u32],
}

// A row of a table: how many words it is, and which.
pub trait Row: Copy {
    ghost WORDS: { ℕ };

    ghost words: { Self → List ℕ };

    ghost from: { List ℕ → ℕ → Self };

    const WORDS: usize;

    // The row whose words start at a place.
    fn read(table: &[u32], at: usize) -> Self
        requires { at + WORDS ≤ length table.now }
        ensures { result ≡ from table.now at };

    // Writes the words of a row, where the table has room for it; otherwise the table stays.
    fn put(self, table: &mut [u32], row: usize)
        ensures { table.new ≡ put_row WORDS row (words self) table.old };

    ghost some: { 0 < WORDS };

    // How many whole rows a table has room for.
    final fn count(table: &[u32]) -> usize
        ensures { result ≡ length table.now / WORDS }
    {
        table.len() / Self::WORDS
    }

    // Reads a row that the table has.
    final fn at(table: &[u32], row: usize) -> Self
        requires { row < length table.now / WORDS }
        ensures { result ≡ row_at WORDS from table.now row }
    {
        Self::read(table, Self::WORDS * row)
    }
}

// Writes the words of a row, where the table has room for it; otherwise the table stays.
fn put_row(words: &[u32], table: &mut [u32], row: usize)
    requires { 0 < length words.now }
    ensures { table.new ≡ put_row (length words.now) row words.now table.old }
{
    let size = words.len();
    if table.len() / size <= row {
        return;
    }
    let at = size * row;
    table[at..at + size].copy_from_slice(words);
}

impl Row for ComponentRow {
    ghost WORDS = { component_size };

    ghost words = { component_words };

    ghost from = { component_from };

    ghost some = { Prim.search rules };

    const WORDS: usize = 4;

    fn read(table: &[u32], at: usize) -> ComponentRow {
        ComponentRow {
            parent: table[at],
            depth: table[at + 1],
            name_start: table[at + 2],
            name_len: table[at + 3],
        }
    }

    fn put(self, table: &mut [u32], row: usize) {
        put_row(
            &[self.parent, self.depth, self.name_start, self.name_len],
            table,
            row,
        )
    }
}

impl Row for PropertyRow {
    ghost WORDS = { property_size };

    ghost words = { property_words };

    ghost from = { property_from };

    ghost some = { Prim.search rules };

    const WORDS: usize = 5;

    fn read(table: &[u32], at: usize) -> PropertyRow {
        PropertyRow {
            owner: table[at],
            key_start: table[at + 1],
            key_len: table[at + 2],
            value_start: table[at + 3],
            value_len: table[at + 4],
        }
    }

    fn put(self, table: &mut [u32], row: usize) {
        put_row(
            &[
                self.owner,
                self.key_start,
                self.key_len,
                self.value_start,
                self.value_len,
            ],
            table,
            row,
        )
    }
}

impl Row for ParameterRow {
    ghost WORDS = { parameter_size };

    ghost words = { parameter_words };

    ghost from = { parameter_from };

    ghost some = { Prim.search rules };

    const WORDS: usize = 6;

    fn read(table: &[u32], at: usize) -> ParameterRow {
        ParameterRow {
            property: table[at],
            key_start: table[at + 1],
            key_len: table[at + 2],
            present: table[at + 3],
            value_start: table[at + 4],
            value_len: table[at + 5],
        }
    }

    fn put(self, table: &mut [u32], row: usize) {
        put_row(
            &[
                self.property,
                self.key_start,
                self.key_len,
                self.present,
                self.value_start,
                self.value_len,
            ],
            table,
            row,
        )
    }
}
