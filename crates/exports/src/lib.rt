// The public calls for C and Rust, a function for each name that callers there use. A slice is two words there, where it starts and how long it is;
// the numbers of an answer go into a lent array.
#![tactic(auto)]

ghost use Rattle.std.specs.Prelude.{◌≡◌, ℕ, List, length};
ghost use Rattle.tables.specs.Lent.{lent};
ghost use Rattle.reading.specs.Answers.{unfold_answer, measuring_of, text_after};
ghost use Rattle.reading.specs.Lent.{read_into, left, fill_from, left_filled};
ghost use Rattle.folding.specs.Strict.{strict};
ghost use Rattle.folding.specs.Repository.{repository};
ghost use Rattle.folding.specs.Answers.{strict_line, repository_line, fold_answer, fold_out};
ghost use Rattle.quoting.specs.Answers.{quote_answer, quote_out};
ghost use Rattle.escapes.specs.Answers.{text_answer, text_out, value_answer, value_out};
ghost use Rattle.writing.specs.Answers.{write_answer, write_out};
ghost use Rattle.twins.specs.Answers.{twins_answer, loose_twins_answer};
ghost use Rattle.neighbours.specs.Counts.{neighbours_answer};
ghost use Rattle.exports.specs.Numbers.{reading_numbers, output_numbers, twin_numbers, neighbour_numbers};
ghost use Rattle.exports.specs.Modes.{mode_of};

use escapes::Mode;
use neighbours::Neighbours;
use octets::Output;
use reading::Reading;
use twins::Compared;

// The numbers of an answer, in the order in which they go into the lent array.
trait Numbers<const N: usize> {
    ghost numbers: { Self → List ℕ };

    fn numbers(self) -> [usize; N]
        ensures { result ≡ numbers self };
}

// The six numbers of a reading.
impl Numbers<6> for Reading {
    ghost numbers = { reading_numbers };

    fn numbers(self) -> [usize; 6] {
        [
            self.answer as usize,
            self.place,
            self.length,
            self.components,
            self.properties,
            self.parameters,
        ]
    }
}

// The answer, the place and the length.
impl Numbers<3> for Output {
    ghost numbers = { output_numbers };

    fn numbers(self) -> [usize; 3] {
        [self.answer as usize, self.place, self.length]
    }
}

// The answer, the place and 1 for twins.
impl Numbers<3> for Compared {
    ghost numbers = { twin_numbers };

    fn numbers(self) -> [usize; 3] {
        [self.answer as usize, self.place, self.twins as usize]
    }
}

// The answer, the place and the count.
impl Numbers<3> for Neighbours {
    ghost numbers = { neighbour_numbers };

    fn numbers(self) -> [usize; 3] {
        [self.answer as usize, self.place, self.twins]
    }
}

// Reads a feed into the text and the three tables. Of a line in a component that is no property the numbers tell what is wrong: 17 ReservedKey,
// 7 EmptyKey, or 18 StrayByte, with the place of that byte.
#[unsafe(no_mangle)]
pub extern "C" fn hawniretem_read(
    feed: &[u8],
    text: &mut [u8],
    components: &mut [u32],
    properties: &mut [u32],
    parameters: &mut [u32],
    numbers: &mut [usize; 6],
)
    ensures numbers_after { numbers.new
        ≡ reading_numbers (read_into feed.now (lent text.old components.old properties.old parameters.old)) }
    ensures lent_after { lent text.new components.new properties.new parameters.new
        ≡ left feed.now (lent text.old components.old properties.old parameters.old) }
{
    let told = reading::read_components(feed, text, components, properties, parameters);
    *numbers = told.numbers();
}

// Unfolds a feed into the text and tells the rows that it needs, so that as many can be lent. No table is lent, and 10 is never told.
#[unsafe(no_mangle)]
pub extern "C" fn hawniretem_measure(feed: &[u8], text: &mut [u8], numbers: &mut [usize; 6])
    ensures numbers_after { numbers.new ≡ reading_numbers (measuring_of feed.now (length text.old)) }
    ensures text_after { text.new ≡ text_after feed.now text.old }
{
    *numbers = reading::measure_components(feed, text).numbers();
}

// Reads an unfolded text into the three tables: the first bytes that measuring left, as many as it told, and no more.
#[unsafe(no_mangle)]
pub extern "C" fn hawniretem_fill(
    text: &[u8],
    components: &mut [u32],
    properties: &mut [u32],
    parameters: &mut [u32],
    numbers: &mut [usize; 6],
)
    ensures numbers_after { numbers.new
        ≡ reading_numbers (fill_from (lent text.now components.old properties.old parameters.old)) }
    ensures tables_after { lent text.now components.new properties.new parameters.new
        ≡ left_filled (lent text.now components.old properties.old parameters.old) }
{
    let told = reading::fill_components(text, components, properties, parameters);
    *numbers = told.numbers();
}

// Unfolds a feed.
#[unsafe(no_mangle)]
pub extern "C" fn hawniretem_unfold(feed: &[u8], text: &mut [u8], numbers: &mut [usize; 3])
    ensures numbers_after { numbers.new ≡ output_numbers (unfold_answer feed.now (length text.old)) }
    ensures text_after { text.new ≡ text_after feed.now text.old }
{
    *numbers = reading::unfold_feed(feed, text).numbers();
}

// Folds a line as the repository does.
#[unsafe(no_mangle)]
pub extern "C" fn hawniretem_fold_line(line: &[u8], out: &mut [u8], numbers: &mut [usize; 3])
    ensures numbers_after { numbers.new ≡ output_numbers (fold_answer repository_line repository line.now (length out.old)) }
    ensures out_after { out.new ≡ fold_out repository_line repository line.now out.old }
{
    *numbers = folding::fold_line(line, out).numbers();
}

// Folds a line as RFC 5545 asks.
#[unsafe(no_mangle)]
pub extern "C" fn hawniretem_fold_strict(line: &[u8], out: &mut [u8], numbers: &mut [usize; 3])
    ensures numbers_after { numbers.new ≡ output_numbers (fold_answer strict_line strict line.now (length out.old)) }
    ensures out_after { out.new ≡ fold_out strict_line strict line.now out.old }
{
    *numbers = folding::fold_strict(line, out).numbers();
}

// Quotes a parameter value where it wants quotes.
#[unsafe(no_mangle)]
pub extern "C" fn hawniretem_quote(value: &[u8], out: &mut [u8], numbers: &mut [usize; 3])
    ensures numbers_after { numbers.new ≡ output_numbers (quote_answer value.now (length out.old)) }
    ensures out_after { out.new ≡ quote_out value.now out.old }
{
    *numbers = quoting::quote_special_chars(value, out).numbers();
}

// The mode of reading text that a number names: 0 the strict one, any other the second.
fn mode_of(mode: u32) -> Mode
    ensures { result ≡ mode_of mode }
{
    match mode {
        0 => Mode::Strict,
        _ => Mode::Repository,
    }
}

// Reads a value as the text that it stands for.
#[unsafe(no_mangle)]
pub extern "C" fn hawniretem_read_text(
    mode: u32,
    value: &[u8],
    out: &mut [u8],
    numbers: &mut [usize; 3],
)
    ensures numbers_after { numbers.new ≡ output_numbers (text_answer (mode_of mode) value.now (length out.old)) }
    ensures out_after { out.new ≡ text_out (mode_of mode) value.now out.old }
{
    *numbers = escapes::read_text(mode_of(mode), value, out).numbers();
}

// Writes a text as a value that stands for it.
#[unsafe(no_mangle)]
pub extern "C" fn hawniretem_write_text(text: &[u8], out: &mut [u8], numbers: &mut [usize; 3])
    ensures numbers_after { numbers.new ≡ output_numbers (value_answer text.now (length out.old)) }
    ensures out_after { out.new ≡ value_out text.now out.old }
{
    *numbers = escapes::write_text(text, out).numbers();
}

// Writes the trees of three tables as a calendar.
#[unsafe(no_mangle)]
pub extern "C" fn hawniretem_write(
    text: &[u8],
    components: &[u32],
    properties: &[u32],
    parameters: &[u32],
    out: &mut [u8],
    numbers: &mut [usize; 3],
)
    ensures numbers_after { numbers.new
        ≡ output_numbers (write_answer (lent text.now components.now properties.now parameters.now) (length out.old)) }
    ensures out_after { out.new
        ≡ write_out (lent text.now components.now properties.now parameters.now) out.old }
{
    let told = writing::write_components(text, components, properties, parameters, out);
    *numbers = told.numbers();
}

// Whether two component rows are twins.
#[unsafe(no_mangle)]
pub extern "C" fn hawniretem_twins(
    text: &[u8],
    components: &[u32],
    properties: &[u32],
    parameters: &[u32],
    first: usize,
    second: usize,
    numbers: &mut [usize; 3],
)
    ensures { numbers.new
        ≡ twin_numbers (twins_answer (lent text.now components.now properties.now parameters.now) first second) }
{
    let told = twins::compare_twins(text, components, properties, parameters, first, second);
    *numbers = told.numbers();
}

// Whether two component rows are loose twins.
#[unsafe(no_mangle)]
pub extern "C" fn hawniretem_loose_twins(
    text: &[u8],
    components: &[u32],
    properties: &[u32],
    parameters: &[u32],
    first: usize,
    second: usize,
    numbers: &mut [usize; 3],
)
    ensures { numbers.new
        ≡ twin_numbers (loose_twins_answer (lent text.now components.now properties.now parameters.now) first second) }
{
    let told = twins::compare_loose_twins(text, components, properties, parameters, first, second);
    *numbers = told.numbers();
}

// How many children of a component are twins of the sibling directly before them.
#[unsafe(no_mangle)]
pub extern "C" fn hawniretem_neighbours(
    text: &[u8],
    components: &[u32],
    properties: &[u32],
    parameters: &[u32],
    parent: usize,
    numbers: &mut [usize; 3],
)
    ensures { numbers.new
        ≡ neighbour_numbers (neighbours_answer (lent text.now components.now properties.now parameters.now) parent) }
{
    let told = neighbours::count_neighbours(text, components, properties, parameters, parent);
    *numbers = told.numbers();
}
