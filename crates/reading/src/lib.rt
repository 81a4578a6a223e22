// The public reading, in one call or in two: a feed is unfolded into a lent text, its rows are counted, and put into three lent tables.
#![tactic(auto)]

ghost use Rattle.std.specs.Prelude.{◌≡◌, true, List, ℕ, ◌≤◌, length, eqb};
ghost use Rattle.octets.specs.Answers.{answer_number, longest, done};
ghost use Rattle.octets.specs.Runs.{only};
ghost use Rattle.unfolding.specs.Unfold.{unfolded};
ghost use Rattle.tables.specs.Lent.{lent};
ghost use Rattle.reading.specs.Answers.{number_of, fault_number, place_of, fault_place, refusal, told, counts_in};
ghost use Rattle.reading.specs.Answers.{laid_whole, unfold_answer, answered, measure_text, read_text, measuring_of, text_after, fits, room_for};
ghost use Rattle.reading.specs.Lent.{read_into, left, fill_from, left_filled};
ghost use Rattle.reading.specs.NewTables.{is_zero};

use lines::Fault;
use nesting::{Counts, Refusal, Refused};
use octets::{Answer, Output};
use tables::{ComponentRow, ParameterRow, PropertyRow, Row};

mod zeros;

// Six numbers: answer, place, length of the unfolded text, and three counts of rows. The answer is a number, as theorems put answers in order.
#[derive(Clone, Copy)]
pub struct Reading {
    pub answer: u32,
    pub place: usize,
    pub length: usize,
    pub components: usize,
    pub properties: usize,
    pub parameters: usize,
}

impl Reading {
    pub fn told(answer: Answer, place: usize, length: usize, counts: Counts) -> Self
        ensures { result ≡ told (answer_number answer) place length counts }
    {
        Reading {
            answer: answer.number(),
            place,
            length,
            components: counts.components,
            properties: counts.properties,
            parameters: counts.parameters,
        }
    }

    // A refusal has no counts.
    pub fn refusal(answer: Answer, place: usize, length: usize) -> Self
        ensures { result ≡ refusal (answer_number answer) place length }
    {
        Reading::told(answer, place, length, Counts::new())
    }

    // Whether it is Done, and no refusal.
    pub fn is_done(self) -> bool
        ensures { result ≡ eqb self.answer done }
    {
        self.answer == Answer::Done.number()
    }
}

// A feed whose unfolding is refused has no counts.
impl From<Output> for Reading {
    ghost from_gives = { λ refused told. told ≡ refusal refused.answer refused.place refused.length };

    fn from(refused: Output) -> Reading {
        Reading {
            answer: refused.answer,
            place: refused.place,
            length: refused.length,
            components: 0,
            properties: 0,
            parameters: 0,
        }
    }
}

// What a fault is answered with.
fn fault_answer(fault: Fault) -> Answer
    ensures { answer_number result ≡ fault_number fault }
{
    match fault {
        Fault::ReservedKey => Answer::ReservedKey,
        Fault::EmptyKey => Answer::EmptyKey,
        Fault::StrayByte(_) => Answer::StrayByte,
    }
}

// The place of a fault in a line that starts at `start`.
fn fault_place(fault: Fault, start: usize) -> usize
    requires { fault_place fault start ≤ longest }
    ensures { result ≡ fault_place fault start }
{
    match fault {
        Fault::ReservedKey | Fault::EmptyKey => start,
        Fault::StrayByte(at) => start + at,
    }
}

// What a refusal is answered with.
fn answer_of(r: Refusal) -> Answer
    ensures { answer_number result ≡ number_of r }
{
    match r {
        Refusal::BadBegin => Answer::BadBegin,
        Refusal::TooDeep => Answer::TooDeep,
        Refusal::BadEnd => Answer::BadEnd,
        Refusal::Outside => Answer::Outside,
        Refusal::Line(fault) => fault_answer(fault),
        Refusal::Unclosed => Answer::Unclosed,
        Refusal::NoComponent => Answer::NoComponent,
    }
}

// The place of a refusal that was met at `from`: the start of a line, or the end of the text.
fn place_of(r: Refusal, from: usize) -> usize
    requires { place_of r from ≤ longest }
    ensures { result ≡ place_of r from }
{
    match r {
        Refusal::Line(fault) => fault_place(fault, from),
        _ => from,
    }
}

// Whether each count has its rows. The three tables stay apart here and below: a struct of three `&mut` would make each clause longer, as
// `tables.old.components.now` in place of `components.old`.
fn have_room(told: Reading, components: &[u32], properties: &[u32], parameters: &[u32]) -> bool
    ensures { result ≡ fits (counts_in told) (room_for (length components.now) (length properties.now) (length parameters.now)) }
{
    (told.components <= ComponentRow::count(components))
        & ((told.properties <= PropertyRow::count(properties))
            & (told.parameters <= ParameterRow::count(parameters)))
}

// Unfolds a feed into a text, which stays as it was where the feed does not fit. Returns the unfolded length.
fn unfold_where_it_fits(feed: &[u8], text: &mut [u8]) -> usize
    ensures value { result ≡ length (unfolded feed.now) }
    ensures text_after { text.new ≡ laid_whole (unfolded feed.now) text.old }
{
    // Unfolding makes nothing longer, so its length is counted first only where the text is shorter than the feed.
    if feed.len() <= text.len() {
        return unfolding::unfold_into(feed, text);
    }
    let n = unfolding::unfold_into(feed, &mut []);
    if n <= text.len() {
        unfolding::unfold_into(feed, text);
    }
    n
}

// Unfolds a feed into a text that takes all of it; a refusal changes nothing.
pub fn unfold_feed(feed: &[u8], text: &mut [u8]) -> Output
    ensures value { result ≡ unfold_answer feed.now (length text.old) }
    ensures text_after { text.new ≡ text_after feed.now text.old }
{
    if octets::LONGEST < feed.len() {
        return Output::refusal(Answer::TooLong, 0);
    }
    let length = unfold_where_it_fits(feed, text);
    if text.len() < length {
        return Output {
            answer: Answer::NoTextRoom.number(),
            place: 0,
            length,
        };
    }
    Output::done(length)
}

// What a text answers by itself, by what was met in it: its counts, or why it is refused.
fn tell_outcome(outcome: Result<Counts, Refused>, size: usize) -> Reading
    requires { (answered outcome size (λ counts. done)).place ≤ longest }
    ensures { result ≡ answered outcome size (λ counts. done) }
{
    match outcome {
        Ok(counts) => Reading::told(Answer::Done, 0, size, counts),
        Err(Refused { refusal, from }) => {
            Reading::refusal(answer_of(refusal), place_of(refusal, from), size)
        }
    }
}

// The same of a text, whose rows are counted and not put. That a text is not too long stays a clause here and below: a type for it would be one more
// name in each clause, and would be opened again at the first step.
fn measure_text(text: &[u8]) -> Reading
    requires { length text.now ≤ longest }
    ensures { result ≡ measure_text text.now }
{
    tell_outcome(nesting::count(text), text.len())
}

// What a text answers with these tables, by what it answers by itself.
fn ask_room(told: Reading, components: &[u32], properties: &[u32], parameters: &[u32]) -> Reading
    ensures { (text : List ℕ) → told ≡ measure_text text →
        result ≡ read_text text (room_for (length components.now) (length properties.now) (length parameters.now)) }
{
    if !told.is_done() || have_room(told, components, properties, parameters) {
        return told;
    }
    Reading {
        answer: Answer::NoRoom.number(),
        ..told
    }
}

// Unfolds a feed into the text, and tells the rows that it needs.
pub fn measure_components(feed: &[u8], text: &mut [u8]) -> Reading
    ensures value { result ≡ measuring_of feed.now (length text.old) }
    ensures text_after { text.new ≡ text_after feed.now text.old }
{
    let unfolded = unfold_feed(feed, text);
    if !unfolded.is_done() {
        return Reading::from(unfolded);
    }
    measure_text(&text[..unfolded.length])
}

// Counts the rows first, and puts them where there is room for all.
fn fill_used(
    text: &[u8],
    components: &mut [u32],
    properties: &mut [u32],
    parameters: &mut [u32],
) -> Reading
    requires { length text.now ≤ longest }
    ensures value { result ≡ fill_from (lent text.now components.old properties.old parameters.old) }
    ensures tables_after { lent text.now components.new properties.new parameters.new
        ≡ left_filled (lent text.now components.old properties.old parameters.old) }
{
    let told = ask_room(measure_text(text), components, properties, parameters);
    if told.is_done() {
        let _ = nesting::pass(text, components, properties, parameters);
    }
    told
}

// Puts the rows at once into tables that are all zero, and clears them again where that is refused.
fn fill_new(
    text: &[u8],
    components: &mut [u32],
    properties: &mut [u32],
    parameters: &mut [u32],
) -> Reading
    requires text_len_bound { length text.now ≤ longest }
    requires all_zero { (only is_zero components.old ≡ true) × (only is_zero properties.old ≡ true) × (only is_zero parameters.old ≡ true) }
    ensures value { result ≡ fill_from (lent text.now components.old properties.old parameters.old) }
    ensures tables_after { lent text.now components.new properties.new parameters.new
        ≡ left_filled (lent text.now components.old properties.old parameters.old) }
{
    let outcome = nesting::pass(text, components, properties, parameters);
    let told = ask_room(
        tell_outcome(outcome, text.len()),
        components,
        properties,
        parameters,
    );
    if !told.is_done() {
        zeros::clear(components);
        zeros::clear(properties);
        zeros::clear(parameters);
    }
    told
}

// Whether a table is all zero. One that takes more than twice the bytes of its text is not looked through, as that might cost more than it spares; and
// a used one mostly shows in its first word.
fn is_new(table: &[u32], size: usize) -> bool
    ensures { result ≡ true → only is_zero table.now ≡ true }
{
    if size / 2 < table.len() || table.first().is_some_and(|word| *word != 0) {
        return false;
    }
    zeros::all_zero(table)
}

// Whether all three are.
fn are_new(size: usize, components: &[u32], properties: &[u32], parameters: &[u32]) -> bool
    ensures { result ≡ true → (only is_zero components.now ≡ true) × (only is_zero properties.now ≡ true) × (only is_zero parameters.now ≡ true) }
{
    is_new(components, size) && is_new(properties, size) && is_new(parameters, size)
}

// Reads an unfolded text into the tables, or refuses and leaves them as they were. With new tables the text is read once, with others twice.
pub fn fill_components(
    text: &[u8],
    components: &mut [u32],
    properties: &mut [u32],
    parameters: &mut [u32],
) -> Reading
    ensures value { result ≡ fill_from (lent text.now components.old properties.old parameters.old) }
    ensures tables_after { lent text.now components.new properties.new parameters.new
        ≡ left_filled (lent text.now components.old properties.old parameters.old) }
{
    if octets::LONGEST < text.len() {
        return Reading::refusal(Answer::TooLong, 0, 0);
    }
    if are_new(text.len(), components, properties, parameters) {
        return fill_new(text, components, properties, parameters);
    }
    fill_used(text, components, properties, parameters)
}

// Unfolds a feed into the text and reads that into the tables, in one call.
pub fn read_components(
    feed: &[u8],
    text: &mut [u8],
    components: &mut [u32],
    properties: &mut [u32],
    parameters: &mut [u32],
) -> Reading
    ensures value { result ≡ read_into feed.now (lent text.old components.old properties.old parameters.old) }
    ensures lent_after { lent text.new components.new properties.new parameters.new
        ≡ left feed.now (lent text.old components.old properties.old parameters.old) }
{
    let unfolded = unfold_feed(feed, text);
    if !unfolded.is_done() {
        return Reading::from(unfolded);
    }
    fill_components(&text[..unfolded.length], components, properties, parameters)
}
