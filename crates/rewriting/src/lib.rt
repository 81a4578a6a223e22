// The canonical line of a case of the writer: tables and a text that are written, or a feed that is read and written.
#![tactic(auto)]

use canonical::Line;
use octets::Output;
use tables::Tables;
use trial::Room;

// Lays the words of a case over a table, as far as it goes.
fn take_words(case: &[u8], table: &mut [u32]) {
    let (chunks, _) = case.as_chunks::<4>();
    for (word, bytes) in table.iter_mut().zip(chunks) {
        *word = u32::from_le_bytes(*bytes);
    }
}

// So many words of a table: none where they reach outside.
fn words_of(table: &[u32], start: usize, count: usize) -> &[u32] {
    table.get(start..start.saturating_add(count)).unwrap_or(&[])
}

// One line, here and in the programs that write: in a crate that they share it would make the lister depend on the writer.
fn write(t: Tables, out: &mut [u8]) -> Output {
    writing::write_components(t.text, t.components, t.properties, t.parameters, out)
}

// Lays what is written of the words of a case, which are three counts of words and so many words of each table, and of the text behind them.
fn lay_written(case: &[u8], text: &mut [u8], words: &mut [u32], line: &mut Line) {
    take_words(case, words);
    let [components, properties, parameters, ..] = *words else {
        return line.refuse();
    };
    let second = 3 + components as usize;
    let third = second + properties as usize;
    let behind = third + parameters as usize;
    let from = 4 * behind.min(case.len() / 4);
    let tables = Tables {
        text: &case[from..],
        components: words_of(words, 3, components as usize),
        properties: words_of(words, second, properties as usize),
        parameters: words_of(words, third, parameters as usize),
    };
    line.output(write(tables, text), text);
}

// Reads a feed and lays what is written of it. It stands in the line's buffer first, and then where the text was.
fn lay_rewritten(case: &[u8], text: &mut [u8], room: &mut Room, line: &mut Line) {
    let done = room.read(case, text);
    let Some(tables) = room.tables(done, text) else {
        return line.refuse();
    };
    let answered = write(tables, line.rest());
    octets::put(octets::view(line.rest(), 0, answered.length), text);
    line.output(answered, text);
}

// Lays the answer to a case of one of the parts here or below; the text and the room are lent for the work.
pub fn lay_answer(part: u8, case: &[u8], text: &mut [u8], room: &mut Room, line: &mut Line) {
    // Letters, as the frames of the comparison have them; each crate knows its own alone.
    match part {
        b'w' => lay_written(case, text, room.parameters, line),
        b'W' => lay_rewritten(case, text, room, line),
        _ => canonical::lay_answer(part, case, text, room, line),
    }
}
