// The canonical line of a case of escaped text: a text that is written as a value, or a value that is read in one of the modes.
#![tactic(auto)]

use canonical::Line;
use escapes::Mode;
use octets::Output;
use trial::Room;

// Lays the line of a case of any part over the front of the buffer; the text and the room are lent for the work.
pub fn answer(part: u8, case: &[u8], text: &mut [u8], room: &mut Room, out: &mut [u8]) -> Output {
    let mut line = Line::new(out);
    // Letters, as the frames of the comparison have them; each crate knows its own alone.
    match part {
        b'e' => line.output(escapes::write_text(case, text), text),
        b't' => line.output(escapes::read_text(Mode::Repository, case, text), text),
        b'T' => line.output(escapes::read_text(Mode::Strict, case, text), text),
        _ => rewriting::lay_answer(part, case, text, room, &mut line),
    }
    line.close()
}
