// Answers framed cases from standard input with a line each: four bytes of length, a letter that names the part, and the case.
#![tactic(auto)]

use std::io;
use std::io::Read;
use trial::{Room, read_full, say};

// Room for all that a case of 65,536 bytes can hold, and for its line.
const FRAME: usize = 65_537;

const TEXT: usize = 131_072;

const COMPONENTS: usize = 20_000;

const PROPERTIES: usize = 163_840;

const PARAMETERS: usize = 393_216;

const LINE: usize = 1_048_576;

// The length of the frame that stands next in the input, if one does.
fn next_length(input: &mut impl Read) -> io::Result<Option<usize>> {
    let mut head = [0u8; 4];
    if read_full(input, &mut head)? < head.len() {
        return Ok(None);
    }
    Ok(Some(u32::from_le_bytes(head) as usize))
}

// The buffers for a frame, for the work and for its line.
#[derive(Drop)]
struct Buffers<'a> {
    frame: &'a mut [u8],
    text: &'a mut [u8],
    room: Room<'a>,
    out: &'a mut [u8],
}

impl<'a> Buffers<'a> {
    // An array of this size is lent as a slice only by way of a function that takes the array.
    fn new(
        frame: &'a mut [u8; FRAME],
        text: &'a mut [u8; TEXT],
        components: &'a mut [u32; COMPONENTS],
        properties: &'a mut [u32; PROPERTIES],
        parameters: &'a mut [u32; PARAMETERS],
        out: &'a mut [u8; LINE],
    ) -> Self {
        Buffers {
            frame,
            text,
            room: Room {
                components,
                properties,
                parameters,
            },
            out,
        }
    }

    // Reads a frame and writes its line. Answers whether to go on: not at the end, nor at a frame that is too long or cut short.
    fn answer_one(&mut self, rt: &impl Print, input: &mut impl Read) -> io::Result<bool> {
        let Some(length) = next_length(input)? else {
            return Ok(false);
        };
        let Some(frame) = self.frame.get_mut(..length) else {
            println!(rt; "too long")?;
            return Ok(false);
        };
        if read_full(input, frame)? < length {
            return Ok(false);
        }
        let [part, case @ ..] = frame else {
            println!(rt; "err")?;
            return Ok(true);
        };
        let done = spelling::answer(*part, case, self.text, &mut self.room, self.out);
        if done.is_done() {
            say(rt, octets::view(self.out, 0, done.length))?;
        } else {
            // The line found no room.
            println!(rt; "err")?;
        }
        Ok(true)
    }

    // A proved loop has to end, and nothing says that the input does. So it counts up to a number that no run reaches.
    fn answer_all(&mut self, rt: &impl Print, input: &mut impl Read) -> io::Result<()> {
        for _ in 0..u64::MAX {
            if !self.answer_one(rt, input)? {
                break;
            }
        }
        Ok(())
    }
}

fn main(rt: HostRuntime) -> io::Result<()> {
    Buffers::new(
        &mut [0; FRAME],
        &mut [0; TEXT],
        &mut [0; COMPONENTS],
        &mut [0; PROPERTIES],
        &mut [0; PARAMETERS],
        &mut [0; LINE],
    )
    .answer_all(&rt, &mut rt.stdin())
}
