// Cases with 64 components or more inside each other.
use crate::calls::{self, WORDS};
use cases::fields::Case;
use cases::lent::{Shown, front_mut, last, mark_bytes, mark_room};
use octets::Output;
use std::io;
use tables::Tables;
use trial::{Numbers, Room};

// The most bytes of a feed, and 65 rows.
const DEEP: usize = 1024;

const ROWS: usize = 260;

// 64 lines `BEGIN:A`, then these bytes, and so many lines `END:A`. Counts the bytes.
fn nest(case: Case, bytes: &[u8], feed: &mut [u8]) -> usize {
    let opened = trial::repeat(b"BEGIN:A\n", 64, feed, 0);
    let middle = octets::lay(bytes, feed, opened);
    trial::repeat(b"END:A\n", case.number(3, 0), feed, middle)
}

// Reads such a feed into a text of two bytes more and rows for 65 components. The ends of both are printed.
pub fn read(rt: &impl Print, case: Case, bytes: &[u8]) -> io::Result<()> {
    let mut nested = [0u8; DEEP];
    let end = nest(case, bytes, &mut nested);
    let feed = octets::view(&nested, 0, end);
    let mut buffer = [0u8; DEEP];
    mark_bytes(&mut buffer);
    let text = front_mut(&mut buffer, feed.len().saturating_add(2));
    let mut components = [0u32; ROWS];
    let mut room = Room {
        components: &mut components,
        properties: &mut [0; 6],
        parameters: &mut [0; 7],
    };
    mark_room(&mut room);
    let read = room.read(feed, text);
    print!(rt; "{}, text ends {}", Numbers(read), Shown(last(text, 16)))?;
    print!(rt; ", components end{}", Numbers(last(&components, 8)))
}

// Measures such a feed into a text of two bytes more. The end of the text is printed.
pub fn measure(rt: &impl Print, case: Case, bytes: &[u8]) -> io::Result<()> {
    let mut feed = [0u8; DEEP];
    let end = nest(case, bytes, &mut feed);
    let mut buffer = [0u8; DEEP];
    mark_bytes(&mut buffer);
    let text = front_mut(&mut buffer, end.saturating_add(2));
    let measured = reading::measure_components(octets::view(&feed, 0, end), text);
    print!(rt;
        "{}, text ends {}",
        Numbers(measured),
        Shown(last(text, 16))
    )
}

// Fills rows for 65 components from such a text. The end of them is printed.
pub fn fill(rt: &impl Print, case: Case, bytes: &[u8]) -> io::Result<()> {
    let mut text = [0u8; DEEP];
    let end = nest(case, bytes, &mut text);
    let mut components = [0u32; ROWS];
    let mut room = Room {
        components: &mut components,
        properties: &mut [0; 6],
        parameters: &mut [0; 7],
    };
    mark_room(&mut room);
    let filled = room.fill(octets::view(&text, 0, end));
    print!(rt;
        "{}, components end{}",
        Numbers(filled),
        Numbers(last(&components, 8))
    )
}

// How many components stand inside each other, and behind the room the words of the properties.
pub fn write(case: Case, out: &mut [u8]) -> Output {
    let mut components = [0u32; ROWS];
    let properties = case.table::<WORDS>(4);
    let nested = Tables {
        text: b"A",
        components: trial::nest_rows(case.number(2, 0), &mut components),
        properties: properties.as_slice(),
        parameters: &[],
    };
    calls::write(nested, out)
}
