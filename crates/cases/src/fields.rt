// A case is a line of fields with bars between them: the call, the name, and what the call is given. A field holds bytes, some as their numbers between angle
// brackets, or numbers with a space between two.
use arrayvec::ArrayVec;
use tables::Tables;
use trial::Room;

#[derive(Clone, Copy)]
pub struct Case<'a>(pub &'a [u8]);

impl<'a> Case<'a> {
    // Field n: empty where there are not so many.
    pub fn field(self, n: usize) -> &'a [u8] {
        self.0.split(|b| *b == b'|').nth(n).unwrap_or(&[])
    }

    pub fn call(self) -> &'a [u8] {
        self.field(0)
    }

    pub fn name(self) -> &'a [u8] {
        self.field(1)
    }

    // Number i of field n: 0 where there are not so many.
    pub fn number(self, n: usize, i: usize) -> usize {
        number(self.field(n), i)
    }

    // Field n as the words of a table: none where it has more than N.
    pub fn table<const N: usize>(self, n: usize) -> ArrayVec<u32, N> {
        let field = self.field(n);
        let mut table = ArrayVec::new();
        if field.is_empty() {
            return table;
        }
        for digits in field.split(|b| *b == b' ') {
            let word = (decimal(digits) & 0xffff_ffff) as u32;
            if table.try_push(word).is_err() {
                return ArrayVec::new();
            }
        }
        table
    }

    // The three tables whose words stand in the fields from the fifth on.
    pub fn words<const N: usize>(self) -> Words<N> {
        Words {
            components: self.table(4),
            properties: self.table(5),
            parameters: self.table(6),
        }
    }

    // Three tables of as many words as the numbers of the fourth field from number i on say.
    pub fn zeros<const N: usize>(self, i: usize) -> Words<N> {
        Words {
            components: zeros(self.number(3, i)),
            properties: zeros(self.number(3, i.saturating_add(1))),
            parameters: zeros(self.number(3, i.saturating_add(2))),
        }
    }
}

fn zeros<const N: usize>(count: usize) -> ArrayVec<u32, N> {
    let mut table = ArrayVec::from([0; N]);
    table.truncate(count);
    table
}

// The words of three tables, at most N of each.
#[derive(Drop)]
pub struct Words<const N: usize> {
    components: ArrayVec<u32, N>,
    properties: ArrayVec<u32, N>,
    parameters: ArrayVec<u32, N>,
}

impl<const N: usize> Words<N> {
    // They and a text.
    pub fn tables<'a>(&'a self, text: &'a [u8]) -> Tables<'a> {
        Tables {
            text,
            components: self.components.as_slice(),
            properties: self.properties.as_slice(),
            parameters: self.parameters.as_slice(),
        }
    }

    pub fn room(&mut self) -> Room<'_> {
        Room {
            components: self.components.as_mut_slice(),
            properties: self.properties.as_mut_slice(),
            parameters: self.parameters.as_mut_slice(),
        }
    }
}

// The number that decimal digits make. It wraps, and so does a byte that is no digit.
fn decimal(digits: &[u8]) -> usize {
    digits
        .iter()
        .fold(0usize, |value, digit| shifted(value, *digit))
}

// Ten times the value, and one digit more.
fn shifted(value: usize, digit: u8) -> usize {
    value
        .wrapping_mul(10)
        .wrapping_add(usize::from(digit))
        .wrapping_sub(usize::from(b'0'))
}

// Number i of those that stand with a space between two: 0 where there are not so many.
pub fn number(numbers: &[u8], i: usize) -> usize {
    numbers.split(|b| *b == b' ').nth(i).map_or(0, decimal)
}

// Lays the bytes of a field, and counts them.
pub fn lay_bytes(field: &[u8], out: &mut [u8]) -> usize {
    let mut end = 0;
    // The number that has begun, if one has.
    let mut open: Option<usize> = None;
    for b in field {
        match (*b, open) {
            (b'<', _) => open = Some(0),
            (b'>', _) => {
                end = octets::lay_byte((open.unwrap_or(0) & 0xff) as u8, out, end);
                open = None;
            }
            (digit, Some(number)) => open = Some(shifted(number, digit)),
            (other, None) => end = octets::lay_byte(other, out, end),
        }
    }
    end
}
