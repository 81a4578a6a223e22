// One line of a calendar, folded strictly and closed by CRLF, laid over the front of what is left of the output, or only counted.
#![tactic(auto)]

ghost use Rattle.std.specs.Prelude.{◌≡◌, ℕ, List, true, [], ◌∷◌, ◌++◌, ◌+◌, ◌≤◌, length};
ghost use Rattle.std.proofs.Common.{le_refl, zero-le};
ghost use Rattle.octets.specs.Bytes.{cr, lf, colon, ascii};
ghost use Rattle.octets.specs.Runs.{only};
ghost use Rattle.octets.specs.Laid.{counted, Lays};
ghost use Rattle.octets.specs.Views.{viewed};
ghost use Rattle.tables.specs.Trees.{present, parameter_of};
ghost use Rattle.printing.specs.Lines.{closed_line, begin_line, end_line, value_text, parameter_text, parameters_text};
ghost use Rattle.printing.specs.Pens.{Penned, key_of, value_of, own_of, behind, line_of, printed_line};

use folding::Column;
use tables::{ParameterRow, PropertyRow, Row, Tables};

// Where a line that is laid piece by piece goes on: the octets that its physical line still takes, and the place in the buffer.
#[derive(Clone, Copy)]
pub struct Pen {
    pub left: usize,
    pub at: usize,
}

impl Pen {
    // The front of a line, and of the buffer.
    const START: Pen = Pen {
        left: Column::FIRST,
        at: 0,
    };

    // Lays a piece of a line, folded strictly, from the pen on. A piece that the physical line takes whole is laid as it is.
    fn piece<S: Sink>(self, piece: &[u8], out: &mut [u8]) -> Pen
        ensures { Penned self piece.now (S.seen out.old) (S.seen out.new) result }
    {
        if piece.len() <= self.left {
            return Pen {
                left: self.left - piece.len(),
                at: S::lay(piece, out, self.at),
            };
        }
        S::fold(self, piece, out)
    }

    // Lays one byte in the same way.
    fn byte<S: Sink>(self, b: u8, out: &mut [u8]) -> Pen
        ensures { Penned self (b ∷ []) (S.seen out.old) (S.seen out.new) result }
    {
        if 0 < self.left {
            return Pen {
                left: self.left - 1,
                at: S::lay_byte(b, out, self.at),
            };
        }
        self.piece::<S>(&[b], out)
    }

    // Lays a byte of ASCII, which ends any character, and the piece behind it.
    fn after<S: Sink>(self, mark: u8, piece: &[u8], out: &mut [u8]) -> Pen
        requires { ascii mark ≡ true }
        ensures { Penned self (mark ∷ piece.now) (S.seen out.old) (S.seen out.new) result }
    {
        let marked = self.byte::<S>(mark, out);
        marked.piece::<S>(piece, out)
    }

    // Lays a value that is present, in quotes where it wants them.
    fn value<S: Sink>(self, value: &[u8], out: &mut [u8]) -> Pen
        ensures { Penned self (value_text (present value.now)) (S.seen out.old) (S.seen out.new) result }
    {
        if !quoting::wraps(value) {
            return self.after::<S>(b'=', value, out);
        }
        let opened = self.piece::<S>(b"=\"", out);
        let end = opened.piece::<S>(value, out);
        end.byte::<S>(b'"', out)
    }

    // Lays a parameter: an absent value leaves its key alone.
    fn parameter<S: Sink>(self, text: &[u8], p: ParameterRow, out: &mut [u8]) -> Pen
        ensures { Penned self (parameter_text (parameter_of text.now p)) (S.seen out.old) (S.seen out.new) result }
    {
        let key = octets::view(text, p.key_start as usize, p.key_len as usize);
        let named = self.after::<S>(b';', key, out);
        if p.present == 0 {
            return named;
        }
        let value = octets::view(text, p.value_start as usize, p.value_len as usize);
        named.value::<S>(value, out)
    }

    // Lays the parameters of a property, up to the row `next`.
    fn parameters<S: Sink>(self, line: &Line, next: usize, out: &mut [u8]) -> Pen
        requires { next ≡ behind line.now }
        ensures { Penned self (parameters_text (own_of line.now)) (S.seen out.old) (S.seen out.new) result }
    {
        let mut pen = self;
        for row in line.first..next {
            let p = ParameterRow::at(line.tables.parameters, row);
            pen = pen.parameter::<S>(line.tables.text, p, out);
        }
        pen
    }

    // Lays CRLF, which closes the line.
    fn close<S: Sink>(self, out: &mut [u8]) -> usize
        ensures { Lays self.at (cr ∷ lf ∷ []) (S.seen out.old) (S.seen out.new) result }
    {
        let next = S::lay_byte(b'\r', out, self.at);
        S::lay_byte(b'\n', out, next)
    }
}

// Where the bytes of a line go: over the buffer, or nowhere, where they are only counted.
trait Sink {
    ghost seen: { List ℕ → List ℕ };

    fn lay(bytes: &[u8], out: &mut [u8], at: usize) -> usize
        ensures { Lays at bytes.now (seen out.old) (seen out.new) result };

    fn lay_byte(b: u8, out: &mut [u8], at: usize) -> usize
        ensures { Lays at (b ∷ []) (seen out.old) (seen out.new) result };

    // Folds a piece that the physical line does not take whole.
    fn fold(pen: Pen, piece: &[u8], out: &mut [u8]) -> Pen
        ensures { Penned pen piece.now (seen out.old) (seen out.new) result };

    ghost no_longer: { (xs : List ℕ) → length (seen xs) ≤ length xs };
}

// Over the buffer.
struct Laid;

impl Sink for Laid {
    ghost seen = { λ xs. xs };

    ghost no_longer = { λ xs. le_refl (length xs) };

    fn lay(bytes: &[u8], out: &mut [u8], at: usize) -> usize {
        octets::lay(bytes, out, at)
    }

    fn lay_byte(b: u8, out: &mut [u8], at: usize) -> usize {
        octets::lay_byte(b, out, at)
    }

    fn fold(pen: Pen, piece: &[u8], out: &mut [u8]) -> Pen {
        let from = pen.at.min(out.len());
        let column = Column::new(pen.left);
        let folded = folding::fold_piece(column, piece, &mut out[from..]);
        Pen {
            left: folded.column.left,
            at: pen.at.saturating_add(folded.length),
        }
    }
}

// Nowhere: what is laid is counted, and the buffer stays.
struct Counted;

impl Sink for Counted {
    ghost seen = { λ xs. [] };

    ghost no_longer = { λ xs. zero-le };

    fn lay(bytes: &[u8], out: &mut [u8], at: usize) -> usize {
        at.saturating_add(bytes.len())
    }

    fn lay_byte(b: u8, out: &mut [u8], at: usize) -> usize {
        at.saturating_add(1)
    }

    fn fold(pen: Pen, piece: &[u8], out: &mut [u8]) -> Pen {
        let counted = folding::count_piece(Column::new(pen.left), piece);
        Pen {
            left: counted.column.left,
            at: pen.at.saturating_add(counted.length),
        }
    }
}

// Lays the line that opens or closes a component. The mark is any text of ASCII, as the calls of this name take it.
fn lay_mark<S: Sink>(mark: &[u8], name: &[u8], out: &mut [u8]) -> usize
    requires { only ascii mark.now ≡ true }
    ensures { Lays 0 (closed_line (mark.now ++ name.now)) (S.seen out.old) (S.seen out.new) result }
{
    let marked = Pen::START.piece::<S>(mark, out);
    let end = marked.piece::<S>(name, out);
    end.close::<S>(out)
}

// Lays the line that opens or closes a component: BEGIN or END with its colon, and the name.
pub fn print_mark(mark: &[u8], name: &[u8], out: &mut [u8]) -> usize
    requires { only ascii mark.now ≡ true }
    ensures { Lays 0 (closed_line (mark.now ++ name.now)) out.old out.new result }
{
    lay_mark::<Laid>(mark, name, out)
}

// How long the lines BEGIN and END of a component are.
pub fn count_marks(name: &[u8]) -> usize
    ensures { result ≡ counted (length (closed_line (begin_line name.now)) + length (closed_line (end_line name.now))) }
{
    let opened = lay_mark::<Counted>(b"BEGIN:", name, &mut []);
    opened.saturating_add(lay_mark::<Counted>(b"END:", name, &mut []))
}

// A property to be laid: the tables, its row and the number of that, and the first parameter row that may be its own.
#[derive(Clone, Copy)]
pub struct Line<'a> {
    pub tables: &'a Tables<'a>,
    pub row: PropertyRow,
    pub number: usize,
    pub first: usize,
}

// A property line as it was laid: its bytes, and the parameter row behind its own.
#[derive(Clone, Copy)]
pub struct Printed {
    pub length: usize,
    pub next: usize,
}

impl<'a> Line<'a> {
    fn key(&self) -> &'a [u8]
        ensures { result.now ≡ key_of self.now }
    {
        let p = self.row;
        octets::view(self.tables.text, p.key_start as usize, p.key_len as usize)
    }

    fn value(&self) -> &'a [u8]
        ensures { result.now ≡ value_of self.now }
    {
        let p = self.row;
        octets::view(
            self.tables.text,
            p.value_start as usize,
            p.value_len as usize,
        )
    }

    // The row behind its parameters, which are the run that begins at `first`.
    fn next(&self) -> usize
        ensures { result ≡ behind self.now }
    {
        let rows = ParameterRow::count(self.tables.parameters);
        for row in self.first..rows {
            if ParameterRow::at(self.tables.parameters, row).property as usize != self.number {
                return row;
            }
        }
        rows.max(self.first)
    }

    // Whether key, colon and value stand in the text one behind the other, as a reading leaves them.
    fn stands_whole(&self) -> bool
        ensures { result ≡ true → viewed self.now.tables.now.text.now self.now.row.key_start (self.now.row.key_len + 1 + self.now.row.value_len)
            ≡ key_of self.now ++ colon ∷ value_of self.now }
    {
        let p = self.row;
        let colon = p.key_start as usize + p.key_len as usize;
        let value = p.value_start as usize;
        if value != colon + 1 {
            return false;
        }
        if self.tables.text.len() < value + p.value_len as usize {
            return false;
        }
        self.tables.text[colon] == b':'
    }

    // Lays the line but for its end. One without parameters that stands in the text from its key to its value is laid as it stands.
    fn lay<S: Sink>(&self, next: usize, out: &mut [u8]) -> Pen
        requires { next ≡ behind self.now }
        ensures { Penned Pen.START (line_of self.now) (S.seen out.old) (S.seen out.new) result }
    {
        if (next == self.first) & self.stands_whole() {
            let p = self.row;
            let length = p.key_len as usize + 1 + p.value_len as usize;
            let line = octets::view(self.tables.text, p.key_start as usize, length);
            return Pen::START.piece::<S>(line, out);
        }
        let named = Pen::START.piece::<S>(self.key(), out);
        let listed = named.parameters::<S>(self, next, out);
        listed.after::<S>(b':', self.value(), out)
    }

    // Lays the line and its end.
    fn print<S: Sink>(&self, out: &mut [u8]) -> Printed
        ensures lays { Lays 0 (printed_line self.now) (S.seen out.old) (S.seen out.new) result.length }
        ensures next_value { result.next ≡ behind self.now }
    {
        let next = self.next();
        let end = self.lay::<S>(next, out);
        Printed {
            length: end.close::<S>(out),
            next,
        }
    }
}

// Lays the line of a property.
pub fn print_property(line: &Line, out: &mut [u8]) -> Printed
    ensures lays { Lays 0 (printed_line line.now) out.old out.new result.length }
    ensures next_value { result.next ≡ behind line.now }
{
    line.print::<Laid>(out)
}

// How long the line of a property is, and the row behind its parameters.
pub fn count_property(line: &Line) -> Printed
    ensures length_value { result.length ≡ counted (length (printed_line line.now)) }
    ensures next_value { result.next ≡ behind line.now }
{
    line.print::<Counted>(&mut [])
}
