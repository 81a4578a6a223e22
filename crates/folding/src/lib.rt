// The two folds of a line: the strict one of RFC 5545, section 3.1, which takes UTF-8 and which the writer uses, and the repository's.
// Here document 01 departs from the RFC: docs/DIFFERENCES.md, R-20, R-21.
#![tactic(auto)]

ghost use Rattle.std.specs.Prelude.{◌≡◌, ◌+◌, ◌<◌, ◌≤◌, length, ◌++◌};
ghost use Rattle.octets.specs.Answers.{answer_number};
ghost use Rattle.octets.specs.Laid.{laid, Lays};
ghost use Rattle.octets.specs.Runs.{run, only};
ghost use Rattle.characters.specs.Units.{units};
ghost use Rattle.folding.specs.Pieces.{brk};
ghost use Rattle.folding.specs.Strict.{folded_units, folded_piece, strict};
ghost use Rattle.folding.specs.Repository.{cut, repository};
ghost use Rattle.folding.specs.Answers.{foldable, byte_answer, passed, strict_line, repository_line, fold_answer, fold_out};

use octets::{Answer, Output};

// How many octets the present physical line still takes.
#[derive(Clone, Copy)]
pub struct Column {
    pub left: usize,
}

impl Column {
    // The octets of the first physical line.
    pub const FIRST: usize = 75;

    // The octets of each later one, without its space.
    pub const LATER: usize = 74;

    pub fn new(left: usize) -> Self
        ensures { result.left ≡ left }
    {
        Self { left }
    }
}

// A piece folded: where the next one goes on, and the octets, with their breaks.
#[derive(Clone, Copy)]
pub struct Folded {
    pub column: Column,
    pub length: usize,
}

// Lays what stands between two physical lines, CRLF and a space, byte by byte: for three of them that is quicker than as one piece.
fn lay_break(out: &mut [u8], at: usize) -> usize
    ensures { Lays at brk out.old out.new result }
{
    let cr = octets::lay_byte(b'\r', out, at);
    let lf = octets::lay_byte(b'\n', out, cr);
    octets::lay_byte(b' ', out, lf)
}

// Lays a piece and the break behind it.
fn lay_line(piece: &[u8], out: &mut [u8], at: usize) -> usize
    ensures { Lays at (piece.now ++ brk) out.old out.new result }
{
    let end = octets::lay(piece, out, at);
    lay_break(out, end)
}

// Folds a piece of a line strictly, from the column on, over the front of the buffer.
pub fn fold_piece(column: Column, piece: &[u8], out: &mut [u8]) -> Folded
    ensures value { result ≡ folded_piece column.left piece.now }
    ensures out_after { out.new ≡ laid (folded_units column.left (units piece.now)) out.old }
{
    let mut left = column.left;
    let mut rest = piece;
    let mut length = 0;
    while left < rest.len() {
        let (line, more) = rest.split_at(characters::start_within(rest, left));
        length = lay_line(line, out, length);
        rest = more;
        left = Column::LATER;
    }
    length = octets::lay(rest, out, length);
    Folded {
        column: Column::new(left - rest.len()),
        length,
    }
}

// The octets between two physical lines.
const BREAK: usize = 3;

// Counts a piece as `fold_piece` lays it, by a loop of its own: laying over no buffer took up to a third longer, and each fold counts first.
pub fn count_piece(column: Column, piece: &[u8]) -> Folded
    ensures { result ≡ folded_piece column.left piece.now }
{
    let mut left = column.left;
    let mut rest = piece;
    let mut length: usize = 0;
    while left < rest.len() {
        let taken = characters::start_within(rest, left);
        length = length.saturating_add(taken).saturating_add(BREAK);
        rest = &rest[taken..];
        left = Column::LATER;
    }
    Folded {
        column: Column::new(left - rest.len()),
        length: length.saturating_add(rest.len()),
    }
}

// How far on the repository cuts: at the width, or a byte before it where the byte there is white.
fn cut_at(width: usize, rest: &[u8]) -> usize
    requires { (0 < width) × (width < length rest.now) }
    ensures { result ≡ cut width rest.now }
{
    match rest[width] {
        9..=13 | b' ' => width - 1,
        _ => width,
    }
}

// Folds a line as the repository does, over the front of the buffer.
fn fold_repository(line: &[u8], out: &mut [u8]) -> usize
    ensures { Lays 0 (repository line.now) out.old out.new result }
{
    let mut width = Column::FIRST;
    let mut rest = line;
    let mut length = 0;
    while Column::FIRST < rest.len() {
        let (piece, more) = rest.split_at(cut_at(width, rest));
        length = lay_line(piece, out, length);
        rest = more;
        width = Column::LATER;
    }
    octets::lay(rest, out, length)
}

// Whether no byte is an LF and every byte is below 128. The loop has no branch, so that it becomes vector code.
fn all_foldable(line: &[u8]) -> bool
    ensures { result ≡ only foldable line.now }
{
    let mut fine = true;
    for b in line {
        fine &= (*b != b'\n') & b.is_ascii();
    }
    fine
}

// How many bytes are looked at together before it is told whether to go on.
const BLOCK: usize = 65_536;

// How many bytes at the front are seen to be foldable, block by block: all of them, or fewer than there are.
fn foldable_front(line: &[u8]) -> usize
    ensures { result ≤ run foldable line.now }
{
    let mut seen = 0;
    for block in line.chunks(BLOCK) {
        if !all_foldable(block) {
            return seen;
        }
        seen += block.len();
    }
    seen
}

// What refuses a line for its bytes: an LF, or a byte that the fold does not take, of which `sound` stand in front.
fn check_bytes(line: &[u8], answer: Answer, sound: usize) -> Result<(), Output>
    requires { 0 < answer_number answer }
    ensures { result ≡ passed (byte_answer (answer_number answer) sound line.now) }
{
    let end = octets::find_near(line, 0, b'\n');
    if end < line.len() {
        return Err(Output::refusal(Answer::HasBreak, end));
    }
    if sound < line.len() {
        return Err(Output::refusal(answer, sound));
    }
    Ok(())
}

// What refuses a line in the strict fold. What is wrong is looked for only where something may be.
fn check_strict(line: &[u8]) -> Result<(), Output>
    ensures { result ≡ passed (strict_line line.now) }
{
    if line.len() > octets::LONGEST {
        return Err(Output::refusal(Answer::TooLong, 0));
    }
    let front = foldable_front(line);
    if line.len() <= front {
        return Ok(());
    }
    if characters::is_common_text(&line[front..]) {
        return Ok(());
    }
    check_bytes(line, Answer::NotUtf8, characters::utf8_run(line))
}

// The same in the repository's.
fn check_repository(line: &[u8]) -> Result<(), Output>
    ensures { result ≡ passed (repository_line line.now) }
{
    if octets::LONGEST < line.len() {
        return Err(Output::refusal(Answer::TooLong, 0));
    }
    if all_foldable(line) {
        return Ok(());
    }
    let sound = octets::run_while(line, |b| b.is_ascii());
    check_bytes(line, Answer::NotAscii, sound)
}

// The strict fold of a line, counted first and then written: a refusal changes nothing.
pub fn fold_strict(line: &[u8], out: &mut [u8]) -> Output
    ensures { (result ≡ fold_answer strict_line strict line.now (length out.old))
        × (out.new ≡ fold_out strict_line strict line.now out.old) }
{
    if let Err(refusal) = check_strict(line) {
        return refusal;
    }
    // Not `lay_if_room`: counting by a loop of its own is faster than laying over no buffer.
    let first = Column::new(Column::FIRST);
    let told = octets::room_for(count_piece(first, line).length, out.len());
    if told.is_done() {
        fold_piece(first, line, out);
    }
    told
}

// The repository's fold of a line, in the same way.
pub fn fold_line(line: &[u8], out: &mut [u8]) -> Output
    ensures { (result ≡ fold_answer repository_line repository line.now (length out.old))
        × (out.new ≡ fold_out repository_line repository line.now out.old) }
{
    if let Err(refusal) = check_repository(line) {
        return refusal;
    }
    octets::lay_if_room(|buffer| fold_repository(line, buffer), out)
}
