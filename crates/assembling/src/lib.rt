// The assembler for a listing's text (specs/Assembling.antt; listing_reading reads a line).
#![tactic(auto)]

ghost use Rattle.std.specs.Prelude.{◌≡◌, ◌+◌, ◌≤◌, length};
ghost use Rattle.std.proofs.lemmas.List.Edits.{sets};
ghost use Rattle.listing_codes.specs.Keys.{Keys};
ghost use Rattle.listing_reading.specs.Reading.{line_in};
ghost use Rattle.assembling.specs.Assembling.{piece_bytes, follows, line_step, outcome_of, good, bytes_in};
ghost use Rattle.assembling.specs.Checks.{checked_of, refusal_of};
ghost use Rattle.assembling.specs.Assembling.{told_assembled, assemble_answer, assemble_buffer};

use listing_codes::{Line, Piece, Unread};

// What is wrong with a line: it is not of the published form or does not follow on; its branch target is beyond its offset.
#[derive(Clone, Copy)]
pub enum Fault {
    Malformed,
    TooFar,
}

// The first line's address, and how many bytes were written.
#[derive(Clone, Copy)]
pub struct Span {
    pub first: u16,
    pub bytes: usize,
}

// Why no bytes were written: by a text's first bad line, counted from 1; or the buffer is shorter than its bytes.
#[derive(Clone, Copy)]
pub enum AssembleRefusal {
    Malformed(usize),
    TooFar(usize),
    NoRoom,
}

// Whether a line may be at an address: the first one anywhere, each other one where it is due.
fn follows_on(due: Option<u32>, address: u16) -> bool
    ensures { result ≡ follows due address }
{
    match due {
        None => true,
        Some(next) => next == address as u32,
    }
}

// A line read is taken where the one before it has ended.
fn step_on(read: Result<Line, Unread>, due: Option<u32>) -> Result<Line, Fault>
    ensures { result ≡ line_step read due }
{
    match read {
        Err(Unread::Bad) => Err(Fault::Malformed),
        Err(Unread::Far(address)) => if follows_on(due, address) {
            Err(Fault::TooFar)
        } else {
            Err(Fault::Malformed)
        },
        Ok(line) => if follows_on(due, line.piece.address) {
            Ok(line)
        } else {
            Err(Fault::Malformed)
        },
    }
}

// The line that a text begins with, where one is due.
fn next_line(keys: &[u64], text: &[u8], due: Option<u32>) -> Result<Line, Fault>
    requires { Keys keys.now }
    ensures { result ≡ line_step (line_in text.now) due }
{
    step_on(listing_reading::read_line(keys, text), due)
}

// Where the next line is due.
fn end_of(p: Piece) -> u32
    ensures { result ≡ p.address + p.length }
{
    p.address as u32 + p.length as u32
}

fn refusal(fault: Fault, line: usize) -> AssembleRefusal
    ensures { result ≡ refusal_of fault line }
{
    match fault {
        Fault::Malformed => AssembleRefusal::Malformed(line),
        Fault::TooFar => AssembleRefusal::TooFar(line),
    }
}

// The first pass, a `while` as the second, since the step is the line's own length: nothing is written. The answer is how many bytes a text has.
fn check(keys: &[u64], text: &[u8]) -> Result<usize, AssembleRefusal>
    requires { Keys keys.now }
    ensures { result ≡ checked_of 0 (outcome_of text.now) }
{
    let mut at = 0;
    let mut due = None;
    let mut line: usize = 1;
    let mut n: usize = 0;
    while at < text.len() {
        match next_line(keys, &text[at..], due) {
            Err(fault) => return Err(refusal(fault, line)),
            Ok(taken) => {
                due = Some(end_of(taken.piece));
                at += taken.size as usize;
                line += 1;
                n += taken.piece.length as usize;
            }
        }
    }
    Ok(n)
}

// A line's bytes are put into a buffer.
fn put(p: Piece, at: usize, buffer: &mut [u8])
    requires { (p.length ≤ 3) × (at + p.length ≤ length buffer.old) }
    ensures { buffer.new ≡ sets buffer.old at (piece_bytes p) }
{
    let bytes = [p.first, p.second, p.third];
    let n = p.length as usize;
    numbers::copy(&bytes[..n], &mut buffer[at..]);
}

// The second pass, over a text without a bad line.
fn write(keys: &[u64], text: &[u8], buffer: &mut [u8])
    requires { Keys keys.now × (outcome_of text.now ≡ good (bytes_in (outcome_of text.now)))
        × (length (bytes_in (outcome_of text.now)) ≤ length buffer.old) }
    ensures { buffer.new ≡ sets buffer.old 0 (bytes_in (outcome_of text.now)) }
{
    let mut at = 0;
    let mut due = None;
    let mut to: usize = 0;
    while at < text.len() {
        let Ok(taken) = next_line(keys, &text[at..], due) else {
            return;
        };
        put(taken.piece, to, buffer);
        due = Some(end_of(taken.piece));
        at += taken.size as usize;
        to += taken.piece.length as usize;
    }
}

// The bytes of a listing's text at the buffer's front; nothing of an empty text.
pub fn assemble(text: &[u8], buffer: &mut [u8]) -> Result<Option<Span>, AssembleRefusal>
    ensures { (told_assembled result ≡ assemble_answer text.now buffer.old)
        × (buffer.new ≡ assemble_buffer text.now buffer.old) }
{
    if text.is_empty() {
        return Ok(None);
    }
    let keys = listing_codes::keys();
    let bytes = check(&keys, text)?;
    if buffer.len() < bytes {
        return Err(AssembleRefusal::NoRoom);
    }
    write(&keys, text, buffer);
    let first = listing_reading::address_in(text);
    Ok(Some(Span { first, bytes }))
}
