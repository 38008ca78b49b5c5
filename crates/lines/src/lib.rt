// The words that the programs' lines share: counts, registers and refusals.
#![tactic(auto, using(printing::proofs::Laws::puts_then))]

ghost use Rattle.std.specs.Prelude.{◌≡◌, ◌++◌};
ghost use Rattle.std.proofs.Math.Option.{none, some};
ghost use Rattle.printing.specs.Printing.{decimal_of, hexadecimal_of, empty_line, puts_of};
ghost use Rattle.replies.specs.Replies.{told_reply};
ghost use Rattle.lines.specs.Lines.{counts_text, registers_text, refused_text, refusal};

use counts::Counts;
use printing::Line;
use registers::Registers;
use replies::Reply;

// The counts that every line of a run tells.
#[derive(Clone, Copy)]
pub struct Numbers {
    pub cycles: u64,
    pub instructions: u64,
    pub entries: u64,
    pub used: u64,
    pub sent: u64,
}

// The counts of one run.
pub fn run_numbers(c: Counts) -> Numbers
    ensures { result ≡ record { cycles = c.cycles.0; instructions = c.instructions.0; entries = c.entries.0; used = c.used.0; sent = c.sent.0 } }
{
    Numbers {
        cycles: c.cycles.0 as u64,
        instructions: c.instructions.0 as u64,
        entries: c.entries.0 as u64,
        used: c.used.0 as u64,
        sent: c.sent.0 as u64,
    }
}

// A word and a number.
pub fn numbered(line: Line, word: &[u8], n: u64) -> Line
    ensures { result ≡ puts_of line (word.now ++ decimal_of n) }
{
    line.text(word).decimal(n)
}

// A word and a byte of the registers, in hexadecimal.
fn with_byte(line: Line, word: &[u8], v: u8) -> Line
    ensures { result ≡ puts_of line (word.now ++ hexadecimal_of 2 v) }
{
    line.text(word).byte(v)
}

// A word and a word of the registers, in hexadecimal.
fn with_word(line: Line, word: &[u8], v: u16) -> Line
    ensures { result ≡ puts_of line (word.now ++ hexadecimal_of 4 v) }
{
    line.text(word).word(v)
}

// The counts, in decimal.
pub fn counts(line: Line, n: Numbers) -> Line
    ensures { result ≡ puts_of line (counts_text n) }
{
    let timed = numbered(line, b" cycles ", n.cycles);
    let executed = numbered(timed, b" instr ", n.instructions);
    let entered = numbered(executed, b" entries ", n.entries);
    let used = numbered(entered, b" used ", n.used);
    numbered(used, b" sent ", n.sent)
}

// The registers, in hexadecimal.
pub fn registers(line: Line, c: Registers) -> Line
    ensures { result ≡ puts_of line (registers_text c) }
{
    let pc = with_word(line, b" pc ", c.pc);
    let a = with_byte(pc, b" a ", c.a);
    let b = with_byte(a, b" b ", c.b);
    let x = with_word(b, b" x ", c.x);
    let sp = with_word(x, b" sp ", c.sp);
    with_byte(sp, b" cc ", u8::from(c.codes))
}

#[tactic(auto, unfolding(crate::specs::Lines::refused_text))]
pub fn refused(number: u8) -> Line
    ensures { result ≡ puts_of empty_line (refused_text number none) }
{
    numbered(Line::empty(), b"refused ", number as u64)
}

pub fn refused_record(number: u8, named: usize) -> Line
    ensures { result ≡ puts_of empty_line (refused_text number (some named)) }
{
    numbered(refused(number), b" record ", named as u64)
}

// The refusal with a reply that no run stops with.
pub fn refusal_line(reply: Reply) -> Line
    ensures { result ≡ puts_of empty_line (refusal (told_reply reply)) }
{
    match reply {
        Reply::Length(k) | Reply::Kind(k) | Reply::Value(k) | Reply::Time(k) => {
            refused_record(reply.number(), k)
        }
        _ => refused(reply.number()),
    }
}

// The refusal with this number is printed, as a line of its own.
pub fn refuse(rt: &impl Print, number: u8) {
    refused(number).text(b"\n").print(rt);
}
