// A night's lines: one for each slice, and the night's own.
#![tactic(auto)]

ghost use Rattle.std.specs.Prelude.{◌≡◌};
ghost use Rattle.printing.specs.Printing.{empty_line, puts_of};
ghost use Rattle.replies.specs.Replies.{told_reply};
ghost use Rattle.night_lines.specs.NightLines.{leapt_text, slice_text, stopped_text, end_text};

use lines::{Numbers, numbered};
use printing::Line;
use registers::Registers;
use replies::Reply;

// The counts with the leaps.
fn leapt(line: Line, n: Numbers, leaps: u64) -> Line
    ensures { result ≡ puts_of line (leapt_text n leaps) }
{
    numbered(lines::counts(line, n), b" leaps ", leaps)
}

// A slice's line.
pub fn slice_line(number: u64, stop: u8, n: Numbers, leaps: u64) -> Line
    ensures { result ≡ puts_of empty_line (slice_text number stop n leaps) }
{
    let slice = numbered(Line::empty(), b"slice ", number);
    let stopped = numbered(slice, b" stop ", stop as u64);
    leapt(stopped, n, leaps).text(b"\n")
}

fn stopped(stop: u8, slices: u64, n: Numbers, leaps: u64, c: Registers) -> Line
    ensures { result ≡ puts_of empty_line (stopped_text stop slices n leaps c) }
{
    let stopped = numbered(Line::empty(), b"night stop ", stop as u64);
    let sliced = numbered(stopped, b" slices ", slices);
    lines::registers(leapt(sliced, n, leaps), c)
}

// What a night whose last slice ended with this reply tells.
pub fn end_line(reply: Reply, slices: u64, n: Numbers, leaps: u64, c: Registers) -> Line
    ensures { result ≡ puts_of empty_line (end_text (told_reply reply) slices n leaps c) }
{
    if reply.is_stop() {
        return stopped(reply.number(), slices, n, leaps, c);
    }
    lines::refusal_line(reply)
}
