// The line that `assembler` prints.
#![tactic(auto)]

ghost use Rattle.std.specs.Prelude.{◌≡◌};
ghost use Rattle.std.proofs.Math.Option.{some};
ghost use Rattle.printing.specs.Printing.{empty_line, puts_of};
ghost use Rattle.replies.specs.Replies.{told};
ghost use Rattle.assembling.specs.Assembling.{told_assembled};
ghost use Rattle.listing_answers.specs.Answers.{wrote_text, refusal_text, assembled_text};

use assembling::{AssembleRefusal, Span};
use lines::numbered;
use printing::Line;

fn wrote_line(span: Span) -> Line
    ensures { result ≡ puts_of empty_line (wrote_text span.first span.bytes) }
{
    numbered(Line::empty(), b"assembled ", span.bytes as u64)
        .text(b" bytes at ")
        .word(span.first)
        .text(b"\n")
}

fn bad_line(number: u8, line: usize) -> Line
    ensures { result ≡ puts_of empty_line (refusal_text (told number (some line))) }
{
    numbered(lines::refused(number), b" line ", line as u64).text(b"\n")
}

// The line of an answer, its end included.
#[tactic(auto, using(printing::proofs::Laws::puts_then), unfolding(crate::specs::Answers::assembled_text, crate::specs::Answers::refusal_text))]
pub fn assembled_line(answer: Result<Option<Span>, AssembleRefusal>) -> Line
    ensures { result ≡ puts_of empty_line (assembled_text (told_assembled answer)) }
{
    match answer {
        Ok(Some(span)) => wrote_line(span),
        Ok(None) => Line::empty().text(b"assembled 0 bytes\n"),
        Err(AssembleRefusal::Malformed(line)) => bad_line(13, line),
        Err(AssembleRefusal::TooFar(line)) => bad_line(14, line),
        Err(AssembleRefusal::NoRoom) => lines::refused(23).text(b"\n"),
    }
}
