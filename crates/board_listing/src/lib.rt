// The C calls of listings: a range of an image as text, and such a text as bytes. Crate board exports them; board/pliruzza.h says what each number and
// each byte means.
#![tactic(auto)]

ghost use Rattle.std.specs.Prelude.{◌≡◌, ◌≤◌, length};
ghost use Rattle.board_results.specs.Returned.{returned};
ghost use Rattle.board_listing.specs.Calls.{list_call, span_in, assemble_call};

use assembling::{AssembleRefusal, Span};

// The listing of first to last, both included.
pub fn list(image: &[u8], first: u32, last: u32, buffer: &mut [u8], res: &mut [u8]) -> u32
    ensures { returned result buffer.new res.new
        ≡ list_call image.now first last buffer.old res.old }
{
    if res.len() < 8 {
        return 29;
    }
    match listing::list(image, first, last, buffer) {
        Ok(n) => board_results::tell(0, n, res),
        Err(refusal) => refusal.number() as u32,
    }
}

// How many bytes there are, and the first line's address.
fn tell_span(n: usize, first: u16, res: &mut [u8])
    requires { 16 ≤ length res.old }
    ensures { res.new ≡ span_in n first res.old }
{
    numbers::put(&mut res[0..8], n as u64);
    numbers::put(&mut res[8..16], first as u64);
}

// The bytes of a listing's text.
pub fn assemble(text: &[u8], buffer: &mut [u8], res: &mut [u8]) -> u32
    ensures { returned result buffer.new res.new
        ≡ assemble_call text.now buffer.old res.old }
{
    if res.len() < 16 {
        return 29;
    }
    match assembling::assemble(text, buffer) {
        Ok(Some(Span { first, bytes })) => {
            tell_span(bytes, first, res);
            0
        }
        Ok(None) => {
            tell_span(0, 0, res);
            0
        }
        Err(AssembleRefusal::Malformed(line)) => board_results::tell(13, line, res),
        Err(AssembleRefusal::TooFar(line)) => board_results::tell(14, line, res),
        Err(AssembleRefusal::NoRoom) => 23,
    }
}
