// The line that `unrun` prints.
#![tactic(auto)]

ghost use Rattle.std.specs.Prelude.{◌≡◌};
ghost use Rattle.printing.specs.Printing.{empty_line, puts_of};
ghost use Rattle.execution_map.specs.Map.{told_search};
ghost use Rattle.unrun_lines.specs.UnrunLines.{search_text, unrun_text};

use execution_map::WrongMap;
use printing::Line;

// The line of what a search gave.
#[tactic(auto, using(printing::proofs::Laws::puts_then), unfolding(crate::specs::UnrunLines::search_text))]
fn search_line(answer: Result<Option<u16>, WrongMap>) -> Line
    ensures { result ≡ puts_of empty_line (search_text (told_search answer)) }
{
    match answer {
        Ok(Some(at)) => Line::empty().word(at).text(b"\n"),
        Ok(None) => Line::empty().text(b"none\n"),
        Err(_) => lines::refused(15).text(b"\n"),
    }
}

// The line of a map's file and a range, its end included.
#[tactic(auto, unfolding(crate::specs::UnrunLines::unrun_text))]
pub fn unrun_line(file: &[u8], first: u16, last: u16) -> Line
    ensures { result ≡ puts_of empty_line (unrun_text file.now first last) }
{
    if !map_file::is_map(file) {
        return search_line(Err(WrongMap));
    }
    search_line(execution_map::first_unrun(asking::filled(file, 8192), first, last))
}
