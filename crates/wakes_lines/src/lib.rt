// What `wakes` makes of a log: the first row that no run writes, and a line for each row.
#![tactic(auto)]

ghost use Rattle.std.specs.Prelude.{◌≡◌, ◌<◌};
ghost use Rattle.printing.specs.Printing.{empty_line, puts_of};
ghost use Rattle.wakes_lines.specs.WakesLines.{FirstBad, cause_name, listed, behind_text, wake_text, bad_row_text};

use lines::numbered;
use printing::Line;
use wake_log::Row;

// The first of so many rows that no run writes.
pub fn first_bad(log: &[u8], rows: u32) -> Option<u32>
    ensures { FirstBad log.now rows result }
{
    (0..rows).find(|k| !wake_log::is_row(log, *k))
}

// A blank and the name of a cause, by its byte in the log (`wake_log::Row`).
fn named(line: Line, cause: u8) -> Line
    ensures { result ≡ puts_of line (cause_name cause) }
{
    match cause {
        0 => line.text(b" NMI"),
        1 => line.text(b" IRQ1"),
        2 => line.text(b" ICF"),
        3 => line.text(b" OCF"),
        4 => line.text(b" TOF"),
        5 => line.text(b" serial"),
        _ => line,
    }
}

// The same, where the mask has the cause's bit.
fn named_if(line: Line, mask: u8, cause: u8) -> Line
    requires { cause < 8 }
    ensures { result ≡ puts_of line (listed mask cause) }
{
    if (mask >> cause) % 2 == 1 {
        return named(line, cause);
    }
    line
}

// The causes of a mask, in order.
fn behind(line: Line, mask: u8) -> Line
    ensures { result ≡ puts_of line (behind_text mask) }
{
    if mask == 0 {
        return line;
    }
    let nmi = named_if(line.text(b" behind"), mask, 0);
    let irq1 = named_if(nmi, mask, 1);
    let icf = named_if(irq1, mask, 2);
    let ocf = named_if(icf, mask, 3);
    let tof = named_if(ocf, mask, 4);
    named_if(tof, mask, 5)
}

// A row's line.
pub fn wake_line(row: Row) -> Line
    ensures { result ≡ puts_of empty_line (wake_text row) }
{
    let cycle = Line::empty().decimal(row.cycle as u64);
    behind(named(cycle, row.cause), row.behind).text(b"\n")
}

// The refusal that names a row.
pub fn bad_row_line(k: u32) -> Line
    ensures { result ≡ puts_of empty_line (bad_row_text k) }
{
    numbered(lines::refused(37), b" row ", k as u64).text(b"\n")
}
