// The wake log's rows, 8 bytes each, in a buffer that the caller lends.
#![tactic(auto)]

ghost use Rattle.std.specs.Prelude.{◌≡◌, true, ◌≤◌, length};
ghost use Rattle.numbers.specs.Numbers.{over};
ghost use Rattle.wake_log.specs.Log.{row_bytes, fits_row, with_row, row_at, is_wake, is_row};

// An interrupt entry: the cycle of its boundary, the cause, and the mask of the causes behind it.
#[derive(Clone, Copy)]
pub struct Row {
    pub cycle: u32,
    pub cause: u8,
    pub behind: u8,
}

// Room for one row after so many.
pub fn fits_row(log: &[u8], rows: u32) -> bool
    ensures { result ≡ fits_row log.now rows }
{
    8 * (rows as usize) + 8 <= log.len()
}

// A row over the first 8 bytes of a part.
fn put_row(part: &mut [u8], row: Row)
    requires { 8 ≤ length part.old }
    ensures { part.new ≡ over (row_bytes row) part.old }
{
    numbers::put(&mut part[0..4], row.cycle as u64);
    numbers::put(&mut part[4..5], row.cause as u64);
    numbers::put(&mut part[5..6], row.behind as u64);
    numbers::put(&mut part[6..8], 0);
}

// A row after so many, where there is room.
pub fn write_row(log: &mut [u8], rows: u32, row: Row)
    requires { fits_row log.old rows ≡ true }
    ensures { log.new ≡ with_row row rows log.old }
{
    let at = 8 * (rows as usize);
    put_row(&mut log[at..], row);
}

// The row of this number; past the end its bytes are 0.
pub fn read_row(log: &[u8], k: u32) -> Row
    ensures { result ≡ row_at log.now k }
{
    let at = 8 * (k as usize);
    Row {
        cycle: numbers::four_at(log, at, 0),
        cause: numbers::byte_at(log, at, 4),
        behind: numbers::byte_at(log, at, 5),
    }
}

// One of the six causes, and behind it only causes that come after it.
fn is_wake(row: Row) -> bool
    ensures { result ≡ is_wake row }
{
    row.cause <= 5 && (row.behind < 64) & (row.behind % (2 << row.cause) == 0)
}

// Whether a run can have written the row of this number.
pub fn is_row(log: &[u8], k: u32) -> bool
    ensures { result ≡ is_row log.now k }
{
    let at = 8 * (k as usize);
    let blank = (numbers::byte_at(log, at, 6) == 0) & (numbers::byte_at(log, at, 7) == 0);
    is_wake(read_row(log, k)) & blank
}
