// The lister with a map: a column of two characters before each line tells what of it has run (specs/Marks.antt).
#![tactic(auto)]

ghost use Rattle.asking.specs.Asking.{replies};
ghost use Rattle.std.specs.Prelude.{Err, ◌≡◌, ◌+◌, ◌-◌, ◌*◌, ◌≤◌, ◌<◌, length};
ghost use Rattle.std.proofs.lemmas.List.Edits.{sets};
ghost use Rattle.listing_lines.specs.Lines.{bytes_of};
ghost use Rattle.listing_marks.specs.Marks.{mark_of, marked_line, marked_listing, told_marked, marked_answer, marked_buffer};

use opcodes::Instruction;

// Why there is no listing: the image is not 65,536 bytes; or the range goes past $FFFF or backward; or the file is no map and its own total; or the
// buffer is shorter than 30 characters a byte.
#[derive(Clone, Copy)]
pub enum MarkRefusal {
    WrongImage,
    WrongRange,
    WrongMap,
    NoRoom,
}

impl MarkRefusal {
    // The number by which a call tells it.
    pub fn number(self) -> u8
        ensures { told_marked (Err self) ≡ replies result }
    {
        match self {
            MarkRefusal::WrongImage => 1,
            MarkRefusal::WrongRange => 22,
            MarkRefusal::WrongMap => 15,
            MarkRefusal::NoRoom => 23,
        }
    }
}

// What the column has before the line of so many bytes at an address.
#[tactic(auto, unfolding(crate::specs::Marks::mark_of))]
fn mark(map: &[u8], address: usize, bytes: u8) -> u8
    requires bytes_bound { address + bytes ≤ 65536 }
    requires le_bytes { 1 ≤ bytes }
    ensures { result ≡ mark_of map.now address bytes }
{
    if execution_map::has_run(map, address as u16) {
        return b'*';
    }
    if 1 < bytes && execution_map::has_run(map, (address + 1) as u16) {
        return b'+';
    }
    if 2 < bytes && execution_map::has_run(map, (address + 2) as u16) {
        return b'+';
    }
    b' '
}

// The line of what is listed at an address is put into the buffer behind its column; the answer is how many characters both are.
fn put_line(
    map: &[u8],
    image: &[u8],
    address: usize,
    shown: Option<Instruction>,
    at: usize,
    buffer: &mut [u8],
) -> usize
    requires { (address + bytes_of shown ≤ 65536) × (1 ≤ bytes_of shown) × (bytes_of shown ≤ 3) × (at + 30 ≤ length buffer.old) }
    ensures { let line = marked_line map.now image.now address shown in
        (buffer.new ≡ sets buffer.old at line) × (length line ≡ result) × (result ≤ 30) }
{
    buffer[at] = mark(map, address, listing::bytes_of(shown));
    buffer[at + 1] = b' ';
    let text = listing::line_at(image, address, shown);
    let n = text.length as usize;
    listing::put(&text.bytes[..n], at + 2, buffer);
    n + 2
}

// The listing with its column is put at the buffer's front; the answer is how many characters it has. A `while`: the step is the line's own length.
fn write(map: &[u8], image: &[u8], first: usize, last: usize, buffer: &mut [u8]) -> usize
    requires { (first ≤ last) × (last < 65536) × (30 * (last + 1 - first) ≤ length buffer.old) }
    ensures { let text = marked_listing map.now image.now last first in
        (buffer.new ≡ sets buffer.old 0 text) × (result ≡ length text) × (result ≤ length buffer.old) }
{
    let mut address = first;
    let mut at = 0;
    while address <= last {
        let shown = listing::shown_at(image, last, address);
        let n = put_line(map, image, address, shown, at, buffer);
        at += n;
        address += listing::bytes_of(shown) as usize;
    }
    at
}

// The listing of first to last, both included, with the column of a map's file, at the buffer's front; how many characters it has.
pub fn list_marked(
    image: &[u8],
    first: u32,
    last: u32,
    file: &[u8],
    buffer: &mut [u8],
) -> Result<usize, MarkRefusal>
    ensures { (told_marked result ≡ marked_answer image.now first last file.now buffer.old)
        × (buffer.new ≡ marked_buffer image.now first last file.now buffer.old) }
{
    if image.len() != 65536 {
        return Err(MarkRefusal::WrongImage);
    }
    if listing::is_bad_range(first, last) {
        return Err(MarkRefusal::WrongRange);
    }
    if !map_file::is_map(file) {
        return Err(MarkRefusal::WrongMap);
    }
    if buffer.len() < 30 * (last + 1 - first) as usize {
        return Err(MarkRefusal::NoRoom);
    }
    let n = write(
        asking::filled(file, 8192),
        image,
        first as usize,
        last as usize,
        buffer,
    );
    Ok(n)
}
