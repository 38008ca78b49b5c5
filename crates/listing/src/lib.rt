// The lister: a range of an image as text (specs/Listing.antt; listing_lines has the form of a line).
#![tactic(auto)]

ghost use Rattle.asking.specs.Asking.{replies};
ghost use Rattle.std.specs.Prelude.{Err, ◌≡◌, ◌+◌, ◌≤◌, ◌<◌, length, take};
ghost use Rattle.std.proofs.lemmas.List.Edits.{sets};
ghost use Rattle.listing_lines.specs.Lines.{bytes_of, item_line};
ghost use Rattle.listing.specs.Listing.{image_byte, fitting_in, shown_at, listing_from, told_listed, is_bad_range, list_answer, list_buffer};

use listing_lines::Text;
use opcodes::Instruction;

// Why there is no listing: the image is not 65,536 bytes; or the range goes past $FFFF or backward; or the buffer is shorter than the listing.
#[derive(Clone, Copy)]
pub enum ListRefusal {
    WrongImage,
    WrongRange,
    NoRoom,
}

impl ListRefusal {
    // The number by which a call tells it.
    pub fn number(self) -> u8
        ensures { told_listed (Err self) ≡ replies result }
    {
        match self {
            ListRefusal::WrongImage => 1,
            ListRefusal::WrongRange => 22,
            ListRefusal::NoRoom => 23,
        }
    }
}

// The byte at an address, 0 past the image.
fn byte_at(image: &[u8], address: usize) -> u8
    ensures { result ≡ image_byte image.now address }
{
    image.get(address).copied().unwrap_or(0)
}

// An instruction that is cut off is data.
fn fitting(decoded: Option<Instruction>, room: usize) -> Option<Instruction>
    ensures { result ≡ fitting_in room decoded }
{
    match decoded {
        Some(i) if i.length as usize <= room => decoded,
        _ => None,
    }
}

// What is listed at an address.
#[tactic(auto, using(crate::proofs::Laws::shown_bounds), unfolding(crate::specs::Listing::shown_at))]
pub fn shown_at(image: &[u8], last: usize, address: usize) -> Option<Instruction>
    requires { (address ≤ last) × (last < 65536) }
    ensures { (result ≡ shown_at image.now last address)
        × (1 ≤ bytes_of result) × (bytes_of result ≤ 3) × (address + bytes_of result ≤ last + 1) }
{
    fitting(opcodes::decode(byte_at(image, address)), last + 1 - address)
}

pub fn bytes_of(shown: Option<Instruction>) -> u8
    ensures { result ≡ bytes_of shown }
{
    match shown {
        None => 1,
        Some(i) => i.length,
    }
}

// The line of what is listed at an address.
pub fn line_at(image: &[u8], address: usize, shown: Option<Instruction>) -> Text
    requires { (address < 65536) × (1 ≤ bytes_of shown) × (bytes_of shown ≤ 3) }
    ensures { let b = image_byte image.now in
        let line = item_line address shown (b address) (b (address + 1)) (b (address + 2)) in
        (take result.length result.bytes ≡ line) × (length line ≡ result.length) × (result.length ≤ 28) }
{
    listing_lines::item_line(
        address as u16,
        shown,
        byte_at(image, address),
        byte_at(image, address + 1),
        byte_at(image, address + 2),
    )
}

// How many characters the listing has: nothing is written. A `while`, as in `write`: the step is the line's own length, which no range counts.
fn measure(image: &[u8], first: usize, last: usize) -> usize
    requires { (first ≤ last) × (last < 65536) }
    ensures { result ≡ length (listing_from image.now last first) }
{
    let mut address = first;
    let mut n = 0;
    while address <= last {
        let shown = shown_at(image, last, address);
        n += listing_lines::item_size(shown) as usize;
        address += bytes_of(shown) as usize;
    }
    n
}

// A line is put into a buffer.
pub fn put(line: &[u8], at: usize, buffer: &mut [u8])
    requires { at + length line.now ≤ length buffer.old }
    ensures { buffer.new ≡ sets buffer.old at line.now }
{
    numbers::copy(line, &mut buffer[at..]);
}

// The listing is put at the buffer's front.
fn write(image: &[u8], first: usize, last: usize, buffer: &mut [u8])
    requires { (first ≤ last) × (last < 65536) × (length (listing_from image.now last first) ≤ length buffer.old) }
    ensures { buffer.new ≡ sets buffer.old 0 (listing_from image.now last first) }
{
    let mut address = first;
    let mut at = 0;
    while address <= last {
        let shown = shown_at(image, last, address);
        let text = line_at(image, address, shown);
        let n = text.length as usize;
        put(&text.bytes[..n], at, buffer);
        at += n;
        address += bytes_of(shown) as usize;
    }
}

// Whether a range goes past $FFFF or backward.
pub fn is_bad_range(first: u32, last: u32) -> bool
    ensures { result ≡ is_bad_range first last }
{
    65535 < last || last < first
}

// The listing of first to last, both included, at the buffer's front; how many characters it has.
pub fn list(image: &[u8], first: u32, last: u32, buffer: &mut [u8]) -> Result<usize, ListRefusal>
    ensures { (told_listed result ≡ list_answer image.now first last buffer.old)
        × (buffer.new ≡ list_buffer image.now first last buffer.old) }
{
    if image.len() != 65536 {
        return Err(ListRefusal::WrongImage);
    }
    if is_bad_range(first, last) {
        return Err(ListRefusal::WrongRange);
    }
    let n = measure(image, first as usize, last as usize);
    if buffer.len() < n {
        return Err(ListRefusal::NoRoom);
    }
    write(image, first as usize, last as usize, buffer);
    Ok(n)
}
