// The lister and the assembler at their edges: docs/CASES.md works the expected lines. Standard input has how many ranges and how many texts there are, two
// bytes each, and then records, each two bytes of length and so many bytes: of a range its first and last address and code, of a text its title and itself.
#![tactic(auto)]

ghost use Rattle.std.specs.Prelude.{◌≡◌, length};

use assembling::{AssembleRefusal, Span};
use listing::ListRefusal;
use printing::Line;

// The line ` touched K` where so many bytes of a buffer, from one on, are no longer EE.
fn touched(line: Line, buffer: &[u8], from: usize) -> Line {
    let n = buffer
        .iter()
        .skip(from)
        .filter(|&&byte| byte != 0xEE)
        .count();
    if n == 0 {
        return line;
    }
    lines::numbered(line, b" touched ", n as u64)
}

// How many bytes are not those of a memory, at its front.
fn differing(memory: &[u8], bytes: &[u8]) -> u64 {
    memory.iter().zip(bytes).filter(|(m, b)| m != b).count() as u64
}

// The bytes in hexadecimal, each after a blank.
fn with_bytes(line: Line, bytes: &[u8]) -> Line {
    let mut shown = line;
    for &byte in bytes {
        shown = shown.text(b" ").byte(byte);
    }
    shown
}

// Four digits, or eight.
fn with_address(line: Line, address: u32) -> Line {
    let low = (address % 65536) as u16;
    if address < 65536 {
        return line.word(low);
    }
    line.word((address / 65536) as u16).word(low)
}

fn with_listed(line: Line, listed: Result<usize, ListRefusal>) -> Line {
    match listed {
        Ok(n) => lines::numbered(line, b" wrote ", n as u64),
        Err(refusal) => lines::numbered(line, b" refused ", refusal.number() as u64),
    }
}

fn characters(listed: Result<usize, ListRefusal>) -> usize {
    listed.unwrap_or(0)
}

// A call of `list`, told on one line; how many characters it wrote.
fn call_list(rt: &impl Print, image: &[u8], first: u32, last: u32, buffer: &mut [u8]) -> usize {
    let listed = listing::list(image, first, last, buffer);
    let n = characters(listed);
    let from = with_address(Line::empty().text(b"list "), first);
    let range = with_address(from.text(b" "), last);
    touched(with_listed(range, listed), &buffer[..], n)
        .text(b"\n")
        .print(rt);
    n
}

fn with_assembled(line: Line, assembled: Result<Option<Span>, AssembleRefusal>) -> Line {
    match assembled {
        Ok(Some(span)) => lines::numbered(line, b" wrote ", span.bytes as u64)
            .text(b" at ")
            .word(span.first),
        Ok(None) => line.text(b" empty"),
        Err(AssembleRefusal::Malformed(k)) => lines::numbered(line, b" refused 13 line ", k as u64),
        Err(AssembleRefusal::TooFar(k)) => lines::numbered(line, b" refused 14 line ", k as u64),
        Err(AssembleRefusal::NoRoom) => line.text(b" refused 23"),
    }
}

fn bytes_in(assembled: Result<Option<Span>, AssembleRefusal>) -> usize {
    match assembled {
        Ok(Some(span)) => span.bytes,
        _ => 0,
    }
}

// A call of `assemble` with a text that says what is in a memory from an address on.
fn call_back(rt: &impl Print, memory: &[u8], from: u32, text: &[u8], buffer: &mut [u8]) {
    let assembled = assembling::assemble(text, buffer);
    let n = bytes_in(assembled);
    let line = with_assembled(Line::empty().text(b"back"), assembled);
    let at = from as usize;
    if at <= memory.len() {
        let wrong = differing(&memory[at..], asking::filled(&buffer[..], n));
        touched(lines::numbered(line, b" differing ", wrong), &buffer[..], n)
            .text(b"\n")
            .print(rt);
    }
}

// A range's listing, and the listing assembled.
fn show(rt: &impl Print, image: &[u8], first: u32, last: u32) {
    let mut buffer = [0xEEu8; 16384];
    let n = call_list(rt, image, first, last, &mut buffer);
    let text = asking::filled(&buffer, n);
    host::show(rt, text);
    let mut bytes = [0xEEu8; 1024];
    call_back(rt, image, first, text, &mut bytes);
}

// A call of `assemble`, told with its bytes.
fn call_assemble(rt: &impl Print, title: &[u8], text: &[u8], buffer: &mut [u8]) {
    let assembled = assembling::assemble(text, buffer);
    let n = bytes_in(assembled);
    let answer = with_assembled(
        Line::empty().text(b"assemble ").text(title).text(b":"),
        assembled,
    );
    let shown = with_bytes(answer, asking::filled(&buffer[..], n));
    touched(shown, &buffer[..], n).text(b"\n").print(rt);
}

// A text, with room for twelve bytes.
fn attempt(rt: &impl Print, title: &[u8], text: &[u8]) {
    let mut buffer = [0xEEu8; 12];
    call_assemble(rt, title, text, &mut buffer);
}

// A range of an image that has this code where the range begins, and 41 elsewhere.
fn show_code(rt: &impl Print, code: &[u8], first: u32, last: u32) {
    let mut image = [0x41u8; 65536];
    cases::install(&mut image, first as usize, code);
    show(rt, &image, first, last);
}

// The lines of the published example.
const PUBLISHED: [u8; 125] =
    *b"0100  86 05     LDAA #$05\n0102  B6 00 12  LDAA $0012\n0105  20 FE     BRA  $0105\n0107  87        FCB  $87\n0108  01        NOP\n";

// Images and ranges that are refused, 1 before 22 before 23.
fn list_refusals(rt: &impl Print) {
    let image = [0u8; 65537];
    let mut buffer = [0xEEu8; 64];
    call_list(rt, &image[..65535], 0, 0, &mut buffer);
    call_list(rt, &image, 0, 0, &mut buffer);
    call_list(rt, &image[..0], 0, 0, &mut buffer);
    call_list(rt, &image[..65535], 1, 0, &mut buffer);
    let whole = &image[..65536];
    call_list(rt, whole, 1, 0, &mut buffer);
    call_list(rt, whole, 0xFFFF, 0xFFFE, &mut buffer);
    call_list(rt, whole, 0, 65536, &mut buffer);
    call_list(rt, whole, 65536, 65536, &mut buffer);
    call_list(rt, whole, 65537, 65536, &mut buffer);
    call_list(rt, whole, 65536, 0xFFFF, &mut buffer);
    call_list(rt, whole, 0, 4294967295, &mut buffer);
    call_list(rt, whole, 4294967295, 4294967295, &mut buffer);
    call_list(rt, whole, 4294967295, 0, &mut buffer);
    call_list(rt, whole, 0, 65535, &mut buffer);
}

// What is past a buffer's first bytes, which were lent.
fn past(rt: &impl Print, room: isize, buffer: &[u8]) {
    let n = io::count(room, buffer);
    touched(
        lines::numbered(Line::empty(), b"past ", n as u64),
        buffer,
        n,
    )
    .text(b"\n")
    .print(rt);
}

// A listing of 50 characters, with room for so many.
fn list_room(rt: &impl Print, first: u32, last: u32, room: isize) {
    let image = [0u8; 65536];
    let mut buffer = [0xEEu8; 64];
    lend_list(rt, &image, first, last, room, &mut buffer);
    past(rt, room, &buffer);
}

fn lend_list(rt: &impl Print, image: &[u8], first: u32, last: u32, room: isize, buffer: &mut [u8]) {
    let n = io::count(room, &buffer[..]);
    call_list(rt, image, first, last, &mut buffer[..n]);
}

fn list_rooms(rt: &impl Print) {
    list_room(rt, 0, 1, 0);
    list_room(rt, 1, 0, 0);
    list_room(rt, 0, 1, 49);
    list_room(rt, 0, 1, 50);
    list_room(rt, 0, 1, 64);
}

// A text, with room for so many bytes.
fn assemble_room(rt: &impl Print, title: &[u8], text: &[u8], room: isize) {
    let mut buffer = [0xEEu8; 12];
    lend_bytes(rt, title, text, room, &mut buffer);
    past(rt, room, &buffer);
}

fn lend_bytes(rt: &impl Print, title: &[u8], text: &[u8], room: isize, buffer: &mut [u8]) {
    let n = io::count(room, &buffer[..]);
    call_assemble(rt, title, text, &mut buffer[..n]);
}

fn assemble_rooms(rt: &impl Print) {
    assemble_room(rt, b"no room", &PUBLISHED, 0);
    assemble_room(rt, b"room for 8", &PUBLISHED, 8);
    assemble_room(rt, b"room for 9", &PUBLISHED, 9);
    assemble_room(rt, b"13 without room", b"\n", 0);
    assemble_room(rt, b"14 without room", b"0100  20 00     BRA  $0400\n", 0);
    assemble_room(rt, b"no text and no room", b"", 0);
}

// NOP from $0000 on, line after line, round and round.
fn nops(text: &mut [u8]) {
    for k in 0u32..70000 {
        let line = Line::empty()
            .word((k % 65536) as u16)
            .text(b"  01        NOP\n");
        let bytes = line.bytes;
        cases::install(text, 20 * k as usize, asking::filled(&bytes, 20));
    }
}

// A text, with room for so many of 65,536 bytes.
fn assemble_many(rt: &impl Print, title: &[u8], text: &[u8], room: isize) {
    let mut buffer = [0xEEu8; 65536];
    lend_bytes(rt, title, text, room, &mut buffer);
}

// A text that says what is in an image.
fn back_whole(rt: &impl Print, image: &[u8], text: &[u8]) {
    let mut buffer = [0xEEu8; 65536];
    call_back(rt, image, 0, text, &mut buffer);
}

fn many(rt: &impl Print) {
    let image = [1u8; 65536];
    // 70,000 lines of 20 characters.
    let mut text = host::zeros::<1400000>();
    nops(&mut text);
    assemble_many(rt, b"70000 lines", &text, 65536);
    assemble_many(rt, b"65537 lines", asking::filled(&text, 1310740), 65536);
    assemble_many(
        rt,
        b"65536 lines, room for 65535",
        asking::filled(&text, 1310720),
        65535,
    );
    back_whole(rt, &image, asking::filled(&text, 1310720));
}

// Room for 65,536 lines of 25 characters.
fn long_lines() -> [u8; 1638400]
    ensures { 1638400 ≡ length result }
{
    [0xEE; 1638400]
}

// The longest listing: 65,536 data bytes.
fn longest(rt: &impl Print) {
    let image = [0u8; 65536];
    let mut text = long_lines();
    lend_list(rt, &image, 0, 0xFFFF, 1638399, &mut text);
    let n = call_list(rt, &image, 0, 0xFFFF, &mut text);
    back_whole(rt, &image, asking::filled(&text, n));
}

// Where the record after that at a place is.
fn next_at(input: &[u8], at: usize) -> usize {
    if at < input.len() {
        let size = numbers::two_at(input, at, 0) as usize;
        if size + 2 <= input.len() - at {
            return at + (size + 2);
        }
    }
    input.len()
}

// The record at a place, empty past the end.
fn record_at(input: &[u8], at: usize) -> &[u8] {
    let end = next_at(input, at);
    input
        .get(at..end)
        .and_then(|record| record.get(2..))
        .unwrap_or(b"")
}

// So many ranges from a place on; where the record after them is.
fn show_ranges(rt: &impl Print, input: &[u8], from: usize, count: u16) -> usize {
    let mut at = from;
    for _ in 0..count {
        let range = record_at(input, at);
        if 4 <= range.len() {
            show_code(
                rt,
                &range[4..],
                numbers::two_at(range, 0, 0) as u32,
                numbers::two_at(range, 2, 0) as u32,
            );
        }
        at = next_at(input, at);
    }
    at
}

fn try_texts(rt: &impl Print, input: &[u8], from: usize, count: u16) {
    let mut at = from;
    for _ in 0..count {
        let text = next_at(input, at);
        attempt(rt, record_at(input, at), record_at(input, text));
        at = next_at(input, text);
    }
}

fn main(rt: HostRuntime) {
    let mut buffer = [0u8; 16384];
    let n = host::read_full(&mut rt.stdin(), &mut buffer);
    let input = asking::filled(&buffer, n);
    let texts = show_ranges(&rt, input, 4, numbers::two_at(input, 0, 0));
    try_texts(&rt, input, texts, numbers::two_at(input, 2, 0));
    list_refusals(&rt);
    list_rooms(&rt);
    assemble_rooms(&rt);
    many(&rt);
    longest(&rt);
}
