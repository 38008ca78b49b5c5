// The line of `unrun` and the lister's column at their edges: docs/CASES.md works the expected lines. Standard input is a map's file.
#![tactic(auto)]

use listing_marks::MarkRefusal;
use printing::Line;

fn search(rt: &impl Print, title: &[u8], file: &[u8], first: u16, last: u16) {
    Line::empty()
        .text(b"unrun ")
        .text(title)
        .text(b": ")
        .print(rt);
    unrun_lines::unrun_line(file, first, last).print(rt);
}

fn ranges(rt: &impl Print, file: &[u8]) {
    search(rt, b"an operand byte", file, 0xF200, 0xF210);
    search(rt, b"all ran", file, 0xF300, 0xF303);
    search(rt, b"at LAST", file, 0xF300, 0xF304);
    search(rt, b"at FIRST", file, 0xF304, 0xF400);
    search(rt, b"one that ran", file, 0xF303, 0xF303);
    search(rt, b"one that never ran", file, 0xF304, 0xF304);
    search(rt, b"backward", file, 0xF211, 0xF210);
    search(rt, b"backward from the end", file, 0xFFFF, 0);
    search(rt, b"all addresses", file, 0, 0xFFFF);
    search(rt, b"over a byte's end", file, 7, 9);
    search(rt, b"to the end", file, 0xFFFE, 0xFFFF);
    search(rt, b"before the end", file, 0xFFFD, 0xFFFF);
}

// The file with another total, all of whose bytes but the lowest and the third are 0.
fn with_total(rt: &impl Print, title: &[u8], file: [u8; 8197], low: u8, third: u8) {
    let mut other = file;
    other[8192] = low;
    other[8194] = third;
    search(rt, title, asking::filled(&other, 8196), 0xF200, 0xF210);
}

fn files(rt: &impl Print, file: [u8; 8197]) {
    search(rt, b"no bytes", b"", 0xF200, 0xF210);
    search(
        rt,
        b"8192 bytes",
        asking::filled(&file, 8192),
        0xF200,
        0xF210,
    );
    search(
        rt,
        b"8195 bytes",
        asking::filled(&file, 8195),
        0xF200,
        0xF210,
    );
    search(rt, b"8197 bytes", &file, 0xF200, 0xF210);
    search(rt, b"8197 bytes, backward", &file, 1, 0);
    with_total(rt, b"total 23", file, 23, 0);
    with_total(rt, b"total 22", file, 22, 0);
    with_total(rt, b"total 24", file, 24, 0);
    with_total(rt, b"total 65559", file, 23, 1);
}

// Every bit is set, and the total is 65,536; then 65,535; then the last bit is clear.
fn full(rt: &impl Print) {
    let mut file = [255u8; 8196];
    file[8192] = 0;
    file[8193] = 0;
    file[8194] = 1;
    file[8195] = 0;
    search(rt, b"every address ran", &file, 0, 0xFFFF);
    file[8192] = 255;
    file[8193] = 255;
    file[8194] = 0;
    search(rt, b"total 65535", &file, 0, 0xFFFF);
    file[8191] = 127;
    search(rt, b"all but FFFF", &file, 0, 0xFFFF);
}

// So many characters were written; or a refusal.
fn told(line: Line, marked: Result<usize, MarkRefusal>) -> Line {
    match marked {
        Ok(n) => lines::numbered(line, b" wrote ", n as u64),
        Err(refusal) => lines::numbered(line, b" refused ", refusal.number() as u64),
    }
}

fn characters(marked: Result<usize, MarkRefusal>) -> usize {
    marked.unwrap_or(0)
}

fn list(rt: &impl Print, title: &[u8], image: &[u8], first: u32, last: u32, file: &[u8]) {
    let mut buffer = [0u8; 1024];
    let marked = listing_marks::list_marked(image, first, last, file, &mut buffer);
    told(Line::empty().text(b"list ").text(title).text(b":"), marked)
        .text(b"\n")
        .print(rt);
    host::show(rt, asking::filled(&buffer, characters(marked)));
}

fn listings(rt: &impl Print, file: &[u8]) {
    let mut image = [0u8; 65536];
    cases::install(
        &mut image,
        0xF200,
        b"\x96\x11\x85\x40\x27\x03\x7C\x00\x82\x96\x12\x7C\x00\x83\x97\x13\x3B\x7E\xF2\x00\x96\x12\x20\xFE\x01\x7E\xF2\x00",
    );
    let whole = asking::filled(&image, 65536);
    list(rt, b"a routine", whole, 0xF1FF, 0xF219, file);
    list(rt, b"its last line whole", whole, 0xF219, 0xF21B, file);
    list(rt, b"the first addresses", whole, 0, 2, file);
    list(rt, b"the last address", whole, 0xFFFF, 0xFFFF, file);
    list(rt, b"room for 34 bytes", whole, 0xF300, 0xF321, file);
    list(rt, b"and 35", whole, 0xF300, 0xF322, file);
    let short = asking::filled(file, 8195);
    list(rt, b"15 before 23", whole, 0, 0xFFFF, short);
    list(rt, b"22 before 15", whole, 1, 0, short);
    list(rt, b"past FFFF", whole, 0, 0x10000, short);
    list(
        rt,
        b"1 before 22",
        asking::filled(whole, 65535),
        1,
        0,
        short,
    );
}

fn main(rt: HostRuntime) {
    let mut file = [0u8; 8197];
    let n = host::read_full(&mut rt.stdin(), &mut file);
    let whole = asking::filled(&file, n);
    ranges(&rt, whole);
    listings(&rt, whole);
    files(&rt, file);
    full(&rt);
}
