// The assembler program: LISTING BYTES. It puts the bytes of a listing's text into the file BYTES, whole or not at all, and prints one line.
#![tactic(auto)]

use assembling::{AssembleRefusal, Span};
use std::fs::Files;

// The folder in which a file lies, open.
fn open_home<R: Files>(rt: &R, name: &[u8]) -> std::io::Result<R::File> {
    let at = night_names::last_at(name);
    if at == 0 {
        return host::open(rt, b".");
    }
    host::open(rt, &name[..at])
}

// A new file of this name holds the bytes, and so on the device; or there is none.
fn make(rt: &impl Files, name: &[u8], bytes: &[u8]) -> bool {
    let Ok(mut file) = host::create(rt, name) else {
        return false;
    };
    let written = host::write_all(&mut file, bytes);
    let kept = host::sync(file) & written;
    if !kept {
        let _ = host::remove_file(rt, name);
    }
    kept
}

// The file of this name holds the bytes: made as BYTES.new, and put in its place.
fn put(rt: &impl Files, name: &[u8], bytes: &[u8]) -> bool {
    let mut path = io::buffer();
    let n = night_arguments::joined(name, b".new", &mut path);
    if !make(rt, &path[..n], bytes) {
        return false;
    }
    let placed = host::rename(rt, &path[..n], name).is_ok();
    if !placed {
        let _ = host::remove_file(rt, &path[..n]);
    }
    placed
}

// The same, and so on the device. A folder that cannot be opened is told before the file is replaced.
fn keep(rt: &impl Files, name: &[u8], bytes: &[u8]) -> bool {
    let Ok(home) = open_home(rt, name) else {
        return false;
    };
    let placed = put(rt, name, bytes);
    host::sync(home) & placed
}

fn tell(
    rt: &(impl Files + Print),
    name: &[u8],
    bytes: &[u8],
    answer: Result<Option<Span>, AssembleRefusal>,
) {
    if keep(rt, name, bytes) {
        listing_answers::assembled_line(answer).print(rt);
    } else {
        lines::refuse(rt, 34);
    }
}

fn assemble(rt: &(impl Files + Print), name: &[u8], text: &[u8]) {
    let mut bytes = io::large_buffer();
    let answer = assembling::assemble(text, &mut bytes);
    match answer {
        Ok(Some(span)) => tell(rt, name, asking::filled(&bytes, span.bytes), answer),
        Ok(None) => tell(rt, name, b"", answer),
        Err(_) => listing_answers::assembled_line(answer).print(rt),
    }
}

fn assemble_file(rt: &(impl Files + Print), listing: &[u8], name: &[u8]) {
    let Ok(mut file) = host::open(rt, listing) else {
        return lines::refuse(rt, 33);
    };
    // A good text has at most 1,638,400 bytes, and a line is judged by its first 28: what is longer has its first bad line within these.
    let mut text = host::zeros::<1638428>();
    let n = host::read_full(&mut file, &mut text);
    if !host::is_read(&mut file, n == 1638428) {
        return lines::refuse(rt, 33);
    }
    assemble(rt, name, &text[..n]);
}

fn main(rt: HostRuntime) {
    let mut listing = io::buffer();
    let n = host::argument(&rt, 1, &mut listing);
    let mut name = io::buffer();
    let m = host::argument(&rt, 2, &mut name);
    if !host::has_argument(&rt, 2) || host::has_argument(&rt, 3) || n == 0 || m == 0 {
        return lines::refuse(&rt, 32);
    }
    assemble_file(&rt, &listing[..n], &name[..m]);
}
