// The bench program's input: load records, one run record, and the session after it.
#![tactic(auto)]

ghost use Rattle.std.specs.Prelude.{◌≡◌, ◌≤◌, length, set};
ghost use Rattle.bench_input.specs.Input.{is_load, is_run, after_loads, stored_at, loads_of, input_of, image_of};

use numbers::{four_at, two_at};

// What a good input holds: N, R and the place where its session begins.
#[derive(Clone, Copy)]
pub struct Run {
    pub n: u32,
    pub r: u32,
    pub session: usize,
}

// Whether a whole and right load record stands at a place.
#[tactic(auto, unfolding(crate::specs::Input::is_load, session::specs::Session::length_at, session::specs::Session::kind_at))]
fn is_load(input: &[u8], at: usize) -> bool
    requires { at ≤ length input.now }
    ensures { result ≡ is_load input.now at }
{
    let said = two_at(input, at, 0) as usize;
    let kind = two_at(input, at, 2);
    let address = two_at(input, at, 4) as usize;
    (2 + said <= input.len() - at) & (kind == 9) & (said >= 5) & (address + said <= 65536 + 4)
}

// Whether a whole and right run record stands at a place.
#[tactic(auto, unfolding(crate::specs::Input::is_run, session::specs::Session::length_at, session::specs::Session::kind_at))]
fn is_run(input: &[u8], at: usize) -> bool
    requires { at ≤ length input.now }
    ensures { result ≡ is_run input.now at }
{
    let said = two_at(input, at, 0) as usize;
    let kind = two_at(input, at, 2);
    (2 + said <= input.len() - at) & (kind == 10) & (said == 10)
}

// The place after the load records.
fn after_loads(input: &[u8]) -> usize
    ensures { (result ≡ after_loads input.now 0) × (result ≤ length input.now) }
{
    let mut at = 0;
    while is_load(input, at) {
        at = session::next_at(input, at);
    }
    at
}

// A byte is stored; past the image's end there is nothing to store it in.
fn store_byte(byte: u8, at: usize, image: &mut [u8])
    ensures { image.new ≡ set image.old at byte }
{
    if at < image.len() {
        image[at] = byte;
    }
}

// Bytes are stored from an address on.
fn store(bytes: &[u8], address: u16, image: &mut [u8])
    requires { length bytes.now ≤ 65536 }
    ensures { image.new ≡ stored_at image.old address bytes.now }
{
    let mut at = address as usize;
    for byte in bytes {
        store_byte(*byte, at, image);
        at += 1;
    }
}

// Every load record's bytes are stored, in order.
fn store_loads(input: &[u8], image: &mut [u8])
    ensures { image.new ≡ loads_of input.now 0 image.old }
{
    let mut at = 0;
    while is_load(input, at) {
        let next = session::next_at(input, at);
        let from = at + 6;
        store(&input[from..next], two_at(input, at, 4), image);
        at = next;
    }
}

// The image is loaded where the input is good, and untouched where it is bad.
pub fn load(input: &[u8], image: &mut [u8]) -> Option<Run>
    ensures { (result ≡ input_of input.now) × (image.new ≡ image_of input.now image.old) }
{
    if input.len() > 16384 {
        return None;
    }
    let at = after_loads(input);
    if !is_run(input, at) {
        return None;
    }
    store_loads(input, image);
    Some(Run {
        n: four_at(input, at, 4),
        r: four_at(input, at, 8),
        session: session::next_at(input, at),
    })
}
