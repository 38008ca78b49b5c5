// A mnemonic with an operand as bytes: the opcode is searched among the 256 values of `decode` (specs/Codes.antt).
#![tactic(auto)]

ghost use Rattle.std.specs.Prelude.{◌≡◌, ◌<◌, MatchOption};
ghost use Rattle.bits.specs.Words.{paired};
ghost use Rattle.listing_codes.specs.Codes.{form_number, code_for, branch_to, placed_at, coded_as, coded_of};
ghost use Rattle.listing_codes.specs.Keys.{key_of, Named, decoded_key, Keys};

use bits::{lower, minus, plus, upper};
use listing_lines::Form;
use opcodes::{Instruction, Place};

// The bytes of a line, `length` of them; the others are 0. By name, and no buffer: `piece` of specs/Codes.antt tells them so, and each form writes its own.
#[derive(Clone, Copy)]
pub struct Piece {
    pub address: u16,
    pub length: u8,
    pub first: u8,
    pub second: u8,
    pub third: u8,
}

// A line read: its bytes, and how many characters it has.
#[derive(Clone, Copy)]
pub struct Line {
    pub piece: Piece,
    pub size: u8,
}

// Why a line is not read: it is not of the published form; or it is a branch at an address whose target is out of its reach.
#[derive(Clone, Copy)]
pub enum Unread {
    Bad,
    Far(u16),
}

fn form_number(form: Form) -> u8
    ensures { (result ≡ form_number form) × (result < 8) }
{
    form as u8
}

// Two characters as one number. That each is below 256 is told here, for it is known of an argument and not of an array's elements.
fn packed(a: u8, b: u8) -> u64
    ensures { (result ≡ paired a b) × (a < 256) × (b < 256) }
{
    bits::pair(a, b) as u64
}

// A mnemonic and a form as one number.
fn key(name: [u8; 4], form: Form) -> u64
    ensures { (result ≡ key_of name form) × Named name }
{
    let high = packed(name[0], name[1]);
    let low = packed(name[2], name[3]);
    (high * 65536 + low) * 8 + form_number(form) as u64
}

fn decoded_key(decoded: Option<Instruction>) -> u64
    ensures { result ≡ decoded_key decoded }
{
    match decoded {
        None => 1099511627776,
        Some(i) => {
            let name = mnemonics::mnemonic(i.operation, i.place);
            key(name, listing_lines::form_of(i.place))
        }
    }
}

// How each opcode is written, for the search: made once a text.
pub fn keys() -> [u64; 256]
    ensures { Keys result }
{
    let mut keys = [0u64; 256];
    for op in 0..256 {
        keys[op] = decoded_key(opcodes::decode(op as u8));
    }
    keys
}

// The first opcode that is written so.
fn code_for(keys: &[u64], name: [u8; 4], form: Form) -> Option<u8>
    requires { Keys keys.now }
    ensures { MatchOption result (code_for name form ≡ 256) (λ op. code_for name form ≡ op) }
{
    let wanted = key(name, form);
    for op in 0..256 {
        if keys[op] == wanted {
            return Some(op as u8);
        }
    }
    None
}

fn one_byte(address: u16, op: u8, size: u8) -> Result<Line, Unread>
    ensures { result ≡ placed_at address op Place.Inherent 0 size }
{
    let piece = Piece {
        address,
        length: 1,
        first: op,
        second: 0,
        third: 0,
    };
    Ok(Line { piece, size })
}

fn two_bytes(address: u16, op: u8, v: u16, size: u8) -> Result<Line, Unread>
    ensures { result ≡ placed_at address op Place.Direct v size }
{
    let piece = Piece {
        address,
        length: 2,
        first: op,
        second: lower(v),
        third: 0,
    };
    Ok(Line { piece, size })
}

fn three_bytes(address: u16, op: u8, v: u16, size: u8) -> Result<Line, Unread>
    ensures { result ≡ placed_at address op Place.Extended v size }
{
    let high = upper(v);
    let low = lower(v);
    let piece = Piece {
        address,
        length: 3,
        first: op,
        second: high,
        third: low,
    };
    Ok(Line { piece, size })
}

// A branch over a distance, or 14.
fn branch_to(address: u16, op: u8, distance: u16, size: u8) -> Result<Line, Unread>
    ensures { result ≡ branch_to address op distance size }
{
    if (128..65408).contains(&distance) {
        return Err(Unread::Far(address));
    }
    two_bytes(address, op, distance, size)
}

// The bytes of an opcode with its operand.
fn placed_at(address: u16, op: u8, place: Place, v: u16, size: u8) -> Result<Line, Unread>
    ensures { result ≡ placed_at address op place v size }
{
    match place {
        Place::Inherent | Place::AccumulatorA | Place::AccumulatorB => one_byte(address, op, size),
        Place::ImmediateByte | Place::Direct | Place::Indexed => two_bytes(address, op, v, size),
        Place::ImmediateWord | Place::Extended => three_bytes(address, op, v, size),
        Place::Relative => branch_to(address, op, minus(v, plus(address, 2)), size),
    }
}

fn coded_as(
    address: u16,
    op: u8,
    decoded: Option<Instruction>,
    v: u16,
    size: u8,
) -> Result<Line, Unread>
    ensures { result ≡ coded_as address op decoded v size }
{
    match decoded {
        None => Err(Unread::Bad),
        Some(i) => {
            if 65536 < address as u32 + i.length as u32 {
                return Err(Unread::Bad);
            }
            placed_at(address, op, i.place, v, size)
        }
    }
}

// What a line of the published form comes to.
pub fn coded(
    keys: &[u64],
    address: u16,
    name: [u8; 4],
    form: Form,
    v: u16,
    size: u8,
) -> Result<Line, Unread>
    requires { Keys keys.now }
    ensures { result ≡ coded_of address name form v size }
{
    if key(name, form) == key(*b"FCB ", Form::Byte) {
        return one_byte(address, lower(v), size);
    }
    match code_for(keys, name, form) {
        None => Err(Unread::Bad),
        Some(op) => coded_as(address, op, opcodes::decode(op), v, size),
    }
}
