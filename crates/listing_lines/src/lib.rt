// One line of a listing, as it is published: specs/Lines.antt has its columns.
#![tactic(auto)]

ghost use Rattle.std.specs.Prelude.{◌≡◌, [], ◌∷◌, ◌≤◌, length, take};
ghost use Rattle.characters.specs.Characters.{hexadecimal_of};
ghost use Rattle.listing_lines.specs.Lines.{form_of, published_line, column_of, operand_of, bytes_of, item_line};
ghost use Rattle.listing_lines.specs.Cells.{head_of, ending_of, bare_fourth, fourth_of, size_of, item_size, cells_of};

use bits::plus;
use opcodes::{Instruction, Place};

// How an operand is written: not at all, `#$12`, `#$1234`, `$12`, `$1234`, `$12,X`.
#[derive(Clone, Copy)]
pub enum Form {
    Bare,
    HashByte,
    HashWord,
    Byte,
    Word,
    Indexed,
}

// The first `length` characters are a line, its end included. It is promised to be `Copy`, which the kit's `ArrayVec` is not.
#[derive(Clone, Copy)]
pub struct Text {
    pub bytes: [u8; 28],
    pub length: u8,
}

fn byte_digits(v: u8) -> [u8; 2]
    ensures { result ≡ hexadecimal_of 2 v }
{
    let w = word_digits(v as u16);
    [w[2], w[3]]
}

fn word_digits(v: u16) -> [u8; 4]
    ensures { result ≡ hexadecimal_of 4 v }
{
    let third = v / 16;
    let second = third / 16;
    let first = second / 16;
    [
        characters::digit((first % 16) as u8),
        characters::digit((second % 16) as u8),
        characters::digit((third % 16) as u8),
        characters::digit((v % 16) as u8),
    ]
}

// Columns 1 to 16: the address, and eight characters between blanks. Cell by cell, as in `joined`: the check computes the line from its cells.
fn head(address: u16, column: [u8; 8]) -> [u8; 16]
    ensures { result ≡ head_of address column }
{
    let a = word_digits(address);
    [
        a[0], a[1], a[2], a[3], b' ', b' ', column[0], column[1], column[2], column[3], column[4],
        column[5], column[6], column[7], b' ', b' ',
    ]
}

// Columns 21 to 28.
fn ending(form: Form, v: u16) -> [u8; 8]
    ensures { result ≡ ending_of form v }
{
    let w = word_digits(v);
    match form {
        Form::Bare => [10, 0, 0, 0, 0, 0, 0, 0],
        Form::HashByte => [b' ', b'#', b'$', w[2], w[3], 10, 0, 0],
        Form::HashWord => [b' ', b'#', b'$', w[0], w[1], w[2], w[3], 10],
        Form::Byte => [b' ', b'$', w[2], w[3], 10, 0, 0, 0],
        Form::Word => [b' ', b'$', w[0], w[1], w[2], w[3], 10, 0],
        Form::Indexed => [b' ', b'$', w[2], w[3], b',', b'X', 10, 0],
    }
}

fn bare_fourth(c: u8) -> u8
    ensures { result ≡ bare_fourth c }
{
    if c == b' ' { 10 } else { c }
}

// Column 20.
fn fourth(c: u8, form: Form) -> u8
    ensures { result ≡ fourth_of c form }
{
    match form {
        Form::Bare => bare_fourth(c),
        _ => c,
    }
}

// How many characters the line of a mnemonic with this last letter has.
fn size(c: u8, form: Form) -> u8
    ensures { result ≡ size_of c form }
{
    match form {
        Form::Bare => if c == b' ' { 20 } else { 21 },
        Form::HashByte => 26,
        Form::HashWord => 28,
        Form::Byte => 25,
        Form::Word | Form::Indexed => 27,
    }
}

fn joined(head: [u8; 16], name: [u8; 4], fourth: u8, ending: [u8; 8]) -> [u8; 28]
    ensures { result ≡ cells_of head name fourth ending }
{
    [
        head[0], head[1], head[2], head[3], head[4], head[5], head[6], head[7], head[8], head[9],
        head[10], head[11], head[12], head[13], head[14], head[15], name[0], name[1], name[2],
        fourth, ending[0], ending[1], ending[2], ending[3], ending[4], ending[5], ending[6],
        ending[7],
    ]
}

// The line of an address, with these characters in columns 7 to 14.
#[tactic(auto, using(crate::proofs::Laws::cells_line, crate::proofs::Laws::line_size, crate::proofs::Laws::size_most))]
pub fn line(address: u16, column: [u8; 8], name: [u8; 4], form: Form, v: u16) -> Text
    ensures { (take result.length result.bytes ≡ published_line address column name form v)
        × (length (published_line address column name form v) ≡ result.length) × (result.length ≤ 28) }
{
    let last = name[3];
    let bytes = joined(
        head(address, column),
        name,
        fourth(last, form),
        ending(form, v),
    );
    Text {
        bytes,
        length: size(last, form),
    }
}

// Columns 7 to 14: the first `length` of three bytes.
fn column(length: u8, first: u8, second: u8, third: u8) -> [u8; 8]
    requires { (1 ≤ length) × (length ≤ 3) }
    ensures { result ≡ column_of (take length (first ∷ second ∷ third ∷ [])) }
{
    let a = byte_digits(first);
    let b = byte_digits(second);
    let c = byte_digits(third);
    match length {
        1 => [a[0], a[1], b' ', b' ', b' ', b' ', b' ', b' '],
        2 => [a[0], a[1], b' ', b[0], b[1], b' ', b' ', b' '],
        _ => [a[0], a[1], b' ', b[0], b[1], b' ', c[0], c[1]],
    }
}

// How the operand of a place is written.
pub fn form_of(place: Place) -> Form
    ensures { result ≡ form_of place }
{
    match place {
        Place::Inherent | Place::AccumulatorA | Place::AccumulatorB => Form::Bare,
        Place::ImmediateByte => Form::HashByte,
        Place::ImmediateWord => Form::HashWord,
        Place::Direct => Form::Byte,
        Place::Indexed => Form::Indexed,
        Place::Extended | Place::Relative => Form::Word,
    }
}

// The operand that is written, of the bytes after the opcode.
fn operand(address: u16, place: Place, second: u8, third: u8) -> u16
    ensures { result ≡ operand_of address place second third }
{
    match place {
        Place::Inherent | Place::AccumulatorA | Place::AccumulatorB => 0,
        Place::ImmediateByte | Place::Direct | Place::Indexed => second as u16,
        Place::ImmediateWord | Place::Extended => bits::pair(second, third),
        Place::Relative => plus(plus(address, 2), registers::offset_of(second)),
    }
}

// The line of what is listed at an address: an instruction, or a data byte where `shown` is undefined.
#[tactic(auto, unfolding(crate::specs::Lines::item_line))]
pub fn item_line(address: u16, shown: Option<Instruction>, first: u8, second: u8, third: u8) -> Text
    requires { (1 ≤ bytes_of shown) × (bytes_of shown ≤ 3) }
    ensures { (take result.length result.bytes ≡ item_line address shown first second third)
        × (length (item_line address shown first second third) ≡ result.length) × (result.length ≤ 28) }
{
    match shown {
        None => {
            let bytes = column(1, first, 0, 0);
            line(address, bytes, *b"FCB ", Form::Byte, first as u16)
        }
        Some(i) => {
            let bytes = column(i.length, first, second, third);
            let name = mnemonics::mnemonic(i.operation, i.place);
            let operand = operand(address, i.place, second, third);
            line(address, bytes, name, form_of(i.place), operand)
        }
    }
}

// How many characters that line has.
pub fn item_size(shown: Option<Instruction>) -> u8
    ensures { (result ≡ item_size shown) × (result ≤ 28) }
{
    match shown {
        None => 25,
        Some(i) => {
            let name = mnemonics::mnemonic(i.operation, i.place);
            size(name[3], form_of(i.place))
        }
    }
}
