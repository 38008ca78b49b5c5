// One line of a listing read back: its columns are taken for what they say, the line that says so is written, and the text must begin with it.
#![tactic(auto)]

ghost use Rattle.std.specs.Prelude.{◌≡◌, ◌≤◌, ◌<◌};
ghost use Rattle.listing_codes.specs.Keys.{Keys};
ghost use Rattle.listing_reading.specs.Reading.{at, digit_in, two_in, four_in, address_in, column_in, blank_for, name_in, form_in};
ghost use Rattle.listing_reading.specs.Reading.{operand_in, begins, no_end, line_in};

use listing_codes::{Line, Unread};
use listing_lines::Form;

// The character in a column, from 1; 0 past the end.
fn character(line: &[u8], column: usize) -> u8
    requires { 1 ≤ column }
    ensures { result ≡ at line.now column }
{
    line.get(column - 1).copied().unwrap_or(0)
}

// A digit's value.
#[tactic(auto, unfolding(crate::specs::Reading::digit_in))]
fn digit_in(c: u8) -> u8
    ensures { (result ≡ digit_in c) × (result < 16) }
{
    if c < 58 {
        c % 16
    } else {
        ((c as u16 + 9) % 16) as u8
    }
}

// Two digits from a column on.
fn byte_in(line: &[u8], column: usize) -> u8
    requires { (1 ≤ column) × (column < 32) }
    ensures { result ≡ two_in line.now column }
{
    let high = digit_in(character(line, column));
    let low = digit_in(character(line, column + 1));
    16 * high + low
}

// Four digits from a column on.
fn word_in(line: &[u8], column: usize) -> u16
    requires { (1 ≤ column) × (column < 30) }
    ensures { result ≡ four_in line.now column }
{
    let high = byte_in(line, column);
    let low = byte_in(line, column + 2);
    bits::pair(high, low)
}

// The address in a line's first columns.
pub fn address_in(line: &[u8]) -> u16
    ensures { result ≡ address_in line.now }
{
    word_in(line, 1)
}

// Columns 7 to 14. One by one: an array made by a function would need a contract for that function alone, and be no shorter.
fn column_in(line: &[u8]) -> [u8; 8]
    ensures { result ≡ column_in line.now }
{
    [
        character(line, 7),
        character(line, 8),
        character(line, 9),
        character(line, 10),
        character(line, 11),
        character(line, 12),
        character(line, 13),
        character(line, 14),
    ]
}

fn blank_for(c: u8) -> u8
    ensures { result ≡ blank_for c }
{
    if c == 10 { b' ' } else { c }
}

// Columns 17 to 20.
fn name_in(line: &[u8]) -> [u8; 4]
    ensures { result ≡ name_in line.now }
{
    [
        character(line, 17),
        character(line, 18),
        character(line, 19),
        blank_for(character(line, 20)),
    ]
}

// How the operand seems to be written.
#[tactic(auto, unfolding(crate::specs::Reading::form_in))]
fn form_in(line: &[u8]) -> Form
    ensures { result ≡ form_in line.now }
{
    if character(line, 20) == 10 || character(line, 21) == 10 {
        return Form::Bare;
    }
    if character(line, 22) == b'#' {
        if character(line, 26) == 10 {
            return Form::HashByte;
        }
        return Form::HashWord;
    }
    let after = character(line, 25);
    if after == 10 {
        return Form::Byte;
    }
    if after == b',' {
        return Form::Indexed;
    }
    Form::Word
}

fn operand_in(form: Form, line: &[u8]) -> u16
    ensures { result ≡ operand_in form line.now }
{
    match form {
        Form::Bare => 0,
        Form::HashByte => byte_in(line, 24) as u16,
        Form::HashWord => word_in(line, 24),
        Form::Byte | Form::Indexed => byte_in(line, 23) as u16,
        Form::Word => word_in(line, 23),
    }
}

// Whether a text begins with a line.
#[tactic(auto, using(crate::proofs::Begins::starts_begins))]
fn begins_with(text: &[u8], line: &[u8]) -> bool
    ensures { result ≡ begins text.now line.now }
{
    text.starts_with(line)
}

// Columns 7 to 14 are on one line.
fn is_unbroken(column: [u8; 8]) -> bool
    ensures { result ≡ no_end column }
{
    !column.contains(&10)
}

// The line that a text begins with.
pub fn read_line(keys: &[u64], text: &[u8]) -> Result<Line, Unread>
    requires { Keys keys.now }
    ensures { result ≡ line_in text.now }
{
    let address = address_in(text);
    let column = column_in(text);
    let name = name_in(text);
    let form = form_in(text);
    let v = operand_in(form, text);
    let line = listing_lines::line(address, column, name, form, v);
    let size = line.length;
    if !begins_with(text, &line.bytes[..size as usize]) || !is_unbroken(column) {
        return Err(Unread::Bad);
    }
    listing_codes::coded(keys, address, name, form, v, size)
}
