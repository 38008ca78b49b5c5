// A line of text: words, decimal and hexadecimal numbers put one after the other.
#![tactic(auto)]

ghost use Rattle.std.specs.Prelude.{◌≡◌, ◌<◌};
ghost use Rattle.printing.specs.Printing.{empty_line, put_of, puts_of, decimal_of, hexadecimal_of};

use characters::digit;

// The first `length` bytes are the text; the 256th begins it anew (`put_of`), which no list of fixed room does: so the bytes keep their length beside them.
#[derive(Clone, Copy)]
pub struct Line {
    pub bytes: [u8; 256],
    pub length: u8,
}

impl Line {
    pub fn empty() -> Line
        ensures { result ≡ empty_line }
    {
        Line {
            bytes: [0; 256],
            length: 0,
        }
    }

    pub fn put(mut self, byte: u8) -> Line
        ensures { result ≡ put_of self byte }
    {
        self.bytes[self.length as usize] = byte;
        self.length = self.length.wrapping_add(1);
        self
    }

    pub fn text(self, text: &[u8]) -> Line
        ensures { result ≡ puts_of self text.now }
    {
        let mut line = self;
        for byte in text {
            line = line.put(*byte);
        }
        line
    }

    pub fn decimal(self, n: u64) -> Line
        ensures { result ≡ puts_of self (decimal_of n) }
    {
        let mut digits = [0u8; 20];
        let k = io::decimal(n, &mut digits);
        self.text(&digits[..k])
    }

    // Two hexadecimal digits.
    pub fn byte(self, v: u8) -> Line
        ensures { result ≡ puts_of self (hexadecimal_of 2 v) }
    {
        self.put(digit(v / 16)).put(digit(v % 16))
    }

    // Four hexadecimal digits.
    pub fn word(self, v: u16) -> Line
        ensures { result ≡ puts_of self (hexadecimal_of 4 v) }
    {
        self.byte((v / 256) as u8).byte((v % 256) as u8)
    }

    // Written to standard output, from a copy: where its own bytes are lent, a line is moved whole at each step, and `wakes` executes 1.6 times as much.
    pub fn print(self, rt: &impl Print) {
        let bytes = self.bytes;
        host::show(rt, &bytes[..self.length as usize]);
    }
}
