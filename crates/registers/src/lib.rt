// The processor's registers, and the operations on them that make no access of their own.
#![tactic(auto)]

ghost use Rattle.std.specs.Prelude.{◌≡◌};
ghost use Rattle.arithmetic.specs.Results.{indexed_of};
ghost use Rattle.registers.specs.Registers.{with_a, with_b, with_x, with_sp, with_pc, with_codes, with_waiting, idles, d, with_d};
ghost use Rattle.registers.specs.Registers.{accumulator, with_accumulator, result_in, result_in_d, with_v, with_c, with_i, internal_of, wide_of, stored_of, offset};

use arithmetic::{Codes, Outcome};
use bits::{lower, minus, pair, plus, upper};
use opcodes::{Accumulator, Internal, Wide, WideStore};

#[derive(Clone, Copy)]
pub struct Registers {
    pub a: u8,
    pub b: u8,
    pub x: u16,
    pub sp: u16,
    pub pc: u16,
    pub codes: Codes,
    pub waiting: bool,
}

// A branch offset as a word: -128 to 127, round at 65,536.
pub fn offset_of(v: u8) -> u16
    ensures { result ≡ offset v }
{
    i16::from(v.cast_signed()).cast_unsigned()
}

fn with_v(k: Codes, b: bool) -> Codes
    ensures { result ≡ with_v k b }
{
    Codes { v: b, ..k }
}

fn with_c(k: Codes, b: bool) -> Codes
    ensures { result ≡ with_c k b }
{
    Codes { c: b, ..k }
}

pub fn with_i(k: Codes, b: bool) -> Codes
    ensures { result ≡ with_i k b }
{
    Codes { i: b, ..k }
}

// These replace a field in place: with `..self` straight code executed some 6 instructions more for each emulated one.
impl Registers {
    pub fn with_a(mut self, v: u8) -> Registers
        ensures { result ≡ with_a self v }
    {
        self.a = v;
        self
    }

    pub fn with_b(mut self, v: u8) -> Registers
        ensures { result ≡ with_b self v }
    {
        self.b = v;
        self
    }

    pub fn with_x(mut self, w: u16) -> Registers
        ensures { result ≡ with_x self w }
    {
        self.x = w;
        self
    }

    pub fn with_sp(mut self, w: u16) -> Registers
        ensures { result ≡ with_sp self w }
    {
        self.sp = w;
        self
    }

    pub fn with_pc(mut self, w: u16) -> Registers
        ensures { result ≡ with_pc self w }
    {
        self.pc = w;
        self
    }

    pub fn with_codes(mut self, k: Codes) -> Registers
        ensures { result ≡ with_codes self k }
    {
        self.codes = k;
        self
    }

    pub fn with_waiting(mut self, w: bool) -> Registers
        ensures { result ≡ with_waiting self w }
    {
        self.waiting = w;
        self
    }

    // Whether a cycle merely passes.
    pub fn idles(self) -> bool
        ensures { result ≡ idles self }
    {
        self.waiting
    }

    // The double accumulator.
    pub fn double(self) -> u16
        ensures { result ≡ d self }
    {
        pair(self.a, self.b)
    }

    pub fn with_double(mut self, w: u16) -> Registers
        ensures { result ≡ with_d self w }
    {
        self.a = upper(w);
        self.b = lower(w);
        self
    }

    pub fn of(self, acc: Accumulator) -> u8
        ensures { result ≡ accumulator acc self }
    {
        match acc {
            Accumulator::A => self.a,
            Accumulator::B => self.b,
        }
    }

    pub fn with(self, acc: Accumulator, v: u8) -> Registers
        ensures { result ≡ with_accumulator acc self v }
    {
        match acc {
            Accumulator::A => self.with_a(v),
            Accumulator::B => self.with_b(v),
        }
    }

    // A result with its codes.
    pub fn result(self, acc: Accumulator, r: Outcome<u8>) -> Registers
        ensures { result ≡ result_in acc self r }
    {
        self.with(acc, r.value).with_codes(r.codes)
    }

    fn result_double(self, r: Outcome<u16>) -> Registers
        ensures { result ≡ result_in_d self r }
    {
        self.with_double(r.value).with_codes(r.codes)
    }
}

// The operations.
impl Registers {
    // INX and DEX: X and Z.
    fn indexing(self, x: u16) -> Registers
        ensures { result ≡ with_codes (with_x self x) (indexed_of x self.codes) }
    {
        self.with_x(x)
            .with_codes(arithmetic::indexed(x, self.codes))
    }

    // On the registers alone.
    pub fn internal(self, op: Internal) -> Registers
        ensures { result ≡ internal_of op self }
    {
        let k = self.codes;
        match op {
            Internal::Nop => self,
            Internal::Lsrd => self.result_double(arithmetic::lsr16(self.double(), k)),
            Internal::Asld => self.result_double(arithmetic::asl16(self.double(), k)),
            Internal::Tap => self.with_codes(Codes::from(self.a)),
            Internal::Tpa => self.with_a(u8::from(k)),
            Internal::Inx => self.indexing(plus(self.x, 1)),
            Internal::Dex => self.indexing(minus(self.x, 1)),
            Internal::Clv => self.with_codes(with_v(k, false)),
            Internal::Sev => self.with_codes(with_v(k, true)),
            Internal::Clc => self.with_codes(with_c(k, false)),
            Internal::Sec => self.with_codes(with_c(k, true)),
            Internal::Cli => self.with_codes(with_i(k, false)),
            Internal::Sei => self.with_codes(with_i(k, true)),
            Internal::Sba => self.result(Accumulator::A, arithmetic::sub(self.a, self.b, k)),
            Internal::Cba => self.with_codes(arithmetic::sub(self.a, self.b, k).codes),
            Internal::Tab => self.with_b(self.a).with_codes(arithmetic::moved(self.a, k)),
            Internal::Tba => self.with_a(self.b).with_codes(arithmetic::moved(self.b, k)),
            Internal::Daa => self.result(Accumulator::A, arithmetic::daa(self.a, k)),
            Internal::Aba => self.result(Accumulator::A, arithmetic::add(self.a, self.b, k)),
            Internal::Tsx => self.with_x(plus(self.sp, 1)),
            Internal::Ins => self.with_sp(plus(self.sp, 1)),
            Internal::Des => self.with_sp(minus(self.sp, 1)),
            Internal::Txs => self.with_sp(minus(self.x, 1)),
            Internal::Abx => self.with_x(plus(self.x, self.b as u16)),
            Internal::Mul => self.result_double(arithmetic::mul(self.a, self.b, k)),
        }
    }

    // On a 16-bit register and a word.
    pub fn wide(self, op: Wide, w: u16) -> Registers
        ensures { result ≡ wide_of op w self }
    {
        let k = self.codes;
        match op {
            Wide::Subd => self.result_double(arithmetic::sub16(self.double(), w, k)),
            Wide::Addd => self.result_double(arithmetic::add16(self.double(), w, k)),
            Wide::Cpx => self.with_codes(arithmetic::sub16(self.x, w, k).codes),
            Wide::Ldd => self.with_double(w).with_codes(arithmetic::moved(w, k)),
            Wide::Lds => self.with_sp(w).with_codes(arithmetic::moved(w, k)),
            Wide::Ldx => self.with_x(w).with_codes(arithmetic::moved(w, k)),
        }
    }

    // The 16-bit register that is stored.
    pub fn stored(self, op: WideStore) -> u16
        ensures { result ≡ stored_of op self }
    {
        match op {
            WideStore::Std => self.double(),
            WideStore::Sts => self.sp,
            WideStore::Stx => self.x,
        }
    }
}
