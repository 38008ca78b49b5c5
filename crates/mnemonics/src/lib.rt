// The mnemonic of an operation at a place, as four characters: one table over the operations, by which a listing is written and read.
#![tactic(auto)]

ghost use Rattle.std.specs.Prelude.{◌≡◌};
ghost use Rattle.mnemonics.specs.Mnemonics.{letter_of, place_letter, lettered, dyadic_name, monadic_name, wide_name, wide_store_name};
ghost use Rattle.mnemonics.specs.Mnemonics.{internal_name, branch_name, mnemonic_of};

use opcodes::{Accumulator, Branch, Dyadic, Internal, Monadic, Operation, Place, Wide, WideStore};

// The letter of an accumulator that is part of the operation.
fn letter(accumulator: Accumulator) -> u8
    ensures { result ≡ letter_of accumulator }
{
    match accumulator {
        Accumulator::A => b'A',
        Accumulator::B => b'B',
    }
}

// The letter of an accumulator that is the operand's place, a blank at any other.
fn place_letter(place: Place) -> u8
    ensures { result ≡ place_letter place }
{
    match place {
        Place::AccumulatorA => letter(Accumulator::A),
        Place::AccumulatorB => letter(Accumulator::B),
        _ => b' ',
    }
}

// Three letters, and a fourth.
fn lettered(three: [u8; 3], fourth: u8) -> [u8; 4]
    ensures { result ≡ lettered three fourth }
{
    [three[0], three[1], three[2], fourth]
}

fn dyadic_name(operation: Dyadic) -> [u8; 3]
    ensures { result ≡ dyadic_name operation }
{
    match operation {
        Dyadic::Sub => *b"SUB",
        Dyadic::Cmp => *b"CMP",
        Dyadic::Sbc => *b"SBC",
        Dyadic::And => *b"AND",
        Dyadic::Bit => *b"BIT",
        Dyadic::Lda => *b"LDA",
        Dyadic::Eor => *b"EOR",
        Dyadic::Adc => *b"ADC",
        Dyadic::Ora => *b"ORA",
        Dyadic::Add => *b"ADD",
    }
}

fn monadic_name(operation: Monadic) -> [u8; 3]
    ensures { result ≡ monadic_name operation }
{
    match operation {
        Monadic::Neg => *b"NEG",
        Monadic::Com => *b"COM",
        Monadic::Lsr => *b"LSR",
        Monadic::Ror => *b"ROR",
        Monadic::Asr => *b"ASR",
        Monadic::Asl => *b"ASL",
        Monadic::Rol => *b"ROL",
        Monadic::Dec => *b"DEC",
        Monadic::Inc => *b"INC",
        Monadic::Clr => *b"CLR",
    }
}

fn wide_name(operation: Wide) -> [u8; 4]
    ensures { result ≡ wide_name operation }
{
    match operation {
        Wide::Subd => *b"SUBD",
        Wide::Addd => *b"ADDD",
        Wide::Cpx => *b"CPX ",
        Wide::Ldd => *b"LDD ",
        Wide::Lds => *b"LDS ",
        Wide::Ldx => *b"LDX ",
    }
}

fn wide_store_name(operation: WideStore) -> [u8; 4]
    ensures { result ≡ wide_store_name operation }
{
    match operation {
        WideStore::Std => *b"STD ",
        WideStore::Sts => *b"STS ",
        WideStore::Stx => *b"STX ",
    }
}

fn internal_name(operation: Internal) -> [u8; 4]
    ensures { result ≡ internal_name operation }
{
    match operation {
        Internal::Nop => *b"NOP ",
        Internal::Lsrd => *b"LSRD",
        Internal::Asld => *b"ASLD",
        Internal::Tap => *b"TAP ",
        Internal::Tpa => *b"TPA ",
        Internal::Inx => *b"INX ",
        Internal::Dex => *b"DEX ",
        Internal::Clv => *b"CLV ",
        Internal::Sev => *b"SEV ",
        Internal::Clc => *b"CLC ",
        Internal::Sec => *b"SEC ",
        Internal::Cli => *b"CLI ",
        Internal::Sei => *b"SEI ",
        Internal::Sba => *b"SBA ",
        Internal::Cba => *b"CBA ",
        Internal::Tab => *b"TAB ",
        Internal::Tba => *b"TBA ",
        Internal::Daa => *b"DAA ",
        Internal::Aba => *b"ABA ",
        Internal::Tsx => *b"TSX ",
        Internal::Ins => *b"INS ",
        Internal::Des => *b"DES ",
        Internal::Txs => *b"TXS ",
        Internal::Abx => *b"ABX ",
        Internal::Mul => *b"MUL ",
    }
}

fn branch_name(operation: Branch) -> [u8; 4]
    ensures { result ≡ branch_name operation }
{
    match operation {
        Branch::Bra => *b"BRA ",
        Branch::Brn => *b"BRN ",
        Branch::Bhi => *b"BHI ",
        Branch::Bls => *b"BLS ",
        Branch::Bcc => *b"BCC ",
        Branch::Bcs => *b"BCS ",
        Branch::Bne => *b"BNE ",
        Branch::Beq => *b"BEQ ",
        Branch::Bvc => *b"BVC ",
        Branch::Bvs => *b"BVS ",
        Branch::Bpl => *b"BPL ",
        Branch::Bmi => *b"BMI ",
        Branch::Bge => *b"BGE ",
        Branch::Blt => *b"BLT ",
        Branch::Bgt => *b"BGT ",
        Branch::Ble => *b"BLE ",
    }
}

#[tactic(auto, unfolding(crate::specs::Mnemonics::mnemonic_of))]
// The mnemonic, its fourth character a blank where it has three letters.
pub fn mnemonic(operation: Operation, place: Place) -> [u8; 4]
    ensures { result ≡ mnemonic_of operation place }
{
    match operation {
        Operation::Internal(i) => internal_name(i),
        Operation::Dyadic(d, a) => lettered(dyadic_name(d), letter(a)),
        Operation::Monadic(m) => lettered(monadic_name(m), place_letter(place)),
        Operation::Tst => lettered(*b"TST", place_letter(place)),
        Operation::Sta(a) => lettered(*b"STA", letter(a)),
        Operation::Wide(w) => wide_name(w),
        Operation::WideStore(w) => wide_store_name(w),
        Operation::Psh(a) => lettered(*b"PSH", letter(a)),
        Operation::Pul(a) => lettered(*b"PUL", letter(a)),
        Operation::Pshx => *b"PSHX",
        Operation::Pulx => *b"PULX",
        Operation::Branch(b) => branch_name(b),
        Operation::Jmp => *b"JMP ",
        Operation::Jsr => *b"JSR ",
        Operation::Bsr => *b"BSR ",
        Operation::Rts => *b"RTS ",
        Operation::Rti => *b"RTI ",
        Operation::Swi => *b"SWI ",
        Operation::Wai => *b"WAI ",
    }
}
