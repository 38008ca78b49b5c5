// An instruction as six numbers of a byte each, for callers that can be handed bytes only: the group of its operation, the operation
// within the group, the accumulator that is part of it, the operand place, the length and the cycles. And what a run is to watch, as bits of a number.
#![tactic(auto)]

ghost use Rattle.std.specs.Prelude.{◌≡◌};
ghost use Rattle.board_numbers.specs.Numbers.{accumulator_number, place_number, operation_bytes, instruction_bytes};
ghost use Rattle.board_numbers.specs.Watch.{asks_log, unknown_bits};

use opcodes::{Accumulator, Instruction, Operation, Place};

fn accumulator_number(a: Accumulator) -> u8
    ensures { result ≡ accumulator_number a }
{
    a as u8 + 1
}

fn place_number(p: Place) -> u8
    ensures { result ≡ place_number p }
{
    p as u8
}

// The group of an operation, its number within the group, and the accumulator that is part of it.
fn operation_bytes(o: Operation) -> [u8; 3]
    ensures { result ≡ operation_bytes o }
{
    match o {
        Operation::Internal(i) => [0, i as u8, 0],
        Operation::Dyadic(d, a) => [1, d as u8, accumulator_number(a)],
        Operation::Monadic(m) => [2, m as u8, 0],
        Operation::Tst => [3, 0, 0],
        Operation::Sta(a) => [4, 0, accumulator_number(a)],
        Operation::Wide(w) => [5, w as u8, 0],
        Operation::WideStore(w) => [6, w as u8, 0],
        Operation::Psh(a) => [7, 0, accumulator_number(a)],
        Operation::Pul(a) => [8, 0, accumulator_number(a)],
        Operation::Pshx => [9, 0, 0],
        Operation::Pulx => [10, 0, 0],
        Operation::Branch(b) => [11, b as u8, 0],
        Operation::Jmp => [12, 0, 0],
        Operation::Jsr => [13, 0, 0],
        Operation::Bsr => [14, 0, 0],
        Operation::Rts => [15, 0, 0],
        Operation::Rti => [16, 0, 0],
        Operation::Swi => [17, 0, 0],
        Operation::Wai => [18, 0, 0],
    }
}

// An instruction's six numbers.
pub fn instruction_bytes(i: Instruction) -> [u8; 6]
    ensures { result ≡ instruction_bytes i }
{
    let [group, number, accumulator] = operation_bytes(i.operation);
    let place = place_number(i.place);
    [group, number, accumulator, place, i.length, i.cycles]
}

// Whether the bits ask for the wake log.
pub fn asks_log(bits: u32) -> bool
    ensures { result ≡ asks_log bits }
{
    bits % 2 == 1
}

// Whether one of them asks for nothing.
pub fn unknown_bits(bits: u32) -> bool
    ensures { result ≡ unknown_bits bits }
{
    bits > 1
}
