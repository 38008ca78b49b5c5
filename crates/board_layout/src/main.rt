// The places of what the C calls write, as board/pliruzza.h names them: each number is written with a byte of its own, and found again.
#![tactic(auto)]

use counts::{Counts, Cycles, Entries, Instructions, Leaps, Records, Sent};
use opcodes::{Accumulator, Dyadic, Instruction, Operation, Place};
use printing::Line;
use replies::Reply;
use wake_log::Row;

fn tell(rt: &impl Print, name: &[u8], n: usize) {
    Line::empty()
        .text(b"PLIRUZZA_")
        .text(name)
        .text(b" = ")
        .decimal(n as u64)
        .text(b"\n")
        .print(rt);
}

// Where a byte stands first, or the end.
fn place_of(v: u8, bytes: &[u8]) -> usize {
    bytes
        .iter()
        .position(|byte| *byte == v)
        .unwrap_or(bytes.len())
}

// A run's result: the leaping run's, whose first bytes are the single run's.
fn result() -> [u8; 44] {
    let counted = Counts {
        cycles: Cycles(0x11111111),
        instructions: Instructions(0x22222222),
        entries: Entries(0x33333333),
        used: Records(0x4444444444444444),
        sent: Sent(0x5555555555555555),
    };
    let mut result = [0u8; 44];
    board_results::report(
        true,
        Reply::Time(0x6666666666666666),
        counted,
        Leaps(0x77777777),
        &mut result,
    );
    result
}

fn tell_result(rt: &impl Print, res: &[u8]) {
    tell(rt, b"AT_REPLY", place_of(7, res));
    tell(rt, b"AT_CYCLES", place_of(0x11, res));
    tell(rt, b"AT_INSTRUCTIONS", place_of(0x22, res));
    tell(rt, b"AT_ENTRIES", place_of(0x33, res));
    tell(rt, b"AT_USED", place_of(0x44, res));
    tell(rt, b"AT_SENT", place_of(0x55, res));
    tell(rt, b"AT_RECORD", place_of(0x66, res));
    tell(rt, b"AT_LEAPS", place_of(0x77, res));
}

// The answer about an opcode: ADD of B, group 1, operation 9, accumulator 2; extended, which is place 7; 3 bytes, 4 cycles.
fn answer() -> [u8; 6] {
    let add = Instruction {
        operation: Operation::Dyadic(Dyadic::Add, Accumulator::B),
        place: Place::Extended,
        length: 3,
        cycles: 4,
    };
    board_numbers::instruction_bytes(add)
}

fn tell_answer(rt: &impl Print, answer: &[u8]) {
    tell(rt, b"AT_GROUP", place_of(1, answer));
    tell(rt, b"AT_OPERATION", place_of(9, answer));
    tell(rt, b"AT_ACCUMULATOR", place_of(2, answer));
    tell(rt, b"AT_PLACE", place_of(7, answer));
    tell(rt, b"AT_LENGTH", place_of(3, answer));
    tell(rt, b"AT_CYCLES_TAKEN", place_of(4, answer));
}

// A row of the wake log, written as the first and as the second.
fn row() -> Row {
    Row {
        cycle: 0x11111111,
        cause: 0x22,
        behind: 0x33,
    }
}

fn first_row() -> [u8; 16] {
    let mut log = [0u8; 16];
    wake_log::write_row(&mut log, 0, row());
    log
}

fn second_row() -> [u8; 16] {
    let mut log = [0u8; 16];
    wake_log::write_row(&mut log, 1, row());
    log
}

fn tell_row(rt: &impl Print, first: &[u8], second: &[u8]) {
    tell(rt, b"ROW", place_of(0x11, second));
    tell(rt, b"ROW_CYCLE", place_of(0x11, first));
    tell(rt, b"ROW_CAUSE", place_of(0x22, first));
    tell(rt, b"ROW_BEHIND", place_of(0x33, first));
}

// Whether a set of bits asks for the log: 1, else 0.
fn asks(bits: u32) -> u8 {
    board_numbers::asks_log(bits) as u8
}

fn main(rt: HostRuntime) {
    tell(&rt, b"SINGLE", board_results::record_size(false));
    tell(&rt, b"LEAPING", board_results::record_size(true));
    let answer = answer();
    tell(&rt, b"ANSWER", answer.len());
    tell_result(&rt, &result());
    tell_answer(&rt, &answer);
    tell(
        &rt,
        b"WATCH_LOG",
        place_of(1, &[asks(0), asks(1), asks(2), asks(3)]),
    );
    tell_row(&rt, &first_row(), &second_row());
}
