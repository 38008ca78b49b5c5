// Replays single instructions that were seen on an independent emulator, each against `Machine::look` and `Machine::step`.
// Standard input has the cases: tools/vectors.py says how.
#![tactic(auto)]

use arithmetic::Codes;
use bus::peek;
use chip::Chip;
use machine::{Machine, Moved};
use opcodes::Instruction;
use registers::Registers;
use std::io::Read;

// What the image holds wherever no case has a cell.
const BACKGROUND: u8 = 0xA5;

// Where the parts of a case are.
const AFTER: u16 = 9;

const CYCLES: u16 = 18;

const WAITS: u16 = 19;

const CELLS: u16 = 20;

const FIRST_CELL: u16 = 21;

// How long a case is without its cells, and with ten.
const HEAD: usize = 21;

const LONGEST: usize = 61;

// What is not as it was seen. `Undefined` is an opcode that runs nothing, `Beside` the byte before or after a cell.
#[derive(Clone, Copy)]
enum Difference {
    Undefined,
    Pc,
    A,
    B,
    X,
    Sp,
    Codes,
    Waiting,
    Cycles,
    Counter,
    Cell,
    Beside,
}

// An address that was accessed, and what it holds before the instruction and after it.
#[derive(Clone, Copy)]
struct Cell {
    at: u16,
    before: u8,
    after: u8,
}

// The cases so far, how many of them differ, and the first that does with its difference.
#[derive(Clone, Copy)]
struct Tally {
    cases: u64,
    differing: u64,
    first: Option<(u64, Difference)>,
}

// The emulator leaves the top two bits of the codes as they came after TAP and RTI, where 01 forces them to 1.
// Its one other difference does not show: it does not read before CLR on memory.
fn codes_seen(codes: u8) -> u8 {
    codes | 0xC0
}

fn word(case: &[u8], at: u16) -> u16 {
    bits::pair(peek(case, at), peek(case, bits::plus(at, 1)))
}

fn put(image: &mut [u8], at: u16, v: u8) {
    if let Some(cell) = image.get_mut(at as usize) {
        *cell = v;
    }
}

// The case's k-th cell.
fn cell_at(case: &[u8], k: u8) -> Cell {
    let i = FIRST_CELL + 4 * (k as u16);
    Cell {
        at: word(case, i),
        before: peek(case, i + 2),
        after: peek(case, i + 3),
    }
}

// The cells as they are before the instruction.
fn place(case: &[u8], image: &mut [u8]) {
    let n = peek(case, CELLS);
    for k in 0..n {
        let c = cell_at(case, k);
        put(image, c.at, c.before);
    }
}

// Whether a cell is not as it was seen after the instruction. All become background.
fn take_cells(case: &[u8], image: &mut [u8]) -> bool {
    let n = peek(case, CELLS);
    let mut differ = false;
    for k in 0..n {
        let c = cell_at(case, k);
        differ |= peek(image, c.at) != c.after;
        put(image, c.at, BACKGROUND);
    }
    differ
}

// Whether a byte before or after a cell is not background, once all cells are.
fn beside_differs(case: &[u8], image: &[u8]) -> bool {
    let n = peek(case, CELLS);
    let mut differ = false;
    for k in 0..n {
        let at = cell_at(case, k).at;
        differ |= peek(image, bits::minus(at, 1)) != BACKGROUND;
        differ |= peek(image, bits::plus(at, 1)) != BACKGROUND;
    }
    differ
}

// The machine, with the registers before the instruction.
fn start(machine: Machine, case: &[u8]) -> Machine {
    let registers = Registers {
        a: peek(case, 2),
        b: peek(case, 3),
        x: word(case, 4),
        sp: word(case, 6),
        pc: word(case, 0),
        codes: Codes::from(peek(case, 8)),
        waiting: false,
    };
    Machine {
        chip: Chip {
            registers,
            ..machine.chip
        },
        irq1: true,
        nmi: false,
    }
}

fn compare_registers(registers: Registers, case: &[u8]) -> Result<(), Difference> {
    if registers.pc != word(case, AFTER) {
        return Err(Difference::Pc);
    }
    if registers.a != peek(case, AFTER + 2) {
        return Err(Difference::A);
    }
    if registers.b != peek(case, AFTER + 3) {
        return Err(Difference::B);
    }
    if registers.x != word(case, AFTER + 4) {
        return Err(Difference::X);
    }
    if registers.sp != word(case, AFTER + 6) {
        return Err(Difference::Sp);
    }
    if u8::from(registers.codes) != codes_seen(peek(case, AFTER + 8)) {
        return Err(Difference::Codes);
    }
    Ok(())
}

fn compare_time(moved: Moved, case: &[u8]) -> Result<(), Difference> {
    let cycles = peek(case, CYCLES);
    if moved.machine.chip.registers.waiting != (peek(case, WAITS) == 1) {
        return Err(Difference::Waiting);
    }
    if moved.cycles.0 != cycles as u32 {
        return Err(Difference::Cycles);
    }
    if moved.machine.chip.bus.timer.counter != cycles as u16 {
        return Err(Difference::Counter);
    }
    Ok(())
}

// The first difference after the instruction, and the image as it was before the case.
fn compare(moved: Moved, case: &[u8], image: &mut [u8]) -> Result<(), Difference> {
    if take_cells(case, image) {
        return Err(Difference::Cell);
    }
    if beside_differs(case, image) {
        return Err(Difference::Beside);
    }
    compare_time(moved, case)?;
    compare_registers(moved.machine.chip.registers, case)
}

// One step; bit 6 of $14 is set, so that no byte of the area is met.
fn step(m: Machine, i: Instruction, image: &mut [u8]) -> Moved {
    let mut area = [0u8; 128];
    m.step(i, image, &mut area)
}

// The instruction at PC, and what it left.
fn executed(m: Machine, case: &[u8], image: &mut [u8]) -> Result<(), Difference> {
    let Some(i) = m.look(image, b"") else {
        take_cells(case, image);
        return Err(Difference::Undefined);
    };
    compare(step(m, i, image), case, image)
}

fn replay(machine: Machine, case: &[u8], image: &mut [u8]) -> Result<(), Difference> {
    place(case, image);
    executed(start(machine, case), case, image)
}

impl Tally {
    fn with(self, seen: Result<(), Difference>) -> Tally {
        let cases = self.cases.wrapping_add(1);
        match seen {
            Ok(()) => Tally { cases, ..self },
            Err(difference) => Tally {
                cases,
                differing: self.differing.wrapping_add(1),
                first: self.first.or(Some((cases, difference))),
            },
        }
    }
}

// Fills a part of the case, if there is such a part and the input has so much.
fn read_part(source: &mut impl Read, case: &mut [u8], start: usize, end: usize) -> bool {
    let Some(part) = case.get_mut(start..end) else {
        return false;
    };
    host::read_full(source, part) == part.len()
}

// The next case, if the input has another whole one.
fn read_case(source: &mut impl Read, case: &mut [u8]) -> bool {
    read_part(source, case, 0, HEAD)
        && read_part(source, case, HEAD, HEAD + 4 * (peek(case, CELLS) as usize))
}

// Every case, on the same machine and image. A proved loop has to end, and nothing says that the input does.
fn replay_all(source: &mut impl Read, machine: Machine, image: &mut [u8]) -> Tally {
    let mut tally = Tally {
        cases: 0,
        differing: 0,
        first: None,
    };
    let mut case = [0u8; LONGEST];
    for _ in 0..u32::MAX {
        if !read_case(source, &mut case) {
            break;
        }
        tally = tally.with(replay(machine, &case, image));
    }
    tally
}

impl Difference {
    fn name(self) -> &'static [u8] {
        match self {
            Difference::Undefined => b"undefined",
            Difference::Pc => b"pc",
            Difference::A => b"a",
            Difference::B => b"b",
            Difference::X => b"x",
            Difference::Sp => b"sp",
            Difference::Codes => b"codes",
            Difference::Waiting => b"waiting",
            Difference::Cycles => b"cycles",
            Difference::Counter => b"counter",
            Difference::Cell => b"cell",
            Difference::Beside => b"beside",
        }
    }
}

fn report(rt: &impl Print, tally: Tally) {
    host::show(rt, b"cases ");
    host::show_decimal(rt, tally.cases);
    host::show(rt, b" differ ");
    host::show_decimal(rt, tally.differing);
    host::show(rt, b"\n");
    if let Some((first, difference)) = tally.first {
        host::show(rt, b"first ");
        host::show_decimal(rt, first);
        host::show(rt, b" in ");
        host::show(rt, difference.name());
        host::show(rt, b"\n");
    }
}

fn main(rt: HostRuntime) {
    let mut image = [BACKGROUND; 65536];
    let Ok(machine) = machine::power_on(&image, 65536) else {
        return;
    };
    report(&rt, replay_all(&mut rt.stdin(), machine, &mut image));
    if image.iter().any(|byte| *byte != BACKGROUND) {
        host::show(&rt, b"a byte changed that is no cell\n");
    }
}
