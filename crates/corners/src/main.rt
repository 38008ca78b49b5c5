// Instructions that meet the registers, the edges of memory and the area: standard input has the rows, and each
// answer says all that is not as it was before the row. docs/CASES.md explains the rows.
#![tactic(auto)]

ghost use Rattle.std.specs.Prelude.{◌≤◌};

use arithmetic::Codes;
use bits::Flag;
use bus::{Bus, peek};
use chip::Chip;
use machine::Machine;
use ports::{Port, Ports};
use registers::Registers;
use serial::Serial;
use timer::Timer;

// A row's columns: its name, R, the number of instructions, the code; and where the code goes.
const NAME: isize = 24;

const R: u16 = 24;

const STEPS: u16 = 30;

const CODE: u16 = 32;

const LONGEST: u16 = 16;

const ORIGIN: u16 = 0x1000;

// The first byte of the image and of the area before a row; each next byte is one more.
const IMAGE: u8 = 0x00;

const AREA: u8 = 0xB0;

#[derive(Clone, Copy)]
struct Ran {
    machine: Machine,
    cycles: u64,
}

fn set_flag() -> Flag {
    Flag::lowered().raise()
}

fn start_ports() -> Ports {
    Ports {
        port1: Port {
            direction: 0x0F,
            latch: 0x3C,
            pins: 0xA5,
        },
        port2: Port {
            direction: 0x13,
            latch: 0x11,
            pins: 0x0C,
        },
        mode: 5,
    }
}

fn start_timer() -> Timer {
    Timer {
        olvl: false,
        iedg: true,
        etoi: false,
        eoci: true,
        eici: false,
        tof: set_flag(),
        ocf: set_flag(),
        icf: set_flag(),
        counter: 0x1234,
        compare: 0x5678,
        capture: 0x9ABC,
        level: true,
    }
}

fn start_serial() -> Serial {
    Serial {
        wu: true,
        te: false,
        tie: true,
        re: false,
        rie: true,
        tdre: set_flag(),
        orfe: set_flag(),
        rdrf: set_flag(),
        rate: 9,
        received: 0x6B,
        transmit: 0x2C,
        busy: 0,
    }
}

fn start_registers() -> Registers {
    Registers {
        a: 0xB6,
        b: 0x5D,
        x: 0x0200,
        sp: 0x00F0,
        pc: ORIGIN,
        codes: Codes::from(0xD0u8),
        waiting: false,
    }
}

fn start(r: u32) -> Machine {
    let bus = Bus {
        ports: start_ports(),
        timer: start_timer(),
        serial: start_serial(),
        rame: true,
        standby: false,
        r,
    };
    Machine {
        chip: Chip {
            registers: start_registers(),
            bus,
        },
        irq1: true,
        nmi: false,
    }
}

// Byte k of a memory before a row.
fn pattern(first: u8, k: usize) -> u8 {
    first.wrapping_add((k % 256) as u8)
}

fn fill(memory: &mut [u8], first: u8) {
    for (k, cell) in memory.iter_mut().enumerate() {
        *cell = pattern(first, k);
    }
}

fn digit(c: u8) -> u8
    ensures { result ≤ 15 }
{
    match c {
        b'0'..=b'9' => c - b'0',
        b'A'..=b'F' => c - b'A' + 10,
        _ => 0,
    }
}

// Two hexadecimal digits of a row.
fn byte_at(row: &[u8], column: u16) -> u8 {
    16 * digit(peek(row, column)) + digit(peek(row, bits::plus(column, 1)))
}

fn start_of(row: &[u8]) -> u32 {
    let low = bits::pair(byte_at(row, R + 1), byte_at(row, R + 3));
    digit(peek(row, R)) as u32 * 65536 + low as u32
}

fn load(row: &[u8], image: &mut [u8]) {
    for k in 0..LONGEST {
        let column = CODE + 3 * k;
        if (column as usize) < row.len()
            && let Some(cell) = image.get_mut((ORIGIN + k) as usize)
        {
            *cell = byte_at(row, column);
        }
    }
}

impl Ran {
    // One instruction further; none where the opcode is undefined.
    fn further(self, image: &mut [u8], area: &mut [u8]) -> Ran {
        let Some(i) = self.machine.look(image, area) else {
            return self;
        };
        let moved = self.machine.step(i, image, area);
        Ran {
            machine: moved.machine,
            cycles: self.cycles.wrapping_add(moved.cycles.0 as u64),
        }
    }
}

fn run(machine: Machine, steps: u8, image: &mut [u8], area: &mut [u8]) -> Ran {
    let mut ran = Ran { machine, cycles: 0 };
    for _ in 0..steps {
        ran = ran.further(image, area);
    }
    ran
}

// What changed: its name and what it is now.
fn show(rt: &impl Print, name: &[u8], before: u16, after: u16, digits: usize) {
    if before != after {
        host::show(rt, b" ");
        host::show(rt, name);
        host::show(rt, b" ");
        host::show_hexadecimal(rt, after as u64, digits);
    }
}

fn show_byte(rt: &impl Print, name: &[u8], before: u8, after: u8) {
    show(rt, name, before as u16, after as u16, 2);
}

fn show_word(rt: &impl Print, name: &[u8], before: u16, after: u16) {
    show(rt, name, before, after, 4);
}

fn show_bit(rt: &impl Print, name: &[u8], before: bool, after: bool) {
    show(rt, name, before as u16, after as u16, 1);
}

fn show_registers(rt: &impl Print, was: Registers, is: Registers) {
    show_word(rt, b"pc", was.pc, is.pc);
    show_byte(rt, b"a", was.a, is.a);
    show_byte(rt, b"b", was.b, is.b);
    show_word(rt, b"x", was.x, is.x);
    show_word(rt, b"sp", was.sp, is.sp);
    show_byte(rt, b"cc", u8::from(was.codes), u8::from(is.codes));
    show_bit(rt, b"waiting", was.waiting, is.waiting);
}

fn show_ports(rt: &impl Print, was: Ports, is: Ports) {
    show_byte(rt, b"direction1", was.port1.direction, is.port1.direction);
    show_byte(rt, b"latch1", was.port1.latch, is.port1.latch);
    show_byte(rt, b"direction2", was.port2.direction, is.port2.direction);
    show_byte(rt, b"latch2", was.port2.latch, is.port2.latch);
}

fn show_timer(rt: &impl Print, was: Timer, is: Timer) {
    show_byte(
        rt,
        b"tcsr",
        was.read(timer::TimerRegister::Tcsr).value,
        is.read(timer::TimerRegister::Tcsr).value,
    );
    show_bit(rt, b"tof-armed", was.tof.armed, is.tof.armed);
    show_bit(rt, b"ocf-armed", was.ocf.armed, is.ocf.armed);
    show_bit(rt, b"icf-armed", was.icf.armed, is.icf.armed);
    show_word(rt, b"counter", was.counter, is.counter);
    show_word(rt, b"compare", was.compare, is.compare);
    show_word(rt, b"capture", was.capture, is.capture);
    show_bit(rt, b"level", was.level, is.level);
}

fn show_serial(rt: &impl Print, was: Serial, is: Serial) {
    show_byte(rt, b"trcs", was.trcs(), is.trcs());
    show_bit(rt, b"tdre-armed", was.tdre.armed, is.tdre.armed);
    show_bit(rt, b"orfe-armed", was.orfe.armed, is.orfe.armed);
    show_bit(rt, b"rdrf-armed", was.rdrf.armed, is.rdrf.armed);
    show_byte(rt, b"rate", was.rate, is.rate);
    show_byte(rt, b"received", was.received, is.received);
    show_byte(rt, b"transmit", was.transmit, is.transmit);
}

fn show_machine(rt: &impl Print, was: Machine, is: Machine) {
    let before = was.chip.bus;
    let after = is.chip.bus;
    show_registers(rt, was.chip.registers, is.chip.registers);
    show_ports(rt, before.ports, after.ports);
    show_timer(rt, before.timer, after.timer);
    show_serial(rt, before.serial, after.serial);
    show_bit(rt, b"rame", before.rame, after.rame);
    show_bit(rt, b"standby", before.standby, after.standby);
}

// A byte of a memory by its address, unless it is the row's code.
fn show_cell(rt: &impl Print, name: &[u8], at: u64, v: u8) {
    if !(ORIGIN as u64..(ORIGIN + LONGEST) as u64).contains(&at) {
        host::show(rt, name);
        host::show_hexadecimal(rt, at, 4);
        host::show(rt, b"] ");
        host::show_hexadecimal(rt, v as u64, 2);
    }
}

// The bytes that are not of the pattern, which they then are again; `at` is the address of the first.
fn show_memory(rt: &impl Print, name: &[u8], at: u64, memory: &mut [u8], first: u8) {
    for (k, cell) in memory.iter_mut().enumerate() {
        if *cell != pattern(first, k) {
            show_cell(rt, name, at.wrapping_add(k as u64), *cell);
            *cell = pattern(first, k);
        }
    }
}

fn show_memories(rt: &impl Print, image: &mut [u8], area: &mut [u8]) {
    show_memory(rt, b" [", 0, image, IMAGE);
    show_memory(rt, b" area[", 0x80, area, AREA);
}

fn show_name(rt: &impl Print, row: &[u8]) {
    let n = io::count(NAME, row);
    host::show(rt, &row[..n]);
}

// A row's answer.
fn answer(rt: &impl Print, row: &[u8], image: &mut [u8], area: &mut [u8]) {
    let machine = start(start_of(row));
    load(row, image);
    let ran = run(machine, digit(peek(row, STEPS)), image, area);
    show_name(rt, row);
    host::show(rt, b"cycles ");
    host::show_decimal(rt, ran.cycles);
    show_machine(rt, machine, ran.machine);
    show_memories(rt, image, area);
    host::show(rt, b"\n");
}

fn answer_all(rt: &impl Print, text: &[u8], image: &mut [u8], area: &mut [u8]) {
    for row in text.split_inclusive(|byte| *byte == b'\n') {
        answer(rt, row, image, area);
    }
}

fn main(rt: HostRuntime) {
    let mut text = io::large_buffer();
    let n = host::read_full(&mut rt.stdin(), &mut text);
    let mut image = io::large_buffer();
    let mut area = [0u8; 128];
    fill(&mut image, IMAGE);
    fill(&mut area, AREA);
    answer_all(&rt, &text[..n], &mut image, &mut area);
}
