// The wake log in single and leaping runs side by side: docs/CASES.md works the expected lines from 02 and its readings.
#![tactic(auto)]

use bits::Flag;
use boundary::Watch;
use cabinet::Ran;
use cases::install;
use counts::Cycles;
use host::{named_decimal, named_hexadecimal};
use machine::Machine;
use printing::Line;

// What a case changes of the machine after power-on: the causes that hold (bit k for cause k), I, waiting, SP, and whether a byte is to be sent.
#[derive(Clone, Copy)]
struct Start {
    causes: u8,
    masked: bool,
    waiting: bool,
    sp: u16,
    sending: bool,
}

// What a case gives to the run: N, the log's room in bytes and the output's, what is watched.
#[derive(Clone, Copy)]
struct Room {
    n: u32,
    log: usize,
    output: usize,
    watch: Watch,
}

// Each vector leads to an address of its own, $0200 to $0260, where the code stays in place; power-on starts at $0100 with this opcode. It is laid into the
// run's own image: one that is returned is copied whole.
fn lay_rom(image: &mut [u8], opcode: u8) {
    install(
        image,
        0xFFF0,
        b"\x02\x50\x02\x40\x02\x30\x02\x20\x02\x10\x02\x60\x02\0\x01\0",
    );
    for at in (0x0200..=0x0260).step_by(16) {
        install(image, at, b"\x20\xFE");
    }
    install(image, 0x0100, &[opcode]);
}

fn has(causes: u8, weight: u8) -> bool {
    causes & weight != 0
}

// A flag, armed where it is set.
fn flag(set: bool) -> Flag {
    Flag { set, armed: set }
}

fn with_timer(mut m: Machine, causes: u8) -> Machine {
    let timer = &mut m.chip.bus.timer;
    timer.icf = flag(has(causes, 4));
    timer.ocf = flag(has(causes, 8));
    timer.tof = flag(has(causes, 16));
    timer.eici = true;
    timer.eoci = true;
    timer.etoi = true;
    m
}

fn with_serial(mut m: Machine, received: bool, sending: bool) -> Machine {
    let serial = &mut m.chip.bus.serial;
    serial.rie = true;
    serial.rdrf = flag(received);
    serial.te = sending;
    serial.tie = sending;
    serial.tdre = flag(!sending);
    m
}

fn with_registers(mut m: Machine, s: Start) -> Machine {
    let registers = &mut m.chip.registers;
    registers.codes.i = s.masked;
    registers.waiting = s.waiting;
    registers.sp = s.sp;
    m.nmi = has(s.causes, 1);
    m.irq1 = !has(s.causes, 2);
    m
}

fn started(m: Machine, s: Start) -> Machine {
    let timer = with_timer(m, s.causes);
    let serial = with_serial(timer, has(s.causes, 32), s.sending);
    with_registers(serial, s)
}

fn show_bytes(rt: &impl Print, bytes: &[u8]) {
    for byte in bytes {
        host::show_hexadecimal(rt, *byte as u64, 2);
    }
}

fn show_counts(rt: &impl Print, r: Ran) {
    named_decimal(rt, b" stop ", r.reply.number() as u64);
    let counts = lines::run_numbers(r.counts);
    lines::counts(Line::empty(), counts).print(rt);
}

fn show_machine(rt: &impl Print, m: Machine) {
    let c = m.chip.registers;
    named_hexadecimal(rt, b" pc ", c.pc as u64, 4);
    named_hexadecimal(rt, b" sp ", c.sp as u64, 4);
    named_decimal(rt, b" nmi ", m.nmi as u64);
    named_decimal(rt, b" waiting ", c.waiting as u64);
    named_decimal(rt, b" ocf ", m.chip.bus.timer.ocf.set as u64);
}

fn show(rt: &impl Print, r: Ran, log: &[u8]) {
    show_counts(rt, r);
    show_machine(rt, r.machine);
    host::show(rt, b" log ");
    show_bytes(rt, log);
}

// Either run, watched.
fn run(rt: &impl Print, leaping: bool, opcode: u8, session: &[u8], s: Start, room: Room) {
    let mut image = [0u8; 65536];
    lay_rom(&mut image, opcode);
    let mut area = [0u8; 128];
    let mut output = [0u8; 1];
    let mut log = [0xEEu8; 24];
    let Ok(m) = cabinet::power_on(&image, 65536) else {
        return;
    };
    let start = started(m, s);
    let output = &mut output[..room.output.min(1)];
    let log = &mut log[..room.log.min(24)];
    if leaping {
        let l = cabinet::watch_leaping(
            &mut image, &mut area, start, session, room.n, room.watch, output, log,
        );
        host::show(rt, b"  leaping");
        show(rt, l.ran, log);
        named_decimal(rt, b" leaps ", l.leaps.0 as u64);
    } else {
        let r = cabinet::watch_single(
            &mut image, &mut area, start, session, room.n, room.watch, output, log,
        );
        host::show(rt, b"  single ");
        show(rt, r, log);
    }
    host::show(rt, b"\n");
}

fn both(rt: &impl Print, title: &[u8], opcode: u8, session: &[u8], s: Start, room: Room) {
    host::show(rt, title);
    host::show(rt, b"\n");
    run(rt, false, opcode, session, s, room);
    run(rt, true, opcode, session, s, room);
}

fn holding(causes: u8, masked: bool) -> Start {
    Start {
        causes,
        masked,
        waiting: false,
        sp: 0x00FF,
        sending: false,
    }
}

fn logged(n: u32, log: usize) -> Room {
    Room {
        n,
        log,
        output: 1,
        watch: Watch {
            log: true,
            since: Cycles(0),
        },
    }
}

fn at_once(rt: &impl Print, title: &[u8], causes: u8, masked: bool) {
    both(rt, title, 0x01, b"", holding(causes, masked), logged(20, 8));
}

fn alone(rt: &impl Print) {
    at_once(rt, b"NMI", 0x01, false);
    at_once(rt, b"IRQ1", 0x02, false);
    at_once(rt, b"ICF", 0x04, false);
    at_once(rt, b"OCF", 0x08, false);
    at_once(rt, b"TOF", 0x10, false);
    at_once(rt, b"serial", 0x20, false);
}

fn together(rt: &impl Print) {
    at_once(rt, b"all six", 0x3F, false);
    at_once(rt, b"all six with I set", 0x3F, true);
    at_once(rt, b"all but NMI", 0x3E, false);
    at_once(rt, b"TOF and serial", 0x30, false);
    at_once(rt, b"all but NMI with I set", 0x3E, true);
}

// IRQ1 becomes low at 100.
const LOW: [u8; 9] = *b"\x07\x00\x03\x00\x64\x00\x00\x00\x00";

fn waiting() -> Start {
    Start {
        waiting: true,
        ..holding(0, false)
    }
}

fn sending(causes: u8) -> Start {
    Start {
        sending: true,
        ..holding(causes, false)
    }
}

fn on_registers(causes: u8) -> Start {
    Start {
        sp: 0x0011,
        ..holding(causes, false)
    }
}

fn moments(rt: &impl Print) {
    both(rt, b"out of a wait", 0x01, &LOW, waiting(), logged(110, 8));
    both(
        rt,
        b"TDRE set in the same boundary",
        0x01,
        b"",
        sending(0),
        logged(20, 8),
    );
    both(
        rt,
        b"the stack on the registers clears OCF",
        0x01,
        b"",
        on_registers(0x0A),
        logged(20, 8),
    );
    both(
        rt,
        b"the stack clears the cause itself",
        0x01,
        b"",
        on_registers(0x08),
        logged(20, 8),
    );
    both(
        rt,
        b"SWI is no entry",
        0x3F,
        b"",
        holding(0, false),
        logged(20, 8),
    );
}

// NMI at 30.
const AGAIN: [u8; 8] = *b"\x06\x00\x04\x00\x1E\x00\x00\x00";

fn rooms(rt: &impl Print) {
    let nmi = holding(0x01, false);
    both(rt, b"no room", 0x01, b"", nmi, logged(20, 0));
    both(rt, b"room of 7 bytes", 0x01, b"", nmi, logged(20, 7));
    both(rt, b"room of 15 bytes", 0x01, b"", nmi, logged(20, 15));
    both(
        rt,
        b"full, and a second NMI",
        0x01,
        &AGAIN,
        nmi,
        logged(100, 8),
    );
    both(rt, b"room for both", 0x01, &AGAIN, nmi, logged(100, 16));
    both(
        rt,
        b"full in a wait",
        0x01,
        &LOW,
        waiting(),
        logged(1000, 0),
    );
}

// No room for a row nor for a byte to be sent.
fn no_room() -> Room {
    Room {
        output: 0,
        ..logged(20, 0)
    }
}

fn orders(rt: &impl Print) {
    let nmi = holding(0x01, false);
    both(rt, b"9 before 11", 0x01, b"", sending(0x01), no_room());
    both(rt, b"0 before 11", 0x01, b"", nmi, logged(0, 0));
    both(rt, b"11 before 8", 0x00, b"", nmi, logged(20, 0));
    both(rt, b"3 before all", 0x01, b"", nmi, logged(1000000001, 8));
}

fn unlogged(log: usize) -> Room {
    Room {
        watch: Watch::nothing(),
        ..logged(20, log)
    }
}

fn later(n: u32, since: u32) -> Room {
    Room {
        watch: Watch {
            log: true,
            since: Cycles(since),
        },
        ..logged(n, 8)
    }
}

fn watches(rt: &impl Print) {
    let nmi = holding(0x01, false);
    both(rt, b"not asked for", 0x01, b"", nmi, unlogged(8));
    both(rt, b"not asked for, no room", 0x01, b"", nmi, unlogged(0));
    both(
        rt,
        b"after 1000000000 cycles",
        0x01,
        b"",
        nmi,
        later(20, 1000000000),
    );
    both(
        rt,
        b"round at 2^32",
        0x01,
        &LOW,
        waiting(),
        later(110, 4294967290),
    );
}

fn main(rt: HostRuntime) {
    alone(&rt);
    together(&rt);
    moments(&rt);
    rooms(&rt);
    orders(&rt);
    watches(&rt);
}
