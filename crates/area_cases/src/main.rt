// The area in single and leaping runs side by side: docs/CASES.md works the expected lines from 01, 02 and its readings.
#![tactic(auto)]

use bits::Flag;
use boundary::Watch;
use cabinet::{Leapt, Ran};
use cases::install;
use counts::Cycles;
use host::{named_decimal, named_hexadecimal};
use machine::Machine;
use printing::Line;

// What a case changes of the machine after power-on: SP, bits 6 and 7 of $14, R, I, waiting, a pending NMI, and whether a byte is to be sent when
// ten cycles have passed.
#[derive(Clone, Copy)]
struct Start {
    sp: u16,
    rame: bool,
    standby: bool,
    r: u32,
    masked: bool,
    waiting: bool,
    nmi: bool,
    sending: bool,
}

// How many bytes of the image, the area, the output and the log a case lends, whether the log is asked for, and N.
#[derive(Clone, Copy)]
struct Lends {
    image: usize,
    area: usize,
    output: usize,
    log: usize,
    logs: bool,
    n: u32,
}

// BRA to itself.
const STAY: [u8; 2] = *b"\x20\xFE";

// WAI, and BRA to itself.
const IDLE: [u8; 3] = *b"\x3E\x20\xFE";

// LDS #$00F0, WAI.
const SLEEP: [u8; 4] = *b"\x8E\x00\xF0\x3E";

// STAA $F0, LDAA #$40, STAA $14, STAA $F1.
const STORES: [u8; 8] = *b"\x97\xF0\x86\x40\x97\x14\x97\xF1";

// COM $0014, INC $00F0, COM $0014, INC $00F1.
const TURNS: [u8; 12] = *b"\x73\x00\x14\x7C\x00\xF0\x73\x00\x14\x7C\x00\xF1";

// LDS #$0100, LDX #$1234, PSHX, PULX, STX $7F, LDD $FF, STD $81, INC $0081, JSR $0316, BRA to itself; RTS.
const STRAIGHT: [u8; 23] =
    *b"\x8E\x01\x00\xCE\x12\x34\x3C\x38\xDF\x7F\xDC\xFF\xDD\x81\x7C\x00\x81\xBD\x03\x16\x20\xFE\x39";

// The image: a case's code at $0300, CLR $0014 twice and a BRA to itself in the RAM, RTI for NMI, CLR $0014 and RTI for IRQ1; else 41, which is
// undefined.
fn rom(code: &[u8]) -> [u8; 65536] {
    let mut image = [0x41u8; 65536];
    install(
        &mut image,
        0x0080,
        b"\x7F\x00\x14\x41\x41\x41\x41\x41\x7F\x00\x14\x41\x41\x41\x41\x20\xFE",
    );
    install(&mut image, 0x0300, code);
    install(&mut image, 0x0400, b"\x3B\x7F\x00\x14\x3B");
    install(&mut image, 0xFFF8, b"\x04\x01\x41\x41\x04\x00\x03\x00");
    image
}

// The area and a byte more: LDAA #$22 and BRA to itself at $83, LDAA #$40 and STAA $14 at $8B; else 87, which is undefined.
fn outside() -> [u8; 129] {
    let mut area = [0x87u8; 129];
    install(&mut area, 0x03, b"\x86\x22\x20\xFE");
    install(&mut area, 0x0B, b"\x86\x40\x97\x14");
    area
}

fn with_bus(mut m: Machine, s: Start) -> Machine {
    let bus = &mut m.chip.bus;
    bus.serial.te = s.sending;
    bus.serial.tdre = Flag {
        set: !s.sending,
        armed: false,
    };
    bus.serial.busy = 10;
    bus.rame = s.rame;
    bus.standby = s.standby;
    bus.r = s.r;
    m
}

fn with_registers(mut m: Machine, s: Start) -> Machine {
    let registers = &mut m.chip.registers;
    registers.a = 0xA1;
    registers.b = 0xB2;
    registers.x = 0x1122;
    registers.sp = s.sp;
    registers.codes.i = s.masked;
    registers.waiting = s.waiting;
    m.nmi = s.nmi;
    m
}

fn started(m: Machine, s: Start) -> Machine {
    with_registers(with_bus(m, s), s)
}

fn show_counts(rt: &impl Print, r: Ran) {
    named_decimal(rt, b" stop ", r.reply.number() as u64);
    let counts = lines::run_numbers(r.counts);
    lines::counts(Line::empty(), counts).print(rt);
}

fn show_machine(rt: &impl Print, m: Machine) {
    let c = m.chip.registers;
    named_hexadecimal(rt, b" pc ", c.pc as u64, 4);
    named_hexadecimal(rt, b" a ", c.a as u64, 2);
    named_hexadecimal(rt, b" sp ", c.sp as u64, 4);
    named_hexadecimal(rt, b" cc ", u8::from(c.codes) as u64, 2);
    named_decimal(rt, b" waiting ", c.waiting as u64);
    named_decimal(rt, b" nmi ", m.nmi as u64);
    named_decimal(rt, b" rame ", m.chip.bus.rame as u64);
    named_decimal(rt, b" standby ", m.chip.bus.standby as u64);
}

fn show_change(rt: &impl Print, name: &[u8], at: u64, before: u8, after: u8) {
    if before != after {
        named_hexadecimal(rt, name, at, 4);
        named_hexadecimal(rt, b"] ", after as u64, 2);
    }
}

// The bytes that are not as they were; `at` is the address of the first. By index: with `zip` and `enumerate` the program took half as long again.
fn show_changes(rt: &impl Print, name: &[u8], at: u64, before: &[u8], after: &[u8]) {
    for k in 0..after.len() {
        if k < before.len() {
            show_change(rt, name, at.wrapping_add(k as u64), before[k], after[k]);
        }
    }
}

// What a run reports, and what it left of all that was lent.
fn show(
    rt: &impl Print,
    leapt: Leapt,
    before: &[u8],
    image: &[u8],
    area: &[u8],
    output: &[u8],
    log: &[u8],
) {
    show_counts(rt, leapt.ran);
    show_machine(rt, leapt.ran.machine);
    show_changes(rt, b" [", 0, before, image);
    show_changes(rt, b" area[", 0x80, &outside(), area);
    show_changes(rt, b" output[", 0, b"\xEE", output);
    show_changes(rt, b" log[", 0, &[0xEE; 8], log);
}

fn show_leaps(rt: &impl Print, leaping: bool, leapt: Leapt) {
    if leaping {
        named_decimal(rt, b" leaps ", leapt.leaps.0 as u64);
    }
}

// Either run.
fn run(
    rt: &impl Print,
    leaping: bool,
    before: &[u8],
    session: &[u8],
    m: Machine,
    l: Lends,
    image: &mut [u8],
    area: &mut [u8],
    output: &mut [u8],
    log: &mut [u8],
) {
    let watch = Watch {
        log: l.logs,
        since: Cycles(0),
    };
    let leapt = cabinet::watch_either(leaping, image, area, m, session, l.n, watch, output, log);
    show(rt, leapt, before, image, area, output, log);
    show_leaps(rt, leaping, leapt);
}

// The same with what a case lends.
fn lend(
    rt: &impl Print,
    leaping: bool,
    before: &[u8; 65536],
    session: &[u8],
    m: Machine,
    l: Lends,
) {
    let mut image = *before;
    let mut area = outside();
    let mut output = [0xEEu8; 1];
    let mut log = [0xEEu8; 8];
    run(
        rt,
        leaping,
        before,
        session,
        m,
        l,
        &mut image[..l.image.min(65536)],
        &mut area[..l.area.min(129)],
        &mut output[..l.output.min(1)],
        &mut log[..l.log.min(8)],
    );
}

fn both(rt: &impl Print, title: &[u8], code: &[u8], session: &[u8], s: Start, l: Lends) {
    let image = rom(code);
    let Ok(m) = cabinet::power_on(&image, 65536) else {
        return;
    };
    let start = started(m, s);
    host::show(rt, title);
    host::show(rt, b"\n  single ");
    lend(rt, false, &image, session, start, l);
    host::show(rt, b"\n  leaping");
    lend(rt, true, &image, session, start, l);
    host::show(rt, b"\n");
}

// Bit 6 as said, bit 7 the other way round.
fn with_bit(rame: bool, r: u32) -> Start {
    Start {
        sp: 0x00F0,
        rame,
        standby: !rame,
        r,
        masked: true,
        waiting: false,
        nmi: false,
        sending: false,
    }
}

fn whole(n: u32) -> Lends {
    Lends {
        image: 65536,
        area: 128,
        output: 1,
        log: 0,
        logs: false,
        n,
    }
}

fn jumping(rt: &impl Print, title: &[u8], jump: &[u8], rame: bool) {
    both(rt, title, jump, b"", with_bit(rame, 65536), whole(20));
}

fn codes(rt: &impl Print) {
    jumping(rt, b"code in the RAM clears the bit", b"\x7E\x00\x80", true);
    jumping(rt, b"code in the area sets it again", b"\x7E\x00\x88", true);
    jumping(rt, b"starting with the bit clear", b"\x7E\x00\x83", false);
    jumping(rt, b"undefined in the area", b"\x7E\x00\x80", false);
    jumping(rt, b"undefined in the RAM", b"\x7E\x00\x83", true);
}

fn edge(rt: &impl Print, title: &[u8], rame: bool, r: u32) {
    both(rt, title, &STRAIGHT, b"", with_bit(rame, r), whole(50));
}

fn edges(rt: &impl Print) {
    edge(rt, b"straight code", false, 65536);
    edge(rt, b"straight code, R 100", false, 0x100);
    edge(rt, b"straight code, R C0", false, 0xC0);
    edge(rt, b"straight code, R 80", false, 0x80);
    edge(rt, b"straight code, bit set", true, 65536);
    edge(rt, b"straight code, bit set, R 80", true, 0x80);
}

fn storing(rt: &impl Print, title: &[u8], r: u32) {
    both(rt, title, &STORES, b"", with_bit(false, r), whole(11));
}

fn writes(rt: &impl Print) {
    let on = with_bit(true, 65536);
    let sending = Start {
        sending: true,
        ..with_bit(false, 65536)
    };
    let full = Lends {
        output: 0,
        ..whole(20)
    };
    both(rt, b"9, both written", &STORES, b"", sending, full);
    storing(rt, b"0, both written", 65536);
    storing(rt, b"R F1", 0xF1);
    storing(rt, b"R F0", 0xF0);
    both(rt, b"the bit turned by COM", &TURNS, b"", on, whole(24));
}

fn entering(sp: u16, r: u32) -> Start {
    Start {
        sp,
        nmi: true,
        ..with_bit(false, r)
    }
}

fn entry(rt: &impl Print, title: &[u8], sp: u16, r: u32) {
    both(rt, title, &STAY, b"", entering(sp, r), whole(30));
}

// NMI at 5.
const SOON: [u8; 8] = *b"\x06\x00\x04\x00\x05\x00\x00\x00";

fn entries(rt: &impl Print) {
    let jump = b"\x7E\x00\x85";
    let off = with_bit(false, 65536);
    entry(rt, b"NMI", 0x00F0, 65536);
    entry(rt, b"NMI, R ED", 0x00F0, 0xED);
    entry(rt, b"NMI, R 80", 0x00F0, 0x80);
    entry(rt, b"NMI across $FF and $100", 0x0102, 65536);
    entry(rt, b"NMI across $7F and $80", 0x0082, 65536);
    both(rt, b"NMI of code in the area", jump, &SOON, off, whole(30));
}

// NMI, IRQ1 low and reset, each at 100.
const NMI: [u8; 8] = *b"\x06\x00\x04\x00\x64\x00\x00\x00";

const LOW: [u8; 9] = *b"\x07\x00\x03\x00\x64\x00\x00\x00\x00";

const RESET: [u8; 8] = *b"\x06\x00\x07\x00\x64\x00\x00\x00";

fn waits(rt: &impl Print) {
    let off = with_bit(false, 65536);
    let waiting = Start {
        waiting: true,
        ..off
    };
    let open = Start {
        masked: false,
        ..with_bit(true, 65536)
    };
    both(rt, b"a wait", &IDLE, &NMI, off, whole(130));
    both(
        rt,
        b"a wait, R 80",
        &IDLE,
        &NMI,
        with_bit(false, 0x80),
        whole(130),
    );
    both(
        rt,
        b"waiting from the start",
        &STAY,
        b"",
        waiting,
        whole(1000),
    );
    both(
        rt,
        b"the bit cleared in the handler",
        &IDLE,
        &LOW,
        open,
        whole(120),
    );
    both(rt, b"a reset in a wait", &SLEEP, &RESET, off, whole(150));
}

// The case `NMI` with the log asked for.
fn logged(rt: &impl Print, title: &[u8], area: usize, log: usize) {
    let l = Lends {
        area,
        log,
        logs: true,
        ..whole(30)
    };
    both(rt, title, &STAY, b"", entering(0x00F0, 65536), l);
}

fn logs(rt: &impl Print) {
    logged(rt, b"a row logged", 128, 8);
    logged(rt, b"no room for a row", 128, 7);
    logged(rt, b"an area of 127 bytes and the log", 127, 8);
}

// A record cut short, a kind that is unknown, 32 as pins of port 2, and an NMI at 4 after one at 5.
const CUT: [u8; 3] = *b"\x06\x00\x04";

const KIND: [u8; 8] = *b"\x06\x00\x0B\x00\x00\x00\x00\x00";

const VALUE: [u8; 9] = *b"\x07\x00\x02\x00\x00\x00\x00\x00\x20";

const TIME: [u8; 16] = *b"\x06\x00\x04\x00\x05\x00\x00\x00\x06\x00\x04\x00\x04\x00\x00\x00";

fn refused(rt: &impl Print, title: &[u8], session: &[u8], l: Lends) {
    both(rt, title, &STAY, session, entering(0x00F0, 65536), l);
}

fn bad_sessions(rt: &impl Print, l: Lends) {
    refused(rt, b"with a record cut short", &CUT, l);
    refused(rt, b"with an unknown kind", &KIND, l);
    refused(rt, b"with a wrong value", &VALUE, l);
    refused(rt, b"with a wrong time", &TIME, l);
}

// An area of so many bytes, alone and with each other refusal.
fn refusals(rt: &impl Print, title: &[u8], area: usize) {
    let l = Lends { area, ..whole(30) };
    let short = Lends { image: 65535, ..l };
    let long = Lends { n: 1000000001, ..l };
    let wrong = entering(0x00F0, 65537);
    host::show(rt, title);
    host::show(rt, b"\n");
    refused(rt, b"alone", b"", l);
    refused(rt, b"with a wrong image", b"", short);
    both(rt, b"with a wrong machine", &STAY, b"", wrong, l);
    refused(rt, b"with a wrong limit", b"", long);
    bad_sessions(rt, l);
}

fn main(rt: HostRuntime) {
    codes(&rt);
    edges(&rt);
    writes(&rt);
    entries(&rt);
    waits(&rt);
    logs(&rt);
    refusals(&rt, b"an area of 127 bytes", 127);
    refusals(&rt, b"an area of 129 bytes", 129);
    refusals(&rt, b"an area of 0 bytes", 0);
    refusals(&rt, b"an area of 128 bytes", 128);
}
