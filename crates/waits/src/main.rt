// Whole runs, single and leaping side by side, over waits that end in every way: docs/CASES.md works the expected lines from 01.
// With `s` or `l` and then 3, 6 or 9 on standard input, one wait that nothing ends instead, passed singly or by leaping for a
// thousand, a million or a thousand million cycles: docs/PERFORMANCE.md measures it.
#![tactic(auto)]

use cabinet::Ran;
use cases::install;
use host::{named_decimal, named_hexadecimal};
use printing::Line;

// Where the code and the interrupts' handler go.
const CODE: usize = 0x0100;

const HANDLER: usize = 0x0200;

// An image with the code, the handler, and vectors to them.
fn rom(code: &[u8], handler: &[u8]) -> [u8; 65536] {
    let mut image = [0u8; 65536];
    install(
        &mut image,
        0xFFF0,
        b"\x02\0\x02\0\x02\0\x02\0\x02\0\0\0\x02\0\x01\0",
    );
    install(&mut image, CODE, code);
    install(&mut image, HANDLER, handler);
    image
}

fn show(rt: &impl Print, r: Ran, first: u8, second: u8) {
    let c = r.machine.chip.registers;
    named_decimal(rt, b" stop ", r.reply.number() as u64);
    let counts = lines::run_numbers(r.counts);
    lines::counts(Line::empty(), counts).print(rt);
    named_hexadecimal(rt, b" pc ", c.pc as u64, 4);
    named_hexadecimal(rt, b" a ", c.a as u64, 2);
    named_hexadecimal(rt, b" b ", c.b as u64, 2);
    named_hexadecimal(rt, b" sp ", c.sp as u64, 4);
    named_hexadecimal(rt, b" cc ", u8::from(c.codes) as u64, 2);
    named_hexadecimal(rt, b" 80 ", first as u64, 2);
    named_hexadecimal(rt, b" 81 ", second as u64, 2);
}

// Either run, from power-on.
fn run(rt: &impl Print, leaping: bool, code: &[u8], handler: &[u8], session: &[u8], n: u32) {
    let mut image = rom(code, handler);
    let mut area = [0u8; 128];
    let mut output = [0u8; 1];
    let Ok(m) = cabinet::power_on(&image, 65536) else {
        return;
    };
    if leaping {
        let l = cabinet::run_leaping(&mut image, &mut area, m, session, n, &mut output);
        host::show(rt, b"  leaping");
        show(rt, l.ran, image[0x80], image[0x81]);
        named_decimal(rt, b" leaps ", l.leaps.0 as u64);
    } else {
        let r = cabinet::run_single(&mut image, &mut area, m, session, n, &mut output);
        host::show(rt, b"  single ");
        show(rt, r, image[0x80], image[0x81]);
    }
    host::show(rt, b"\n");
}

fn both(rt: &impl Print, title: &[u8], code: &[u8], handler: &[u8], session: &[u8], n: u32) {
    host::show(rt, title);
    host::show(rt, b"\n");
    run(rt, false, code, handler, session, n);
    run(rt, true, code, handler, session, n);
}

fn limits(rt: &impl Print) {
    let wait = b"\x8E\x00\xFF\x3E";
    both(rt, b"a wait with no end", wait, b"\x3B", b"", 1000);
    both(rt, b"N inside a wait", wait, b"\x3B", b"", 50);
    both(rt, b"N 0", wait, b"\x3B", b"", 0);
    both(
        rt,
        b"a record past the end",
        wait,
        b"\x3B",
        b"\x06\x00\x04\x00\x2C\x01\x00\x00",
        200,
    );
    both(rt, b"an undefined opcode", b"\x00", b"\x3B", b"", 10);
}

fn timers(rt: &impl Print) {
    let handler = b"\x96\x08\xDC\x0B\xDD\x0B\x3B";
    both(
        rt,
        b"an enabled compare",
        b"\x8E\x00\xFF\x86\x08\x97\x08\xCC\x00\x80\xDD\x0B\x0E\x3E\x20\xFE",
        handler,
        b"",
        1000,
    );
    both(
        rt,
        b"a masked compare",
        b"\x8E\x00\xFF\x86\x00\x97\x08\xCC\x00\x80\xDD\x0B\x0E\x3E\x20\xFE",
        handler,
        b"",
        1000,
    );
}

fn records(rt: &impl Print) {
    let wait = b"\x8E\x00\xFF\x3E\x20\xFE";
    both(
        rt,
        b"IRQ1 low, then high",
        b"\x8E\x00\xFF\x0E\x3E\x20\xFE",
        b"\x3B",
        b"\x07\x00\x03\x00\x2C\x01\x00\x00\x00\x07\x00\x03\x00\x2E\x01\x00\x00\x01",
        400,
    );
    both(
        rt,
        b"NMI with I set",
        wait,
        b"\x3B",
        b"\x06\x00\x04\x00\x64\x00\x00\x00",
        120,
    );
    both(
        rt,
        b"NMI while WAI stacks",
        wait,
        b"\x3B",
        b"\x06\x00\x04\x00\x05\x00\x00\x00",
        30,
    );
    both(
        rt,
        b"a reset in a wait",
        wait,
        b"\x3B",
        b"\x06\x00\x07\x00\x64\x00\x00\x00",
        200,
    );
    both(
        rt,
        b"two records at one time",
        wait,
        b"\x3B",
        b"\x07\x00\x01\x00\x64\x00\x00\x00\x55\x07\x00\x01\x00\x64\x00\x00\x00\xAA",
        200,
    );
}

fn serials(rt: &impl Print) {
    let handler = b"\x96\x11\xD6\x12\x97\x80\xD7\x81\x3B";
    both(
        rt,
        b"a received byte",
        b"\x8E\x00\xFF\x86\x18\x97\x11\x0E\x3E\x20\xFE",
        handler,
        b"\x08\x00\x05\x00\xF4\x01\x00\x00\x41\x01",
        1000,
    );
    both(
        rt,
        b"the peacock's tail: two bytes in one wait",
        b"\x8E\x00\xFF\x86\x08\x97\x11\x3E\x20\xFE",
        handler,
        b"\x08\x00\x05\x00\xC8\x00\x00\x00\x41\x01\x08\x00\x05\x00\x2C\x01\x00\x00\x42\x01\x06\x00\x04\x00\x90\x01\x00\x00",
        500,
    );
    both(
        rt,
        b"the output full in a wait",
        b"\x8E\x00\xFF\x86\x02\x97\x11\x96\x11\x97\x13\x96\x11\x97\x13\x3E",
        handler,
        b"",
        1000,
    );
}

fn cases(rt: &impl Print) {
    limits(rt);
    timers(rt);
    records(rt);
    serials(rt);
}

fn limit(digit: u8) -> u32 {
    match digit {
        b'3' => 1000,
        b'6' => 1000000,
        b'9' => 1000000000,
        _ => 0,
    }
}

// The first case, by one run alone and with another limit.
fn measured(rt: &impl Print, kind: u8, digit: u8) {
    run(
        rt,
        kind == b'l',
        b"\x8E\x00\xFF\x3E",
        b"\x3B",
        b"",
        limit(digit),
    );
}

fn main(rt: HostRuntime) {
    let mut input = [0u8; 2];
    let n = host::read_full(&mut rt.stdin(), &mut input);
    if n == 0 {
        cases(&rt);
    } else {
        measured(&rt, input[0], input[1]);
    }
}
