// Refusals and stops of a night, nights with the wake log and with the area, and the edges of reading numbers and joining names.
// docs/FORMATS.md has the numbers, docs/CASES.md works out the nights with the log and with the area.
#![tactic(auto)]

use boundary::Watch;
use counts::Cycles;
use machine::Machine;
use night_slices::Night;
use printing::Line;

fn show_number(rt: &impl Print, text: &[u8]) {
    match night_arguments::read_number(text) {
        Some(n) => Line::empty()
            .text(b"number ")
            .decimal(n as u64)
            .text(b"\n")
            .print(rt),
        None => Line::empty().text(b"no number\n").print(rt),
    }
}

fn show_joined(rt: &impl Print, name: &[u8], ending: &[u8]) {
    let mut buffer = [0u8; 8];
    let n = night_arguments::joined(name, ending, &mut buffer);
    Line::empty()
        .text(b"name ")
        .text(&buffer[..n])
        .text(b"\n")
        .print(rt);
}

// A night of 100 cycles from power-on, with the opcodes at $0100.
fn show_night(
    rt: &impl Print,
    image: &mut [u8],
    session: &mut [u8],
    output: &mut [u8],
    spare: &mut [u8],
) {
    let size = session.len();
    let mut area = [0u8; 128];
    let mut none = [0u8; 0];
    if let Some(m) = switch_on(rt, &image[..]) {
        night_slices::run_night(
            rt,
            image,
            &mut area,
            m,
            session,
            size,
            100,
            Watch::nothing(),
            output,
            &mut none,
            spare,
        )
        .line()
        .print(rt);
    }
}

// The machine that power-on gives, or a line that there is none.
fn switch_on(rt: &impl Print, image: &[u8]) -> Option<Machine> {
    let m = cabinet::power_on(image, 65536).ok();
    if m.is_none() {
        Line::empty().text(b"no machine\n").print(rt);
    }
    m
}

fn install(image: &mut [u8], at: usize, code: &[u8]) {
    if at <= image.len() && code.len() <= image.len() - at {
        numbers::copy(code, &mut image[at..]);
    }
}

// An image with this code at $0100, where power-on leads, and at $0120 an RTI, where NMI and IRQ1 lead.
fn rom(code: &[u8]) -> [u8; 65536] {
    let mut image = [0u8; 65536];
    install(&mut image, 0x0100, code);
    install(&mut image, 0x0120, b"\x3B");
    install(&mut image, 0xFFF8, b"\x01\x20\0\0\x01\x20\x01\0");
    image
}

// LDAA #$02, STAA $11, LDAA $11, STAA $13: the byte $22 is to be sent.
const SENDING: [u8; 8] = *b"\x86\x02\x97\x11\x96\x11\x97\x13";

fn show_refused(rt: &impl Print) {
    let mut image = rom(b"");
    let mut output = [0u8; 4];
    let mut room = [0u8; 16];
    let mut none = [0u8; 0];
    let mut short = [6u8, 0, 6, 0, 1, 0, 0];
    show_night(rt, &mut image, &mut short, &mut output, &mut room);
    let mut kind = [6u8, 0, 8, 0, 1, 0, 0, 0];
    show_night(rt, &mut image, &mut kind, &mut output, &mut room);
    let mut idle = [6u8, 0, 6, 0, 1, 0, 0, 0];
    show_night(rt, &mut image, &mut idle, &mut output, &mut none);
}

fn show_stopped(rt: &impl Print) {
    let mut image = rom(b"");
    let mut output = [0u8; 4];
    let mut none = [0u8; 0];
    let mut room = [0u8; 16];
    let mut idle = [6u8, 0, 6, 0, 0, 0, 0, 0];
    show_night(rt, &mut image, &mut idle, &mut output, &mut room);
    let mut full = rom(&SENDING);
    let mut session = [0u8; 0];
    show_night(rt, &mut full, &mut session, &mut none, &mut room);
}

fn show_bytes(rt: &impl Print, name: &[u8], bytes: &[u8]) {
    let mut line = Line::empty().text(name);
    for byte in bytes {
        line = line.byte(*byte);
    }
    line.text(b"\n").print(rt);
}

// A night, and the rest of its session.
fn show_watched(
    rt: &impl Print,
    image: &mut [u8],
    area: &mut [u8],
    m: Machine,
    session: &mut [u8],
    size: usize,
    n: u32,
    asked: bool,
    log: &mut [u8],
) -> Night {
    let mut none = [0u8; 0];
    let mut spare = [0u8; 42];
    let watch = Watch {
        log: asked,
        since: Cycles(0),
    };
    let night = night_slices::run_night(
        rt, image, area, m, session, size, n, watch, &mut none, log, &mut spare,
    );
    night.line().print(rt);
    show_bytes(rt, b"rest ", cabinet::filled(&session[..], night.length));
    night
}

// The same, and all of its log.
fn show_logged(
    rt: &impl Print,
    image: &mut [u8],
    m: Machine,
    session: &mut [u8],
    size: usize,
    n: u32,
    asked: bool,
    log: &mut [u8],
) -> Night {
    let mut area = [0u8; 128];
    let night = show_watched(rt, image, &mut area, m, session, size, n, asked, log);
    show_bytes(rt, b"log ", &log[..]);
    night
}

// LDS #$00FF, CLI, then WAI and a BRA back to it.
const WAITING: [u8; 7] = *b"\x8E\0\xFF\x0E\x3E\x20\xFD";

// NMI and IRQ1 at 100, IRQ1 high at 130, NMI at 1,000,000,007 and at 2,000,000,000.
const WAKING: [u8; 42] =
    *b"\x06\0\x04\0\x64\0\0\0\x07\0\x03\0\x64\0\0\0\0\x07\0\x03\0\x82\0\0\0\x01\x06\0\x04\0\x07\xCA\x9A\x3B\x06\0\x04\0\0\x94\x35\x77";

// A night of 1,000,000,100 cycles. What is left of them is run with another log.
fn show_waking(rt: &impl Print, asked: bool, log: &mut [u8], further: &mut [u8]) {
    let mut image = rom(&WAITING);
    let mut session = WAKING;
    let Some(m) = switch_on(rt, &image) else {
        return;
    };
    let night = show_logged(rt, &mut image, m, &mut session, 42, 1000000100, asked, log);
    if night.left > 0 {
        let left = night.machine;
        show_logged(
            rt,
            &mut image,
            left,
            &mut session,
            night.length,
            night.left,
            asked,
            further,
        );
    }
}

fn show_logs(rt: &impl Print) {
    let mut further = [0xEEu8; 16];
    let mut more = [0xEEu8; 32];
    show_waking(rt, true, &mut more, &mut further);
    let mut enough = [0xEEu8; 24];
    show_waking(rt, true, &mut enough, &mut further);
    let mut short = [0xEEu8; 23];
    show_waking(rt, true, &mut short, &mut further);
    let mut unused = [0xEEu8; 8];
    show_waking(rt, false, &mut unused, &mut further);
}

// LDS #$0087, INC $0080, CLR $0014, INC $0080, WAI, INC $0080, LDAA #$40, STAA $14, INC $0080, WAI.
const LEAVING: [u8; 24] =
    *b"\x8E\0\x87\x7C\0\x80\x7F\0\x14\x7C\0\x80\x3E\x7C\0\x80\x86\x40\x97\x14\x7C\0\x80\x3E";

// A night of 1,000,000,100 cycles with this area, and its first bytes.
fn show_area(
    rt: &impl Print,
    image: &mut [u8],
    area: &mut [u8],
    m: Machine,
    session: &mut [u8],
) -> Night {
    let mut none = [0u8; 0];
    let size = session.len();
    let night = show_watched(
        rt, image, area, m, session, size, 1000000100, false, &mut none,
    );
    show_bytes(rt, b"area ", cabinet::filled(&area[..], 10));
    night
}

// A night that is refused for its area, and one from what it left. NMI comes at 1,000,000,007.
fn show_areas(rt: &impl Print) {
    let mut image = rom(&LEAVING);
    let mut session = *b"\x06\0\x04\0\x07\xCA\x9A\x3B";
    let mut short = [0x20u8; 127];
    let mut area = [0x20u8; 128];
    if let Some(m) = switch_on(rt, &image) {
        let night = show_area(rt, &mut image, &mut short, m, &mut session);
        show_bytes(rt, b"ram ", &image[0x80..0x8A]);
        let left = night.machine;
        show_area(rt, &mut image, &mut area, left, &mut session);
        show_bytes(rt, b"ram ", &image[0x80..0x8A]);
    }
}

fn main(rt: HostRuntime) {
    show_number(&rt, b"");
    show_number(&rt, b"0");
    show_number(&rt, b"4294967295");
    show_number(&rt, b"4294967296");
    show_number(&rt, b"00000000000042");
    show_number(&rt, b"12x");
    show_number(&rt, b"-1");
    show_joined(&rt, b"a", b".done");
    show_joined(&rt, b"abc", b".done");
    show_joined(&rt, b"abcd", b".done");
    show_refused(&rt);
    show_stopped(&rt);
    show_logs(&rt);
    show_areas(&rt);
}
