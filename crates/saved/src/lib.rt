// The machine as bytes: saving and loading, in the layout of docs/FORMATS.md.
#![tactic(auto)]

ghost use Rattle.std.specs.Prelude.{◌≡◌, ◌<◌};
ghost use Rattle.saved.specs.Layout.{arms_of, saved_of, byte_in, word_at, long_at, bool_at, flag_of};
ghost use Rattle.saved.specs.Layout.{registers_in, port_at, ports_in, timer_in, serial_in, bus_in, machine_in};
ghost use Rattle.saved.specs.Answers.{told_saved, save_of, left_of, told_loaded, stands_of, ranges_in, load_of};

use arithmetic::Codes;
use bits::{Flag, bit, byte_of, lower, upper};
use bus::Bus;
use chip::Chip;
use machine::Machine;
use ports::{Port, Ports};
use registers::Registers;
use serial::Serial;
use timer::Timer;

// The lent bytes are not as many as a saved machine.
#[derive(Clone, Copy)]
pub struct WrongLength;

// Why loading gives no machine.
#[derive(Clone, Copy)]
pub enum LoadRefusal {
    WrongLength,
    WrongVersion,
    NoMachine,
    WrongMachine,
}

// The arms of three flags, in the places of bits 5 to 7.
fn arms(f5: Flag, f6: Flag, f7: Flag) -> u8
    ensures { result ≡ arms_of f5 f6 f7 }
{
    byte_of(
        false, false, false, false, false, f5.armed, f6.armed, f7.armed,
    )
}

// The machine as bytes, one a line as they lie.
#[tactic(auto, unfolding(crate::specs::Layout::saved_of))]
fn bytes_of(m: Machine) -> [u8; 42]
    ensures { result ≡ saved_of m }
{
    let c = m.chip.registers;
    let b = m.chip.bus;
    let p = b.ports;
    let t = b.timer;
    let s = b.serial;
    let [r0, r1, r2, r3] = b.r.to_le_bytes();
    [
        // 0 and 1: the version
        1,
        0,
        // 2 to 13: the processor and its two lines
        c.a,
        c.b,
        lower(c.x),
        upper(c.x),
        lower(c.sp),
        upper(c.sp),
        lower(c.pc),
        upper(c.pc),
        u8::from(c.codes),
        u8::from(c.waiting),
        u8::from(m.nmi),
        u8::from(m.irq1),
        // 14 to 20: the ports
        p.port1.direction,
        p.port1.latch,
        p.port1.pins,
        p.port2.direction,
        p.port2.latch,
        p.port2.pins,
        p.mode,
        // 21 to 28: the timer
        t.tcsr(),
        lower(t.counter),
        upper(t.counter),
        lower(t.compare),
        upper(t.compare),
        lower(t.capture),
        upper(t.capture),
        u8::from(t.level),
        // 29 to 37: the serial interface, the arms, $14 and busy
        s.rate,
        s.trcs(),
        s.received,
        s.transmit,
        arms(t.tof, t.ocf, t.icf),
        arms(s.tdre, s.orfe, s.rdrf),
        b.ram_control(),
        lower(s.busy),
        upper(s.busy),
        // 38 to 41: R
        r0,
        r1,
        r2,
        r3,
    ]
}

// The machine as 42 bytes, or a refusal of lent bytes that are not 42, which leaves them.
pub fn save(m: Machine, bytes: &mut [u8]) -> Result<(), WrongLength>
    ensures fact_1 { told_saved result ≡ save_of bytes.old }
    ensures fact_2 { bytes.new ≡ left_of m bytes.old }
{
    if bytes.len() != 42 {
        return Err(WrongLength);
    }
    bytes.copy_from_slice(&bytes_of(m));
    Ok(())
}

// Byte k, 0 past the end.
fn byte_in(bytes: &[u8], k: usize) -> u8
    ensures { result ≡ byte_in bytes.now k }
{
    numbers::byte_at(bytes, 0, k)
}

fn word_at(bytes: &[u8], k: usize) -> u16
    requires { k < 41 }
    ensures { result ≡ word_at bytes.now k }
{
    numbers::two_at(bytes, 0, k)
}

fn long_at(bytes: &[u8], k: usize) -> u32
    requires { k < 39 }
    ensures { result ≡ long_at bytes.now k }
{
    numbers::four_at(bytes, 0, k)
}

fn bool_at(bytes: &[u8], k: usize) -> bool
    ensures { result ≡ bool_at bytes.now k }
{
    byte_in(bytes, k) == 1
}

// The flag whose bit in its register has weight w, armed where the arms have that bit.
fn flag_of(register: u8, arms: u8, w: u8) -> Flag
    requires { 0 < w }
    ensures { result ≡ flag_of register arms w }
{
    Flag {
        set: bit(register, w),
        armed: bit(arms, w),
    }
}

fn registers_in(bytes: &[u8]) -> Registers
    ensures { result ≡ registers_in bytes.now }
{
    Registers {
        a: byte_in(bytes, 2),
        b: byte_in(bytes, 3),
        x: word_at(bytes, 4),
        sp: word_at(bytes, 6),
        pc: word_at(bytes, 8),
        codes: Codes::from(byte_in(bytes, 10)),
        waiting: bool_at(bytes, 11),
    }
}

// The port whose direction, latch and pins begin at byte k.
fn port_at(bytes: &[u8], k: usize) -> Port
    requires { k < 40 }
    ensures { result ≡ port_at bytes.now k }
{
    Port {
        direction: byte_in(bytes, k),
        latch: byte_in(bytes, k + 1),
        pins: byte_in(bytes, k + 2),
    }
}

fn ports_in(bytes: &[u8]) -> Ports
    ensures { result ≡ ports_in bytes.now }
{
    Ports {
        port1: port_at(bytes, 14),
        port2: port_at(bytes, 17),
        mode: byte_in(bytes, 20),
    }
}

fn timer_in(bytes: &[u8]) -> Timer
    ensures { result ≡ timer_in bytes.now }
{
    let tcsr = byte_in(bytes, 21);
    let arms = byte_in(bytes, 33);
    Timer {
        olvl: bit(tcsr, 1),
        iedg: bit(tcsr, 2),
        etoi: bit(tcsr, 4),
        eoci: bit(tcsr, 8),
        eici: bit(tcsr, 16),
        tof: flag_of(tcsr, arms, 32),
        ocf: flag_of(tcsr, arms, 64),
        icf: flag_of(tcsr, arms, 128),
        counter: word_at(bytes, 22),
        compare: word_at(bytes, 24),
        capture: word_at(bytes, 26),
        level: bool_at(bytes, 28),
    }
}

fn serial_in(bytes: &[u8]) -> Serial
    ensures { result ≡ serial_in bytes.now }
{
    let trcs = byte_in(bytes, 30);
    let arms = byte_in(bytes, 34);
    Serial {
        wu: bit(trcs, 1),
        te: bit(trcs, 2),
        tie: bit(trcs, 4),
        re: bit(trcs, 8),
        rie: bit(trcs, 16),
        tdre: flag_of(trcs, arms, 32),
        orfe: flag_of(trcs, arms, 64),
        rdrf: flag_of(trcs, arms, 128),
        rate: byte_in(bytes, 29),
        received: byte_in(bytes, 31),
        transmit: byte_in(bytes, 32),
        busy: word_at(bytes, 36),
    }
}

fn bus_in(bytes: &[u8]) -> Bus
    ensures { result ≡ bus_in bytes.now }
{
    let control = byte_in(bytes, 35);
    Bus {
        ports: ports_in(bytes),
        timer: timer_in(bytes),
        serial: serial_in(bytes),
        rame: bit(control, 64),
        standby: bit(control, 128),
        r: long_at(bytes, 38),
    }
}

// The machine that the bytes stand for.
#[tactic(auto, unfolding(crate::specs::Layout::machine_in))]
fn machine_in(bytes: &[u8]) -> Machine
    ensures { result ≡ machine_in bytes.now }
{
    Machine {
        chip: Chip {
            registers: registers_in(bytes),
            bus: bus_in(bytes),
        },
        irq1: bool_at(bytes, 13),
        nmi: bool_at(bytes, 12),
    }
}

// Whether every yes or no is 0 or 1, and the arms are those of flags.
#[tactic(auto, unfolding(crate::specs::Answers::stands_of))]
fn stands(bytes: &[u8]) -> bool
    ensures { result ≡ stands_of bytes.now }
{
    (byte_in(bytes, 11) <= 1)
        & (byte_in(bytes, 12) <= 1)
        & (byte_in(bytes, 13) <= 1)
        & (byte_in(bytes, 28) <= 1)
        & (byte_in(bytes, 33) % 32 == 0)
        & (byte_in(bytes, 34) % 32 == 0)
}

// Whether the bytes, which stand for this machine, are in the machine's ranges.
#[tactic(auto, unfolding(crate::specs::Answers::ranges_in))]
fn in_ranges(bytes: &[u8], m: Machine) -> bool
    ensures { result ≡ ranges_in bytes.now m }
{
    let codes = byte_in(bytes, 10);
    bit(codes, 128) & bit(codes, 64) & (byte_in(bytes, 35) % 64 == 0) & m.in_ranges()
}

// The machine that was saved as these bytes, or a refusal.
#[tactic(auto, unfolding(crate::specs::Answers::load_of))]
pub fn load(bytes: &[u8]) -> Result<Machine, LoadRefusal>
    ensures { told_loaded result ≡ load_of bytes.now }
{
    if bytes.len() != 42 {
        return Err(LoadRefusal::WrongLength);
    }
    if word_at(bytes, 0) != 1 {
        return Err(LoadRefusal::WrongVersion);
    }
    if !stands(bytes) {
        return Err(LoadRefusal::NoMachine);
    }
    let m = machine_in(bytes);
    if !in_ranges(bytes, m) {
        return Err(LoadRefusal::WrongMachine);
    }
    Ok(m)
}
