// The two runs over one boundary: the single one passes each waiting cycle as a boundary of its own, the leaping one passes
// the rest of a wait at once, as far as nothing happens in it. In both, plain instructions follow each other as far as nothing
// else happens among them.
#![tactic(auto)]

ghost use Rattle.std.specs.Prelude.{◌≡◌, ◌&&◌, ◌||◌, leb, ◌+◌, ◌-◌, ◌≤◌};
ghost use Rattle.session.specs.Session.{due_at};
ghost use Rattle.serial.specs.Serial.{wants_to_send, ticks_serial};
ghost use Rattle.timer.specs.Timer.{ticks};
ghost use Rattle.machine.specs.Machine.{passed_of};
ghost use Rattle.machine.specs.Interrupts.{pending_of};
ghost use Rattle.boundary.specs.World.{lending, terms_of, world_of, ended_of, grown};
ghost use Rattle.boundary.specs.Boundary.{run_of};
ghost use Rattle.boundary.specs.Counts.{Fine, Fits};
ghost use Rattle.run.specs.Leaps.{is_due, First, stirs, AfterLeap, strode_of, Paced};

use boundary::{Asked, Grown, State, Stop, UNGROWN};
use chip::Chip;
use counts::{Cycles, Instructions};
use machine::Machine;
use registers::Registers;
use serial::Serial;
use timer::Timer;

// How a run ended.
#[derive(Clone, Copy)]
pub struct Outcome {
    pub stop: Stop,
    pub state: State,
}

fn least(a: u32, b: u32) -> u32
    ensures { First a result (λ j. leb b j) }
{
    a.min(b)
}

// Cycles until a record is due, at most `most`.
fn record_room(most: u32, session: &[u8], count: Cycles, at: usize) -> u32
    ensures { First most result (λ j. due_at session.now (count.0 + j) at) }
{
    if session.len() <= at {
        return most;
    }
    let time = session::time_at(session, at);
    least(most, time.saturating_sub(count.0))
}

// Cycles until a byte is to be sent, at most `most`.
fn send_room(most: u32, s: Serial) -> u32
    ensures { First most result (λ j. wants_to_send (ticks_serial j s)) }
{
    if s.te & !s.tdre.set {
        least(most, u32::from(s.busy))
    } else {
        most
    }
}

// Cycles until an enabled flag is set that comes after d cycles, at most `most`.
fn flag_room(most: u32, set: bool, on: bool, d: u32) -> u32
    ensures { First most result (λ j. (set || leb d j) && on) }
{
    if !on {
        return most;
    }
    if set {
        return 0;
    }
    least(most, d)
}

// Cycles until OCF or TOF would cause an interrupt with I clear, at most `most`.
fn timer_room(most: u32, t: Timer) -> u32
    ensures { First most result (λ j. ((ticks j t).ocf.set && t.eoci) || ((ticks j t).tof.set && t.etoi)) }
{
    let k = flag_room(most, t.ocf.set, t.eoci, t.until_compare());
    flag_room(k, t.tof.set, t.etoi, t.until_overflow())
}

// Cycles until an interrupt is accepted, at most `most`.
fn interrupt_room(most: u32, m: Machine) -> u32
    ensures { First most result (λ j. is_due (pending_of (passed_of j m))) }
{
    if m.nmi {
        return 0;
    }
    if m.chip.registers.codes.i {
        return most;
    }
    let t = m.chip.bus.timer;
    if !m.irq1 | (t.icf.set & t.eici) | m.chip.bus.serial.requests() {
        return 0;
    }
    timer_room(most, t)
}

// How many cycles pass before a boundary that is more than a waiting cycle or an instruction.
fn room(terms: Asked, s: State) -> u32
    requires { s.cycles.0 ≤ terms.limit }
    ensures { First (terms.entry.limit - s.cycles.0) result (stirs terms.entry.session.now s) }
{
    let m = s.machine;
    let a = record_room(terms.limit - s.cycles.0, terms.session, s.cycles, s.place);
    let b = send_room(a, m.chip.bus.serial);
    interrupt_room(b, m)
}

// After a waiting cycle, the rest of its leap at once: the run goes on the same, from where the leap ends.
fn leap(terms: Asked, s: State) -> State
    requires { Fine s × (terms.limit ≤ 1000000000) }
    ensures { AfterLeap (terms_of terms.entry) s result }
{
    if !(s.inside & s.machine.chip.registers.idles()) {
        return s;
    }
    if terms.limit <= s.cycles.0 {
        return s;
    }
    let k = room(terms, s);
    let by = Grown {
        cycles: Cycles(k),
        ..UNGROWN
    };
    s.moved(s.machine.pass(Cycles(k)), by, true)
}

// The state after so many instructions and cycles that left the bus alone.
fn strode(s: State, c: Registers, cycles: Cycles, instructions: Instructions) -> State
    requires { Fits s (grown cycles.0 instructions.0 0 0) }
    ensures { result ≡ strode_of s c cycles.0 instructions.0 }
{
    let chip = Chip {
        registers: c,
        bus: s.machine.chip.bus.pass(cycles.0),
    };
    let next = Machine { chip, ..s.machine };
    let by = Grown {
        cycles,
        instructions,
        ..UNGROWN
    };
    s.moved(next, by, s.inside & (instructions.0 == 0))
}

// Plain instructions one after the other, as long as nothing else stirs: the run goes on the same, from where they end.
fn stride(terms: Asked, s: State, image: &mut [u8]) -> State
    requires { Fine s × (terms.limit ≤ 1000000000) }
    ensures { Paced (terms_of terms.entry) s image.old result image.new }
{
    if terms.limit <= s.cycles.0 {
        return s;
    }
    let m = s.machine;
    let room = room(terms, s);
    let masked = m.chip.registers.codes.i;
    let floor = plain::floor_of(m.chip.bus.rame);
    let start = m.chip.bus.r;
    let mut c = m.chip.registers;
    let mut cycles = 0;
    let mut instructions = 0;
    // Straight, with its two exits: this runs once for each plain instruction.
    loop {
        if (room <= cycles) | c.idles() | (c.codes.i != masked) {
            return strode(s, c, Cycles(cycles), Instructions(instructions));
        }
        let Some(hop) = plain::step(c, floor, start, image) else {
            return strode(s, c, Cycles(cycles), Instructions(instructions));
        };
        c = hop.registers;
        cycles += hop.cycles.0;
        instructions += 1;
    }
}

// What either run does between two boundaries. The flag stays a flag: as a closure its law would stand in each caller's clause.
fn pace(leaping: bool, terms: Asked, s: State, image: &mut [u8]) -> State
    requires { Fine s × (terms.limit ≤ 1000000000) }
    ensures { Paced (terms_of terms.entry) s image.old result image.new }
{
    if s.machine.chip.registers.idles() {
        if leaping {
            return leap(terms, s);
        }
        return s;
    }
    stride(terms, s, image)
}

// A run, leaping or single: boundaries until one stops it.
pub fn run(
    leaping: bool,
    terms: Asked,
    image: &mut [u8],
    area: &mut [u8],
    output: &mut [u8],
    log: &mut [u8],
    start: State,
) -> Outcome
    requires { Fine start × (terms.limit ≤ 1000000000) }
    ensures { ended_of result.stop (world_of result.state (lending image.new area.new output.new log.new))
        ≡ run_of (terms_of terms.entry)
        (world_of start (lending image.old area.old output.old log.old)) }
{
    let mut s = start;
    loop {
        let t = s.boundary(terms, image, area, output, log);
        if let Some(stop) = t.stop {
            return Outcome {
                stop,
                state: t.state,
            };
        }
        s = pace(leaping, terms, t.state, image);
    }
}
