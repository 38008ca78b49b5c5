// The machine: the chip with its lines, its ranges, reset and power-on, interrupts, events and one step.
#![tactic(auto)]

ghost use Rattle.std.specs.Prelude.{◌≡◌, ℕ};
ghost use Rattle.bus.specs.Access.{memories, read_of};
ghost use Rattle.bus.specs.Units.{byte_sent};
ghost use Rattle.machine.specs.Machine.{ranges_of, passed_of, reset_registers, reset_of, cold, power_on_of};
ghost use Rattle.machine.specs.Interrupts.{holds, pending_of, vector_for, nmi_after, cause_number, holds_behind, behind_of};
ghost use Rattle.machine.specs.Events.{applied_of, on_bus};
ghost use Rattle.machine.specs.Steps.{moved, entry_cycles, entered_of, look_of, step_of};

use bus::Bus;
use chip::Chip;
use counts::Cycles;
use opcodes::Instruction;
use ports::{Port, Ports};
use registers::Registers;
use serial::Serial;
use session::Event;
use tables::Vector;
use timer::Timer;

// `irq1` is the level of IRQ1, high where true; `nmi` is a pending NMI.
#[derive(Clone, Copy)]
pub struct Machine {
    pub chip: Chip,
    pub irq1: bool,
    pub nmi: bool,
}

// Why power-on gives no machine.
#[derive(Clone, Copy)]
pub enum PowerRefusal {
    WrongImage,
    WrongStart,
}

// What an interrupt comes from, in the order of acceptance.
#[derive(Clone, Copy)]
pub enum Cause {
    Nmi,
    Irq1,
    Icf,
    Ocf,
    Tof,
    Serial,
}

// The machine after a step or an entry, and the cycles that it took.
#[derive(Clone, Copy)]
pub struct Moved {
    pub machine: Machine,
    pub cycles: Cycles,
}

fn reset_registers(pc: u16) -> Registers
    ensures { result ≡ reset_registers pc }
{
    Registers {
        a: 0,
        b: 0,
        x: 0,
        sp: 0,
        pc,
        codes: arithmetic::Codes {
            h: false,
            i: true,
            n: false,
            z: false,
            v: false,
            c: false,
        },
        waiting: false,
    }
}

// What power-on resets.
fn cold_machine(r: u32) -> Machine
    ensures { result ≡ cold r }
{
    let ports = Ports {
        port1: Port {
            direction: 0,
            latch: 0,
            pins: 0xFF,
        },
        port2: Port {
            direction: 0,
            latch: 0,
            pins: 0x1A,
        },
        mode: 0,
    };
    let bus = Bus {
        ports,
        timer: Timer::reset(),
        serial: Serial::reset(),
        rame: true,
        standby: false,
        r,
    };
    let registers = reset_registers(0);
    Machine {
        chip: Chip { registers, bus },
        irq1: true,
        nmi: false,
    }
}

// An image and R give a machine, or are refused.
#[tactic(auto, unfolding(crate::specs::Machine::power_on_of))]
pub fn power_on(image: &[u8], r: u32) -> Result<Machine, PowerRefusal>
    ensures { result ≡ power_on_of image.now r }
{
    if image.len() != 65536 {
        return Err(PowerRefusal::WrongImage);
    }
    if r > 65536 {
        return Err(PowerRefusal::WrongStart);
    }
    Ok(cold_machine(r).reset(image, &image[..0]))
}

impl From<Cause> for Vector {
    ghost from_gives = { λ cause vector. vector ≡ vector_for cause };

    fn from(cause: Cause) -> Vector {
        match cause {
            Cause::Nmi => Vector::Nmi,
            Cause::Irq1 => Vector::Irq1,
            Cause::Icf => Vector::Icf,
            Cause::Ocf => Vector::Ocf,
            Cause::Tof => Vector::Tof,
            Cause::Serial => Vector::Serial,
        }
    }
}

fn nmi_after(cause: Cause, nmi: bool) -> bool
    ensures { result ≡ nmi_after cause nmi }
{
    nmi & !matches!(cause, Cause::Nmi)
}

// A cause's number in a row of the wake log.
pub fn cause_number(cause: Cause) -> u8
    ensures { result ≡ cause_number cause }
{
    cause as u8
}

impl Machine {
    pub fn in_ranges(self) -> bool
        ensures { result ≡ ranges_of self }
    {
        self.chip.bus.in_ranges()
    }

    fn with_bus(mut self, b: Bus) -> Machine
        ensures { result ≡ on_bus self b }
    {
        self.chip.bus = b;
        self
    }

    // k cycles pass.
    pub fn pass(self, k: Cycles) -> Machine
        ensures { result ≡ passed_of k.0 self }
    {
        self.with_bus(self.chip.bus.pass(k.0))
    }

    // A byte was sent.
    pub fn send(self) -> Machine
        ensures { result ≡ on_bus self (byte_sent self.chip.bus) }
    {
        self.with_bus(self.chip.bus.send())
    }

    // No cycle passes, and the vector is memory.
    #[tactic(auto, using(crate::proofs::Reset::vector_read), unfolding(crate::specs::Machine::reset_of, bus::specs::Units::reset_bus))]
    pub fn reset(self, image: &[u8], area: &[u8]) -> Machine
        ensures { result ≡ reset_of (memories image.now area.now) self }
    {
        let bus = self.chip.bus.reset();
        let vector = tables::address_of(Vector::Reset);
        let h = bus::held(image, area, bus.rame, vector);
        let l = bus::held(image, area, bus.rame, bits::plus(vector, 1));
        let registers = reset_registers(bits::pair(h, l));
        Machine {
            chip: Chip { registers, bus },
            nmi: false,
            ..self
        }
    }

    // The first cause that holds.
    #[tactic(auto, unfolding(crate::specs::Interrupts::pending_of))]
    pub fn pending(self) -> Option<Cause>
        ensures { result ≡ pending_of self }
    {
        let t = self.chip.bus.timer;
        if self.nmi {
            return Some(Cause::Nmi);
        }
        if self.chip.registers.codes.i {
            return None;
        }
        if !self.irq1 {
            return Some(Cause::Irq1);
        }
        if t.icf.set & t.eici {
            return Some(Cause::Icf);
        }
        if t.ocf.set & t.eoci {
            return Some(Cause::Ocf);
        }
        if t.tof.set & t.etoi {
            return Some(Cause::Tof);
        }
        if self.chip.bus.serial.requests() {
            return Some(Cause::Serial);
        }
        None
    }

    fn holds(self, cause: Cause) -> bool
        ensures { result ≡ holds cause self }
    {
        let open = !self.chip.registers.codes.i;
        let t = self.chip.bus.timer;
        match cause {
            Cause::Nmi => self.nmi,
            Cause::Irq1 => open & !self.irq1,
            Cause::Icf => open & (t.icf.set & t.eici),
            Cause::Ocf => open & (t.ocf.set & t.eoci),
            Cause::Tof => open & (t.tof.set & t.etoi),
            Cause::Serial => open & self.chip.bus.serial.requests(),
        }
    }

    fn holds_behind(self, cause: Cause, other: Cause) -> bool
        ensures { result ≡ holds_behind cause other self }
    {
        self.holds(other) & (cause_number(cause) != cause_number(other))
    }

    // All other causes that hold, bit k for cause k.
    pub fn behind(self, cause: Cause) -> u8
        ensures { result ≡ behind_of cause self }
    {
        bits::byte_of(
            self.holds_behind(cause, Cause::Nmi),
            self.holds_behind(cause, Cause::Irq1),
            self.holds_behind(cause, Cause::Icf),
            self.holds_behind(cause, Cause::Ocf),
            self.holds_behind(cause, Cause::Tof),
            self.holds_behind(cause, Cause::Serial),
            false,
            false,
        )
    }

    // A session's event.
    #[tactic(auto, unfolding(crate::specs::Events::applied_of))]
    pub fn apply(self, event: Event, image: &[u8], area: &[u8]) -> Machine
        ensures { result ≡ applied_of event (memories image.now area.now) self }
    {
        match event {
            Event::Port1(v) => self.with_bus(self.chip.bus.port1_pins(v)),
            Event::Port2(v) => self.with_bus(self.chip.bus.port2_pins(v)),
            Event::Irq1(high) => Machine { irq1: high, ..self },
            Event::Nmi => Machine { nmi: true, ..self },
            Event::Received(v, stop) => self.with_bus(self.chip.bus.receive(v, stop)),
            Event::Idle => self.with_bus(self.chip.bus.idle()),
            Event::Reset => self.reset(image, area),
        }
    }

    fn entry_cycles(self) -> u8
        ensures { result ≡ entry_cycles self }
    {
        if self.chip.registers.waiting { 4 } else { 12 }
    }

    // An interrupt is entered, and its cycles pass.
    #[tactic(auto, unfolding(crate::specs::Steps::entered_of))]
    pub fn enter(self, cause: Cause, image: &mut [u8], area: &mut [u8]) -> Moved
        ensures { moved result (memories image.new area.new)
            ≡ entered_of cause (memories image.old area.old) self }
    {
        let k = self.entry_cycles();
        let vector = tables::address_of(Vector::from(cause));
        let chip = self.chip.enter(vector, k, image, area);
        Moved {
            machine: Machine {
                chip,
                nmi: nmi_after(cause, self.nmi),
                ..self
            },
            cycles: Cycles(k as u32),
        }
    }

    // The byte that the opcode's fetch is to read.
    #[tactic(auto, unfolding(timing::specs::Digits::listed, moments::specs::Moment::to_next, moments::specs::Moment::read_at))]
    fn opcode(self, image: &[u8], area: &[u8]) -> u8
        ensures { result ≡ (read_of (memories image.now area.now) self.chip.registers.pc self.chip.bus).value }
    {
        // Nothing is listed, so no cycle passes.
        moments::begin(self.chip.bus, 0)
            .read(image, area, self.chip.registers.pc)
            .value
    }

    // What stands at PC, with no effect on the machine.
    #[tactic(auto, unfolding(crate::specs::Steps::look_of))]
    pub fn look(self, image: &[u8], area: &[u8]) -> Option<Instruction>
        ensures { result ≡ look_of (memories image.now area.now) self }
    {
        opcodes::decode(self.opcode(image, area))
    }

    // An instruction, and its cycles.
    #[tactic(auto, unfolding(crate::specs::Steps::step_of))]
    pub fn step(self, i: Instruction, image: &mut [u8], area: &mut [u8]) -> Moved
        ensures { moved result (memories image.new area.new) ≡ step_of i (memories image.old area.old) self }
    {
        let chip = self.chip.execute(i, image, area);
        Moved {
            machine: Machine { chip, ..self },
            cycles: Cycles(i.cycles as u32),
        }
    }
}
