// The processor on its bus: each instruction over registers, units and the lent memories.
#![tactic(auto)]

ghost use Rattle.std.specs.Prelude.{◌≡◌, List, ℕ};
ghost use Rattle.bus.specs.Access.{memories};
ghost use Rattle.timing.specs.Table.{access_cycles, entry_accesses};
ghost use Rattle.moments.specs.Moment.{begun, read_at, ended};
ghost use Rattle.timing.specs.Digits.{listed};
ghost use Rattle.moments.specs.Clocked.{moment_of};
ghost use Rattle.chip.specs.Act.{run, out};
ghost use Rattle.chip.specs.Instructions.{read2, write2, operand, push, push2, pull, pull2, stack_all, rti, vectored, swi, wai, enter};
ghost use Rattle.chip.specs.Instructions.{operate, execute};
ghost use Rattle.chip.specs.Shapes.{loads, loads_word, stores, stores_word, modifies, pushes_word};
ghost use Rattle.chip.specs.Chip.{run_on, ran, located, popped, with_registers, core_of, timed_on, left};
ghost use Rattle.bits.specs.Words.{up};
ghost use Rattle.operations.specs.Operations.{quiet_of};
ghost use Rattle.registers.specs.Registers.{with_pc};

use bits::{Read, minus, plus};
use bus::Bus;
use moments::Clocked;
use opcodes::{Instruction, Monadic, Operation, Place, WideStore};
use operations::{Loading, LoadingWord, Pushing, Quiet, Shape, Storing};
use registers::Registers;
use tables::Vector;

#[derive(Clone, Copy)]
pub struct Chip {
    pub registers: Registers,
    pub bus: Bus,
}

// The same in the middle of an instruction.
#[derive(Clone, Copy)]
pub struct Core {
    pub registers: Registers,
    pub bus: Clocked,
}

// Two bytes, the high one first.
#[tactic(auto, using(crate::proofs::ActLaws::accesses), unfolding(crate::specs::Instructions::read2))]
fn read_word(b: Clocked, image: &[u8], area: &[u8], at: u16) -> Read<u16, Clocked>
    ensures { run (read2 at) (moment_of b) (memories image.now area.now)
        ≡ out result.value (moment_of result.next) (memories image.now area.now) }
{
    let h = b.read(image, area, at);
    let l = h.next.read(image, area, plus(at, 1));
    Read {
        value: bits::pair(h.value, l.value),
        next: l.next,
    }
}

#[tactic(auto, using(crate::proofs::ActLaws::accesses), unfolding(crate::specs::Instructions::write2))]
fn write_word(b: Clocked, image: &mut [u8], area: &mut [u8], at: u16, w: u16) -> Clocked
    ensures { run (write2 at w) (moment_of b) (memories image.old area.old)
        ≡ out tt (moment_of result) (memories image.new area.new) }
{
    let c = b.write(image, area, at, bits::upper(w));
    c.write(image, area, plus(at, 1), bits::lower(w))
}

// An operand's address, with PC moved past n bytes of the instruction.
fn spot_at(at: u16, c: Registers, b: Clocked, n: u16) -> Read<u16, Core>
    ensures { result ≡ record { value = at; next = core_of (with_pc c (up c.pc n)) b } }
{
    let registers = c.with_pc(plus(c.pc, n));
    Read {
        value: at,
        next: Core { registers, bus: b },
    }
}

impl Core {
    // Where the operand is.
    #[tactic(auto, using(crate::proofs::ActLaws::accesses), unfolding(crate::specs::Instructions::operand))]
    fn locate(self, place: Place, image: &[u8], area: &[u8]) -> Read<u16, Core>
        ensures { run_on (operand place) self (memories image.now area.now)
            ≡ located result (memories image.now area.now) }
    {
        let c = self.registers;
        let b = self.bus;
        match place {
            Place::Inherent | Place::AccumulatorA | Place::AccumulatorB => Read {
                value: 0,
                next: self,
            },
            Place::ImmediateByte => spot_at(c.pc, c, b, 1),
            Place::ImmediateWord => spot_at(c.pc, c, b, 2),
            Place::Direct => {
                let f = b.read(image, area, c.pc);
                spot_at(f.value as u16, c, f.next, 1)
            }
            Place::Indexed => {
                let f = b.read(image, area, c.pc);
                spot_at(plus(c.x, f.value as u16), c, f.next, 1)
            }
            Place::Extended => {
                let w = read_word(b, image, area, c.pc);
                spot_at(w.value, c, w.next, 2)
            }
            Place::Relative => {
                let f = b.read(image, area, c.pc);
                let at = plus(plus(c.pc, 1), registers::offset_of(f.value));
                spot_at(at, c, f.next, 1)
            }
        }
    }
}

// The stack.
impl Core {
    #[tactic(auto, using(crate::proofs::ActLaws::accesses), unfolding(crate::specs::Instructions::push))]
    fn push(self, v: u8, image: &mut [u8], area: &mut [u8]) -> Core
        ensures { run_on (push v) self (memories image.old area.old) ≡ ran result (memories image.new area.new) }
    {
        let c = self.registers;
        let bus = self.bus.write(image, area, c.sp, v);
        Core {
            registers: c.with_sp(minus(c.sp, 1)),
            bus,
        }
    }

    #[tactic(auto, using(crate::proofs::ActLaws::accesses), unfolding(crate::specs::Instructions::push2))]
    fn push_word(self, w: u16, image: &mut [u8], area: &mut [u8]) -> Core
        ensures { run_on (push2 w) self (memories image.old area.old)
            ≡ ran result (memories image.new area.new) }
    {
        let p = self.push(bits::lower(w), image, area);
        p.push(bits::upper(w), image, area)
    }

    #[tactic(auto, using(crate::proofs::ActLaws::accesses), unfolding(crate::specs::Instructions::pull))]
    fn pull(self, image: &[u8], area: &[u8]) -> Read<u8, Core>
        ensures { run_on pull self (memories image.now area.now)
            ≡ popped result (memories image.now area.now) }
    {
        let c = self.registers;
        let sp = plus(c.sp, 1);
        let f = self.bus.read(image, area, sp);
        Read {
            value: f.value,
            next: Core {
                registers: c.with_sp(sp),
                bus: f.next,
            },
        }
    }

    #[tactic(auto, using(crate::proofs::ActLaws::accesses), unfolding(crate::specs::Instructions::pull2))]
    fn pull_word(self, image: &[u8], area: &[u8]) -> Read<u16, Core>
        ensures { run_on pull2 self (memories image.now area.now)
            ≡ popped result (memories image.now area.now) }
    {
        let h = self.pull(image, area);
        let l = h.next.pull(image, area);
        Read {
            value: bits::pair(h.value, l.value),
            next: l.next,
        }
    }

    // All registers, PC first.
    #[tactic(auto, using(crate::proofs::ActLaws::accesses), unfolding(crate::specs::Instructions::stack_all))]
    fn stack_all(self, image: &mut [u8], area: &mut [u8]) -> Core
        ensures { run_on stack_all self (memories image.old area.old) ≡ ran result (memories image.new area.new) }
    {
        let c = self.registers;
        let words = self
            .push_word(c.pc, image, area)
            .push_word(c.x, image, area);
        words
            .push(c.a, image, area)
            .push(c.b, image, area)
            .push(u8::from(c.codes), image, area)
    }

    fn rti(self, image: &[u8], area: &[u8]) -> Core
        ensures { run_on rti self (memories image.now area.now) ≡ ran result (memories image.now area.now) }
    {
        let k = self.pull(image, area);
        let b = k.next.pull(image, area);
        let a = b.next.pull(image, area);
        let x = a.next.pull_word(image, area);
        let pc = x.next.pull_word(image, area);
        let core = pc.next;
        let registers = Registers {
            a: a.value,
            b: b.value,
            x: x.value,
            sp: core.registers.sp,
            pc: pc.value,
            codes: arithmetic::Codes::from(k.value),
            waiting: self.registers.waiting,
        };
        Core { registers, ..core }
    }

    // I set, PC from a vector, no wait.
    #[tactic(auto, using(crate::proofs::ActLaws::accesses), unfolding(crate::specs::Instructions::vectored))]
    fn vectored(self, vector: u16, image: &[u8], area: &[u8]) -> Core
        ensures { run_on (vectored vector) self (memories image.now area.now)
            ≡ ran result (memories image.now area.now) }
    {
        let c = self.registers;
        let w = read_word(self.bus, image, area, vector);
        let registers = c
            .with_pc(w.value)
            .with_codes(registers::with_i(c.codes, true))
            .with_waiting(false);
        Core {
            registers,
            bus: w.next,
        }
    }

    #[tactic(auto, using(crate::proofs::ActLaws::accesses), unfolding(crate::specs::Instructions::swi))]
    fn swi(self, image: &mut [u8], area: &mut [u8]) -> Core
        ensures { run_on swi self (memories image.old area.old) ≡ ran result (memories image.new area.new) }
    {
        let p = self.stack_all(image, area);
        p.vectored(tables::address_of(Vector::Swi), image, area)
    }

    #[tactic(auto, using(crate::proofs::ActLaws::accesses), unfolding(crate::specs::Instructions::wai))]
    fn wai(self, image: &mut [u8], area: &mut [u8]) -> Core
        ensures { run_on wai self (memories image.old area.old) ≡ ran result (memories image.new area.new) }
    {
        let p = self.stack_all(image, area);
        Core {
            registers: p.registers.with_waiting(true),
            ..p
        }
    }

    // Interrupt entry.
    #[tactic(auto, using(crate::proofs::Entry::enter_waiting, crate::proofs::Entry::enter_stacking))]
    fn enter(self, vector: u16, image: &mut [u8], area: &mut [u8]) -> Core
        ensures { run_on (enter vector) self (memories image.old area.old)
            ≡ ran result (memories image.new area.new) }
    {
        if self.registers.waiting {
            return self.vectored(vector, image, area);
        }
        let p = self.stack_all(image, area);
        p.vectored(vector, image, area)
    }
}

// The shapes of access.
// A byte and a word stay two functions each: the definitions' trees differ by an access, so that a trait over u8 and u16 would hold the same two bodies.
impl Core {
    fn quiet(self, op: Quiet, at: u16) -> Core
        ensures { result ≡ with_registers self (quiet_of op at self.registers) }
    {
        Core {
            registers: op.done(at, self.registers),
            ..self
        }
    }

    #[tactic(auto, using(crate::proofs::ActLaws::accesses), unfolding(crate::specs::Shapes::loads))]
    fn load(self, op: Loading, at: u16, image: &[u8], area: &[u8]) -> Core
        ensures { run_on (loads op at) self (memories image.now area.now)
            ≡ ran result (memories image.now area.now) }
    {
        let c = self.registers;
        let f = self.bus.read(image, area, op.address(at, c));
        Core {
            registers: op.loaded(f.value, c),
            bus: f.next,
        }
    }

    #[tactic(auto, using(crate::proofs::ActLaws::accesses), unfolding(crate::specs::Shapes::loads_word))]
    fn load_word(self, op: LoadingWord, at: u16, image: &[u8], area: &[u8]) -> Core
        ensures { run_on (loads_word op at) self (memories image.now area.now)
            ≡ ran result (memories image.now area.now) }
    {
        let c = self.registers;
        let w = read_word(self.bus, image, area, op.address(at, c));
        Core {
            registers: op.loaded(w.value, c),
            bus: w.next,
        }
    }

    #[tactic(auto, using(crate::proofs::ActLaws::accesses), unfolding(crate::specs::Shapes::stores))]
    fn store(self, op: Storing, at: u16, image: &mut [u8], area: &mut [u8]) -> Core
        ensures { run_on (stores op at) self (memories image.old area.old)
            ≡ ran result (memories image.new area.new) }
    {
        let c = self.registers;
        let bus = self.bus.write(image, area, op.address(at, c), op.byte(c));
        Core {
            registers: op.stored(c),
            bus,
        }
    }

    #[tactic(auto, using(crate::proofs::ActLaws::accesses), unfolding(crate::specs::Shapes::stores_word))]
    fn store_word(self, op: WideStore, at: u16, image: &mut [u8], area: &mut [u8]) -> Core
        ensures { run_on (stores_word op at) self (memories image.old area.old)
            ≡ ran result (memories image.new area.new) }
    {
        let c = self.registers;
        let bus = write_word(self.bus, image, area, at, c.stored(op));
        Core {
            registers: operations::stored_word(op, c),
            bus,
        }
    }

    // Read, modify, write.
    #[tactic(auto, using(crate::proofs::ActLaws::accesses), unfolding(crate::specs::Shapes::modifies))]
    fn modify(self, op: Monadic, at: u16, image: &mut [u8], area: &mut [u8]) -> Core
        ensures { run_on (modifies op at) self (memories image.old area.old)
            ≡ ran result (memories image.new area.new) }
    {
        let c = self.registers;
        let f = self.bus.read(image, area, at);
        let r = arithmetic::monadic(op, f.value, c.codes);
        let bus = f.next.write(image, area, at, r.value);
        Core {
            registers: c.with_codes(r.codes),
            bus,
        }
    }

    #[tactic(auto, using(crate::proofs::ActLaws::accesses), unfolding(crate::specs::Shapes::pushes_word))]
    fn push_of(self, op: Pushing, at: u16, image: &mut [u8], area: &mut [u8]) -> Core
        ensures { run_on (pushes_word op at) self (memories image.old area.old)
            ≡ ran result (memories image.new area.new) }
    {
        let p = self.push_word(op.word(self.registers), image, area);
        Core {
            registers: op.pushed(at, p.registers),
            ..p
        }
    }
}

// The instruction.
impl Core {
    #[tactic(auto, using(crate::proofs::Shapes::operated), unfolding(crate::specs::Shapes::shaped))]
    fn operate(
        self,
        operation: Operation,
        place: Place,
        at: u16,
        image: &mut [u8],
        area: &mut [u8],
    ) -> Core
        ensures { run_on (operate operation place at) self (memories image.old area.old)
            ≡ ran result (memories image.new area.new) }
    {
        match operations::shape_of(operation, place) {
            Shape::Nothing(op) => self.quiet(op, at),
            Shape::Load(op) => self.load(op, at, image, area),
            Shape::LoadWord(op) => self.load_word(op, at, image, area),
            Shape::Store(op) => self.store(op, at, image, area),
            Shape::StoreWord(op) => self.store_word(op, at, image, area),
            Shape::Modify(op) => self.modify(op, at, image, area),
            Shape::PushWord(op) => self.push_of(op, at, image, area),
            Shape::Rti => self.rti(image, area),
            Shape::Swi => self.swi(image, area),
            Shape::Wai => self.wai(image, area),
        }
    }

    // The opcode's fetch.
    fn fetched(self, image: &[u8]) -> Core
        ensures fact_1 { result.registers ≡ with_pc self.registers (up self.registers.pc 1) }
        ensures fact_2 { ((area : List ℕ) → moment_of result.bus ≡ (read_at (memories image.now area) self.registers.pc (moment_of self.bus)).next) }
    {
        let c = self.registers;
        let bus = self.bus.fetch(image, c.pc);
        Core {
            registers: c.with_pc(plus(c.pc, 1)),
            bus,
        }
    }

    #[tactic(auto, using(crate::proofs::ActLaws::accesses), unfolding(crate::specs::Instructions::execute))]
    fn execute(self, i: Instruction, image: &mut [u8], area: &mut [u8]) -> Core
        ensures { run_on (execute i) self (memories image.old area.old)
            ≡ ran result (memories image.new area.new) }
    {
        let f = self.fetched(image);
        let o = f.locate(i.place, image, area);
        o.next.operate(i.operation, i.place, o.value, image, area)
    }
}

// Whole instructions and entries, with their cycles.
impl Core {
    // The rest of n cycles passes.
    fn end(self, n: u8) -> Chip
        ensures { (result.registers ≡ self.registers) × (result.bus ≡ ended n (moment_of self.bus)) }
    {
        Chip {
            registers: self.registers,
            bus: self.bus.finish(n),
        }
    }
}

impl Chip {
    // The accesses are to stand in the cycles `ahead`.
    fn begin(self, ahead: u64) -> Core
        ensures { (result.registers ≡ self.registers) × (moment_of result.bus ≡ begun (listed ahead) self.bus) }
    {
        Core {
            registers: self.registers,
            bus: moments::begin(self.bus, ahead),
        }
    }

    #[tactic(auto, using(crate::proofs::ActLaws::whole))]
    pub fn execute(self, i: Instruction, image: &mut [u8], area: &mut [u8]) -> Chip
        ensures { timed_on (access_cycles i.operation i.place) i.cycles (execute i) self (memories image.old area.old)
            ≡ left result (memories image.new area.new) }
    {
        self.begin(timing::accesses(i.operation, i.place))
            .execute(i, image, area)
            .end(i.cycles)
    }

    // Interrupt entry, in so many cycles.
    #[tactic(auto, using(crate::proofs::ActLaws::whole))]
    pub fn enter(self, vector: u16, cycles: u8, image: &mut [u8], area: &mut [u8]) -> Chip
        ensures { timed_on (entry_accesses self.registers.waiting) cycles (enter vector) self (memories image.old area.old)
            ≡ left result (memories image.new area.new) }
    {
        self.begin(timing::entry_accesses(self.registers.waiting))
            .enter(vector, image, area)
            .end(cycles)
    }
}
