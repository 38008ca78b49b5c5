// The bus in the middle of an instruction: each access at its own moment.
#![tactic(auto)]

ghost use Rattle.std.specs.Prelude.{◌≡◌, List, ℕ, ◌-◌, ◌<◌};
ghost use Rattle.bus.specs.Access.{memories, store_of};
ghost use Rattle.timing.specs.Digits.{listed};
ghost use Rattle.moments.specs.Moment.{begun, next, read_now, write_now, read_at, write_at, stored_at, ended};
ghost use Rattle.moments.specs.Clocked.{lag, moment_of, read_on};

use bits::Read;
use bus::{Bus, Low, held};

// `cycle`: how many cycles of the instruction have passed. `shown`: how many of them the units have seen; they are shown the others before an access that
// can tell, one below $20, and at the instruction's end. `ahead`: the cycle of each access to come, a digit in base 16 each, the next one last.
#[derive(Clone, Copy)]
pub struct Clocked {
    pub bus: Bus,
    pub shown: u8,
    pub cycle: u8,
    pub ahead: u64,
}

// An instruction begins.
#[tactic(auto, unfolding(bus::specs::Units::passed, timer::specs::Timer::ticks, serial::specs::Serial::ticks_serial))]
pub fn begin(bus: Bus, ahead: u64) -> Clocked
    ensures { moment_of result ≡ begun (listed ahead) bus }
{
    Clocked {
        bus,
        shown: 0,
        cycle: 0,
        ahead,
    }
}

impl Clocked {
    // The cycles before the next access pass.
    #[tactic(auto, using(crate::proofs::Laws::advance_law))]
    fn advance(mut self) -> Clocked
        ensures { moment_of result ≡ next (moment_of self) }
    {
        let before = ((self.ahead % 16) as u8).saturating_sub(1);
        self.cycle += before.saturating_sub(self.cycle);
        self.ahead /= 16;
        self
    }

    // The units are shown all cycles that have passed.
    #[tactic(auto, using(crate::proofs::Laws::catch_up_law))]
    fn catch_up(mut self) -> Clocked
        ensures fact_1 { moment_of result ≡ moment_of self }
        ensures fact_2 { lag result ≡ 0 }
    {
        let behind = self.cycle.saturating_sub(self.shown);
        self.bus = self.bus.pass(behind as u32);
        self.shown += behind;
        self
    }

    // A read below $20, now.
    fn read_low(self, image: &[u8], low: Low) -> Read<u8, Clocked>
        ensures { (area : List ℕ) → read_on result ≡ read_now (memories image.now area) low.at (moment_of self) }
    {
        let c = self.catch_up();
        let f = c.bus.read_low(image, low);
        Read {
            value: f.value,
            next: Clocked { bus: f.next, ..c },
        }
    }

    // A write below $20, now.
    fn write_low(self, image: &mut [u8], low: Low, v: u8) -> Clocked
        ensures fact_1 { moment_of result ≡ write_now low.at v (moment_of self) }
        ensures fact_2 { ((area : List ℕ) → memories image.new area ≡ store_of (moment_of self).bus low.at v (memories image.old area)) }
    {
        let c = self.catch_up();
        let bus = c.bus.write_low(image, low, v);
        Clocked { bus, ..c }
    }

    // From $20 on an access cannot tell by how much the units lag.
    #[tactic(auto, unfolding(crate::specs::Moment::read_at))]
    pub fn read(self, image: &[u8], area: &[u8], at: u16) -> Read<u8, Clocked>
        ensures { read_on result ≡ read_at (memories image.now area.now) at (moment_of self) }
    {
        let c = self.advance();
        if let Some(low) = Low::find(at) {
            return c.read_low(image, low);
        }
        Read {
            value: held(image, area, c.bus.rame, at),
            next: c,
        }
    }

    // The opcode's read, whose value is known: from $20 on it has no effect.
    #[tactic(auto, unfolding(crate::specs::Moment::read_at))]
    pub fn fetch(self, image: &[u8], at: u16) -> Clocked
        ensures { (area : List ℕ) → moment_of result ≡ (read_at (memories image.now area) at (moment_of self)).next }
    {
        let c = self.advance();
        if let Some(low) = Low::find(at) {
            return c.read_low(image, low).next;
        }
        c
    }

    #[tactic(auto, unfolding(crate::specs::Moment::write_at, crate::specs::Moment::stored_at))]
    pub fn write(self, image: &mut [u8], area: &mut [u8], at: u16, v: u8) -> Clocked
        ensures fact_1 { moment_of result ≡ write_at at v (moment_of self) }
        ensures fact_2 { memories image.new area.new ≡ stored_at at v (moment_of self) (memories image.old area.old) }
    {
        let c = self.advance();
        if let Some(low) = Low::find(at) {
            return c.write_low(image, low, v);
        }
        c.bus.write_high(image, area, at, v);
        c
    }

    // The rest of n cycles passes.
    #[tactic(auto, using(crate::proofs::Laws::finish_law))]
    pub fn finish(self, n: u8) -> Bus
        ensures { result ≡ ended n (moment_of self) }
    {
        let all = self.cycle.max(n);
        self.bus.pass(all.saturating_sub(self.shown) as u32)
    }
}
