// One boundary of a run: records, sending, interrupt, waiting cycle or instruction, with the counts.
#![tactic(auto)]

ghost use Rattle.std.specs.Prelude.{◌≡◌, ℕ, ◌+◌, ◌^◌, ◌<◌, ◌≤◌, true, false, List, length};
ghost use Rattle.boundary.specs.World.{Lent, lending, with_memories, terms_of, unwatched, later, logged_bytes, world_of, grown_to};
ghost use Rattle.boundary.specs.Boundary.{record_taken, records_of, sent_state, waited_state, row_of, lacks_row, logged_of, entered_world};
ghost use Rattle.boundary.specs.Boundary.{executed_of, on_pending, act_of, send_of, boundary_of, turned};
ghost use Rattle.boundary.specs.Counts.{Fine, Ready, Fits, Refuses, Accepts};
ghost use Rattle.machine.specs.Steps.{look_of};
ghost use Rattle.bus.specs.Access.{memories};

use counts::{Cycles, Entries, Instructions, Leaps, Records, Sent};
use machine::{Cause, Machine};
use wake_log::Row;

// A run's state: `place` is where the first unused record stands, `inside` tells that the boundary before was a waiting cycle.
#[derive(Clone, Copy)]
pub struct State {
    pub machine: Machine,
    pub place: usize,
    pub used: Records,
    pub cycles: Cycles,
    pub instructions: Instructions,
    pub entries: Entries,
    pub sent: Sent,
    pub leaps: Leaps,
    pub inside: bool,
}

// How far the counts of a run have grown.
#[derive(Clone, Copy)]
pub struct Grown {
    pub cycles: Cycles,
    pub instructions: Instructions,
    pub entries: Entries,
    pub leaps: Leaps,
}

// No count has grown.
pub const UNGROWN: Grown = Grown {
    cycles: Cycles(0),
    instructions: Instructions(0),
    entries: Entries(0),
    leaps: Leaps(0),
};

// What is watched: with `log` each interrupt entry is logged. `since` are the cycles that had passed before the run; they are added to a row's count.
#[derive(Clone, Copy)]
pub struct Watch {
    pub log: bool,
    pub since: Cycles,
}

// What a run is asked: its session, its limit N, and what is watched.
#[derive(Clone, Copy)]
pub struct Asked<'a> {
    pub session: &'a [u8],
    pub limit: u32,
    pub watch: Watch,
}

#[derive(Clone, Copy)]
pub enum Stop {
    Limit,
    Undefined,
    Full,
    LogFull,
}

// What a boundary leaves, and the stop where it ends the run.
#[derive(Clone, Copy)]
pub struct Turned {
    pub state: State,
    pub stop: Option<Stop>,
}

impl Watch {
    pub fn nothing() -> Watch
        ensures { result ≡ unwatched }
    {
        Watch {
            log: false,
            since: Cycles(0),
        }
    }

    // For a run that goes on after so many cycles of another.
    pub fn later(self, cycles: Cycles) -> Watch
        ensures { result ≡ later self cycles.0 }
    {
        Watch {
            since: Cycles(self.since.0.wrapping_add(cycles.0)),
            ..self
        }
    }

    // How many bytes of the log so many entries fill.
    pub fn logged(self, entries: Entries) -> usize
        ensures { result ≡ logged_bytes self entries.0 }
    {
        if self.log {
            8 * (entries.0 as usize)
        } else {
            0
        }
    }
}

impl State {
    // The machine is another, and the counts have grown.
    pub fn moved(self, machine: Machine, by: Grown, inside: bool) -> State
        requires { Fits self by }
        ensures { result ≡ grown_to self machine by inside }
    {
        State {
            machine,
            cycles: Cycles(self.cycles.0 + by.cycles.0),
            instructions: Instructions(self.instructions.0 + by.instructions.0),
            entries: Entries(self.entries.0 + by.entries.0),
            leaps: Leaps(self.leaps.0 + by.leaps.0),
            inside,
            ..self
        }
    }

    // The record at its place is applied.
    #[tactic(auto, unfolding(crate::specs::Boundary::record_taken))]
    fn take(self, session: &[u8], image: &[u8], area: &[u8]) -> State
        requires { (self.place < length session.now) × (self.used.0 ≤ self.place) }
        ensures { result ≡ record_taken session.now (memories image.now area.now) self }
    {
        let at = self.place;
        State {
            machine: self
                .machine
                .apply(session::event_at(session, at), image, area),
            place: session::next_at(session, at),
            used: Records(self.used.0 + 1),
            inside: false,
            ..self
        }
    }

    // Step 2.
    fn apply_records(self, session: &[u8], image: &[u8], area: &[u8]) -> State
        requires { self.used.0 ≤ self.place }
        ensures { result ≡ records_of session.now (memories image.now area.now) self }
    {
        let mut s = self;
        while session::is_due(session, s.cycles, s.place) {
            s = s.take(session, image, area);
        }
        s
    }

    // A byte was sent.
    #[tactic(auto, unfolding(crate::specs::Boundary::sent_state))]
    fn after_sending(self) -> State
        requires { self.sent.0 + 1 < 2 ^ 64 }
        ensures { result ≡ sent_state self }
    {
        State {
            machine: self.machine.send(),
            sent: Sent(self.sent.0 + 1),
            inside: false,
            ..self
        }
    }

    // An interrupt is entered.
    fn enter(self, cause: Cause, image: &mut [u8], area: &mut [u8]) -> State
        requires { Ready self }
        ensures { (l : Lent) → world_of result (with_memories l (memories image.new area.new))
            ≡ entered_world cause (world_of self (with_memories l (memories image.old area.old))) }
    {
        let e = self.machine.enter(cause, image, area);
        let by = Grown {
            cycles: e.cycles,
            entries: Entries(1),
            ..UNGROWN
        };
        self.moved(e.machine, by, false)
    }

    // The row of an entry.
    fn row(self, watch: Watch, cause: Cause) -> Row
        ensures { result ≡ row_of watch cause self }
    {
        Row {
            cycle: watch.since.0.wrapping_add(self.cycles.0),
            cause: machine::cause_number(cause),
            behind: self.machine.behind(cause),
        }
    }

    // Whether an interrupt is to be accepted whose row is asked for and has no room.
    fn lacks_row(self, logs: bool, log: &[u8]) -> bool
        ensures { (result ≡ true → Refuses logs self log.now) × (result ≡ false → Accepts logs self log.now) }
    {
        logs && !wake_log::fits_row(log, self.entries.0) && self.machine.pending().is_some()
    }

    // An entry is logged, where that is asked for.
    fn log_entry(self, watch: Watch, cause: Cause, log: &mut [u8])
        requires { lacks_row watch self log.old ≡ false }
        ensures { log.new ≡ logged_of watch cause self log.old }
    {
        if watch.log {
            wake_log::write_row(log, self.entries.0, self.row(watch, cause));
        }
    }

    // Step 4, where there is room.
    fn accept(
        self,
        watch: Watch,
        cause: Cause,
        image: &mut [u8],
        area: &mut [u8],
        log: &mut [u8],
    ) -> Turned
        requires { Ready self × (lacks_row watch self log.old ≡ false) }
        ensures { (o : List ℕ) → turned result (lending image.new area.new o log.new)
            ≡ on_pending watch (Some cause) (world_of self (lending image.old area.old o log.old)) }
    {
        self.log_entry(watch, cause, log);
        Turned {
            state: self.enter(cause, image, area),
            stop: None,
        }
    }

    // Step 5.
    #[tactic(auto, unfolding(crate::specs::Boundary::waited_state))]
    fn wait(self) -> State
        requires { Ready self }
        ensures { result ≡ waited_state self }
    {
        let by = Grown {
            cycles: Cycles(1),
            leaps: Leaps(if self.inside { 0 } else { 1 }),
            ..UNGROWN
        };
        self.moved(self.machine.pass(Cycles(1)), by, true)
    }

    // Step 6.
    fn step(self, image: &mut [u8], area: &mut [u8]) -> Turned
        requires { Ready self }
        ensures { (l : Lent) → turned result (with_memories l (memories image.new area.new))
            ≡ executed_of (look_of (memories image.old area.old) self.machine)
            (world_of self (with_memories l (memories image.old area.old))) }
    {
        let Some(i) = self.machine.look(image, area) else {
            return Turned {
                state: self,
                stop: Some(Stop::Undefined),
            };
        };
        let e = self.machine.step(i, image, area);
        let by = Grown {
            cycles: e.cycles,
            instructions: Instructions(1),
            ..UNGROWN
        };
        Turned {
            state: self.moved(e.machine, by, false),
            stop: None,
        }
    }

    // Steps 4 to 6, where there is room.
    fn act_with_room(
        self,
        logs: bool,
        since: Cycles,
        image: &mut [u8],
        area: &mut [u8],
        log: &mut [u8],
    ) -> Turned
        requires { Ready self × Accepts logs self log.old }
        ensures { (o : List ℕ) → turned result (lending image.new area.new o log.new)
            ≡ act_of (record { log = logs; since = since }) (world_of self (lending image.old area.old o log.old)) }
    {
        if let Some(cause) = self.machine.pending() {
            let watch = Watch { log: logs, since };
            return self.accept(watch, cause, image, area, log);
        }
        if self.machine.chip.registers.idles() {
            return Turned {
                state: self.wait(),
                stop: None,
            };
        }
        self.step(image, area)
    }

    // Steps 4 to 6. What is watched comes in its parts, and the room is tested before: both keep every other boundary as cheap as without a log.
    fn act(
        self,
        logs: bool,
        since: Cycles,
        image: &mut [u8],
        area: &mut [u8],
        log: &mut [u8],
    ) -> Turned
        requires { Ready self }
        ensures { (o : List ℕ) → turned result (lending image.new area.new o log.new)
            ≡ act_of (record { log = logs; since = since }) (world_of self (lending image.old area.old o log.old)) }
    {
        if self.lacks_row(logs, &log[..]) {
            return Turned {
                state: self,
                stop: Some(Stop::LogFull),
            };
        }
        self.act_with_room(logs, since, image, area, log)
    }

    // Steps 3 to 6.
    fn send(
        self,
        logs: bool,
        since: Cycles,
        image: &mut [u8],
        area: &mut [u8],
        output: &mut [u8],
        log: &mut [u8],
    ) -> Turned
        requires { Ready self }
        ensures { turned result (lending image.new area.new output.new log.new)
            ≡ send_of (record { log = logs; since = since })
            (world_of self (lending image.old area.old output.old log.old)) }
    {
        if self.machine.chip.bus.serial.wants_to_send() {
            let at = self.sent.0;
            if output.len() <= at {
                return Turned {
                    state: self,
                    stop: Some(Stop::Full),
                };
            }
            output[at] = self.machine.chip.bus.serial.transmit;
            let sent = self.after_sending();
            return sent.act(logs, since, image, area, log);
        }
        let rested = self;
        rested.act(logs, since, image, area, log)
    }

    // One boundary.
    pub fn boundary(
        self,
        terms: Asked,
        image: &mut [u8],
        area: &mut [u8],
        output: &mut [u8],
        log: &mut [u8],
    ) -> Turned
        requires { Fine self × (terms.limit ≤ 1000000000) }
        ensures { turned result (lending image.new area.new output.new log.new)
            ≡ boundary_of (terms_of terms.entry)
            (world_of self (lending image.old area.old output.old log.old)) }
    {
        if terms.limit <= self.cycles.0 {
            return Turned {
                state: self,
                stop: Some(Stop::Limit),
            };
        }
        let watch = terms.watch;
        self.apply_records(terms.session, image, area)
            .send(watch.log, watch.since, image, area, output, log)
    }
}
