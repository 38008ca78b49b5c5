// A night: a long run of the leaping kind in slices, each with the rest of the session that the one before left.
#![tactic(auto)]

ghost use Rattle.std.specs.Prelude.{◌≡◌, ◌+◌, ◌-◌, ◌^◌, ◌<◌, ◌≤◌, min, [], length, take, ◌==◌};
ghost use Rattle.replies.specs.Replies.{told_reply, stops};
ghost use Rattle.boundary.specs.World.{lent, lending, watching, logged_bytes};
ghost use Rattle.printing.specs.Printing.{empty_line, puts_of};
ghost use Rattle.night_lines.specs.NightLines.{slice_text, end_text};
ghost use Rattle.std.specs.Prelude.{Err};
ghost use Rattle.rest.specs.Answers.{refuses, told_rest};
ghost use Rattle.night_slices.specs.Slices.{keep_number, slice_cycles, keeping_of, kept, told_slice_end, ran_numbers, standing, beginning, next_of};
ghost use Rattle.night_slices.specs.Slices.{slice_of, goes_on, night_of, night_text};

use boundary::Watch;
use cabinet::{Leapt, Ran};
use counts::{Cycles, Records};
use lines::Numbers;
use machine::Machine;
use printing::Line;
use registers::Registers;
use replies::Reply;
use rest::RestRefusal;

// Why a slice's rest is not kept: the session has fewer records than were used, or there is no room.
#[derive(Clone, Copy)]
pub enum KeepRefusal {
    TooFew,
    NoRoom,
}

impl KeepRefusal {
    // The number that a night tells.
    fn number(self) -> u8
        ensures { result ≡ keep_number self }
    {
        match self {
            KeepRefusal::TooFew => 30,
            KeepRefusal::NoRoom => 31,
        }
    }
}

// How a slice ended: with the run's reply, where its rest is kept.
pub type SliceEnd = Result<Reply, KeepRefusal>;

// The sums of the slices' counts, a type each, so that one cannot be taken for another.
#[derive(Clone, Copy)]
pub struct NightSlices(pub u64);

#[derive(Clone, Copy)]
pub struct NightCycles(pub u64);

#[derive(Clone, Copy)]
pub struct NightInstructions(pub u64);

#[derive(Clone, Copy)]
pub struct NightEntries(pub u64);

#[derive(Clone, Copy)]
pub struct NightRecords(pub u64);

#[derive(Clone, Copy)]
pub struct NightLeaps(pub u64);

// A night between slices: `length` bytes of the session's buffer are its rest, `left` cycles are still to run, the next slice watches
// `watch`, and the first `sent` bytes of the output and the first `logged` bytes of the log are filled.
#[derive(Clone, Copy)]
pub struct Night {
    pub ended: SliceEnd,
    pub machine: Machine,
    pub length: usize,
    pub left: u32,
    pub watch: Watch,
    pub sent: usize,
    pub logged: usize,
    pub slices: NightSlices,
    pub cycles: NightCycles,
    pub instructions: NightInstructions,
    pub entries: NightEntries,
    pub used: NightRecords,
    pub leaps: NightLeaps,
}

// How a slice ended, and how many bytes the rest of its session has.
#[derive(Clone, Copy)]
struct Kept {
    ended: SliceEnd,
    length: usize,
}

// The cycles of the next slice.
pub fn slice_of(left: u32) -> u32
    ensures { result ≡ slice_cycles left }
{
    left.min(1000000000)
}

// The cycles that are left after a slice, and 0 where that would be below 0.
pub fn left_after(left: u32, cycles: Cycles) -> u32
    ensures { result ≡ left - cycles.0 }
{
    left.saturating_sub(cycles.0)
}

// A slice's line.
fn slice_line(number: u64, leapt: Leapt) -> Line
    ensures { result ≡ puts_of empty_line (slice_text number (told_reply leapt.ran.reply).number (ran_numbers leapt.ran) leapt.leaps.0) }
{
    let ran = leapt.ran;
    let reply = ran.reply;
    let numbers = lines::run_numbers(ran.counts);
    night_lines::slice_line(number, reply.number(), numbers, leapt.leaps.0 as u64)
}

// A slice's line is printed, where its run was not refused.
fn announce(rt: &impl Print, number: u64, leapt: Leapt) {
    let ran = leapt.ran;
    let reply = ran.reply;
    if reply.is_stop() {
        slice_line(number, leapt).print(rt);
    }
}

// How a slice ends whose rest is refused.
fn end_of(refusal: RestRefusal) -> SliceEnd
    ensures { refuses (told_slice_end result) ≡ told_rest (Err refusal) }
{
    match refusal {
        RestRefusal::Bad(fault) => Ok(Reply::from(fault)),
        RestRefusal::TooFew => Err(KeepRefusal::TooFew),
        RestRefusal::NoRoom => Err(KeepRefusal::NoRoom),
    }
}

// The rest of the session takes the session's place, where the run was not refused.
fn keep(
    session: &mut [u8],
    size: usize,
    reply: Reply,
    used: Records,
    cycles: Cycles,
    spare: &mut [u8],
) -> Kept
    requires { (size ≤ length session.old) × (size ≤ length spare.old) }
    ensures { (kept result session.new ≡ keeping_of (told_reply reply) (take size session.old) used.0 cycles.0)
        × (result.length ≤ size) }
{
    if !reply.is_stop() {
        return Kept {
            ended: Ok(reply),
            length: size,
        };
    }
    let rested = rest::rest(&session[..size], used, cycles, spare);
    match rested {
        Ok(n) => {
            numbers::copy(&spare[..n], session);
            Kept {
                ended: Ok(reply),
                length: n,
            }
        }
        Err(refusal) => Kept {
            ended: end_of(refusal),
            length: size,
        },
    }
}

fn stops_with(ended: SliceEnd) -> bool
    ensures { result ≡ stops (told_slice_end ended).number }
{
    ended.is_ok_and(|reply| reply.is_stop())
}

fn at_limit(ended: SliceEnd) -> bool
    ensures { result ≡ ((told_slice_end ended).number == 0) }
{
    ended.is_ok_and(|reply| reply.number() == 0)
}

// What a night that ended so tells.
fn closing(ended: SliceEnd, slices: u64, n: Numbers, leaps: u64, c: Registers) -> Line
    ensures { result ≡ puts_of empty_line (end_text (told_slice_end ended) slices n leaps c) }
{
    match ended {
        Err(refusal) => lines::refused(refusal.number()),
        Ok(reply) => night_lines::end_line(reply, slices, n, leaps, c),
    }
}

impl Night {
    // A night at its start.
    fn start(ended: SliceEnd, m: Machine, size: usize, n: u32, watch: Watch) -> Night
        ensures { result ≡ beginning ended m size n watch }
    {
        Night {
            ended,
            machine: m,
            length: size,
            left: n,
            watch,
            sent: 0,
            logged: 0,
            slices: NightSlices(0),
            cycles: NightCycles(0),
            instructions: NightInstructions(0),
            entries: NightEntries(0),
            used: NightRecords(0),
            leaps: NightLeaps(0),
        }
    }

    // The night after a slice.
    fn after(self, leapt: Leapt, kept: Kept) -> Night
        requires { (self.sent + leapt.ran.counts.sent.0 < 2 ^ 64)
            × (self.logged + logged_bytes self.watch leapt.ran.counts.entries.0 < 2 ^ 64) }
        ensures { result ≡ next_of self leapt kept }
    {
        let ran = leapt.ran;
        let watch = self.watch;
        Night {
            ended: kept.ended,
            machine: ran.machine,
            length: kept.length,
            left: left_after(self.left, ran.counts.cycles),
            watch: watch.later(ran.counts.cycles),
            sent: self.sent + ran.counts.sent.0,
            logged: self.logged + watch.logged(ran.counts.entries),
            slices: NightSlices(self.slices.0.wrapping_add(1)),
            cycles: NightCycles(self.cycles.0.wrapping_add(ran.counts.cycles.0 as u64)),
            instructions: NightInstructions(
                self.instructions
                    .0
                    .wrapping_add(ran.counts.instructions.0 as u64),
            ),
            entries: NightEntries(self.entries.0.wrapping_add(ran.counts.entries.0 as u64)),
            used: NightRecords(self.used.0.wrapping_add(ran.counts.used.0 as u64)),
            leaps: NightLeaps(self.leaps.0.wrapping_add(leapt.leaps.0 as u64)),
        }
    }

    // Whether another slice follows.
    fn goes_on(self) -> bool
        ensures { result ≡ goes_on (standing self (lent [] [] []) []) }
    {
        at_limit(self.ended) & (self.left > 0)
    }

    // Whether the night ran and stopped, with 0, 8, 9 or 11: it was not refused.
    pub fn has_stopped(self) -> bool
        ensures { result ≡ stops (told_slice_end self.ended).number }
    {
        stops_with(self.ended)
    }

    // The night's line.
    pub fn line(self) -> Line
        ensures { result ≡ puts_of empty_line (night_text (standing self (lent [] [] []) [])) }
    {
        let n = Numbers {
            cycles: self.cycles.0,
            instructions: self.instructions.0,
            entries: self.entries.0,
            used: self.used.0,
            sent: self.sent as u64,
        };
        closing(
            self.ended,
            self.slices.0,
            n,
            self.leaps.0,
            self.machine.chip.registers,
        )
        .text(b"\n")
    }
}

// One slice. Its line is printed.
fn slice(
    rt: &impl Print,
    image: &mut [u8],
    area: &mut [u8],
    session: &mut [u8],
    output: &mut [u8],
    log: &mut [u8],
    spare: &mut [u8],
    night: Night,
) -> Night
    requires { (night.length ≤ length session.old) × (night.length ≤ length spare.old) × (night.sent ≤ length output.old)
        × (night.logged ≤ length log.old) }
    ensures { (standing result (lending image.new area.new output.new log.new) session.new
        ≡ slice_of (standing night (lending image.old area.old output.old log.old) session.old))
        × (result.length ≤ night.length) × (result.sent ≤ length output.old) × (result.logged ≤ length log.old) }
{
    let size = night.length;
    let sent = night.sent;
    let logged = night.logged;
    let m = night.machine;
    let watch = night.watch;
    let leapt = cabinet::watch_leaping(
        image,
        area,
        m,
        &session[..size],
        slice_of(night.left),
        watch,
        &mut output[sent..],
        &mut log[logged..],
    );
    announce(rt, night.slices.0.wrapping_add(1), leapt);
    let ran = leapt.ran;
    let reply = ran.reply;
    let kept = keep(
        session,
        size,
        reply,
        ran.counts.used,
        ran.counts.cycles,
        spare,
    );
    night.after(leapt, kept)
}

// A night of `n` cycles: the first `size` bytes of `session` are its session, and are its rest afterwards. Where the log is asked for,
// all slices log into `log`, one after another. Each slice's line is printed.
pub fn run_night(
    rt: &impl Print,
    image: &mut [u8],
    area: &mut [u8],
    m: Machine,
    session: &mut [u8],
    size: usize,
    n: u32,
    watch: Watch,
    output: &mut [u8],
    log: &mut [u8],
    spare: &mut [u8],
) -> Night
    ensures { standing result (lending image.new area.new output.new log.new) session.new
        ≡ night_of (watching (take size session.old) n watch) m
        (lending image.old area.old output.old log.old) (length spare.old) }
{
    let size = size.min(session.len());
    if spare.len() < size {
        return Night::start(Err(KeepRefusal::NoRoom), m, size, n, watch);
    }
    let mut night = Night::start(Ok(Reply::Limit), m, size, n, watch);
    loop {
        night = slice(rt, image, area, session, output, log, spare, night);
        if !night.goes_on() {
            return night;
        }
    }
}
