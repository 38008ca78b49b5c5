// The public calls: power-on, the two runs, plain and watched, the question about one opcode, and the filled part of a lent buffer.
#![tactic(auto)]

ghost use Rattle.std.specs.Prelude.{◌≡◌, take};
ghost use Rattle.asking.specs.Asking.{told_decoded, opcode_answer};
ghost use Rattle.power.specs.Power.{told_power, power_answer};
ghost use Rattle.replies.specs.Replies.{told_reply};
ghost use Rattle.bus.specs.Access.{memories};
ghost use Rattle.boundary.specs.World.{Lent, lent, lending, with_memories, terms, terms_of, watching};
ghost use Rattle.boundary.specs.Start.{start_of};
ghost use Rattle.cabinet.specs.Answers.{refusal_of, told_admission, told_stop, ended_with, end_of};
ghost use Rattle.cabinet.specs.Answers.{report_of, answered, answer_of, leaps_of};

use boundary::{Asked, State, Stop, Watch};
use counts::{Counts, Cycles, Entries, Instructions, Leaps, Records, Sent};
use machine::{Machine, PowerRefusal};
use opcodes::Instruction;
use replies::Reply;

// What both runs report.
#[derive(Clone, Copy)]
pub struct Ran {
    pub reply: Reply,
    pub machine: Machine,
    pub counts: Counts,
}

// What the leaping run reports: the same, and how many leaps there were.
#[derive(Clone, Copy)]
pub struct Leapt {
    pub ran: Ran,
    pub leaps: Leaps,
}

// How a call ends.
#[derive(Clone, Copy)]
struct Ending {
    reply: Reply,
    state: State,
}

// A machine with all counts 0, at the session's front.
fn start(machine: Machine) -> State
    ensures { result ≡ start_of machine }
{
    State {
        machine,
        place: 0,
        used: Records(0),
        cycles: Cycles(0),
        instructions: Instructions(0),
        entries: Entries(0),
        sent: Sent(0),
        leaps: Leaps(0),
        inside: false,
    }
}

// The tests of 1, 12, 2 and 3, then the session from the front.
fn admit(image: &[u8], area: &[u8], m: Machine, terms: Asked) -> Result<(), Reply>
    ensures { (l : Lent) → told_admission result ≡ refusal_of (terms_of terms.entry) m (with_memories l (memories image.now area.now)) }
{
    if image.len() != 65536 {
        return Err(Reply::WrongImage);
    }
    if area.len() != 128 {
        return Err(Reply::WrongArea);
    }
    if !m.in_ranges() {
        return Err(Reply::WrongMachine);
    }
    if terms.limit > 1000000000 {
        return Err(Reply::WrongLimit);
    }
    session::check(terms.session)?;
    Ok(())
}

// The reply of a run that stopped: no From, since `told_stop` is this crate's word, and `boundary`, whose `Stop` it is, knows no replies.
fn stopped(s: Stop) -> Reply
    ensures { told_reply result ≡ told_stop s }
{
    match s {
        Stop::Limit => Reply::Limit,
        Stop::Undefined => Reply::Undefined,
        Stop::Full => Reply::Full,
        Stop::LogFull => Reply::LogFull,
    }
}

// A refusal, or a run to its end, leaping or single.
fn end(
    leaping: bool,
    image: &mut [u8],
    area: &mut [u8],
    m: Machine,
    terms: Asked,
    output: &mut [u8],
    log: &mut [u8],
) -> Ending
    ensures { ended_with result (lending image.new area.new output.new log.new)
        ≡ end_of (terms_of terms.entry) m (lending image.old area.old output.old log.old) }
{
    let start = start(m);
    if let Err(reply) = admit(&image[..], &area[..], m, terms) {
        return Ending {
            reply,
            state: start,
        };
    }
    let outcome = run::run(leaping, terms, image, area, output, log, start);
    Ending {
        reply: stopped(outcome.stop),
        state: outcome.state,
    }
}

impl Ending {
    // What both runs report of it.
    fn report(self) -> Ran
        ensures { result ≡ report_of self }
    {
        let state = self.state;
        Ran {
            reply: self.reply,
            machine: state.machine,
            counts: Counts {
                cycles: state.cycles,
                instructions: state.instructions,
                entries: state.entries,
                used: state.used,
                sent: state.sent,
            },
        }
    }
}

// Power-on: a machine from an image and R, or a refusal.
pub fn power_on(image: &[u8], r: u32) -> Result<Machine, PowerRefusal>
    ensures { told_power result ≡ power_answer image.now r }
{
    power::power_on(image, r)
}

// The public calls keep the parameters that README and docs/CONTRACTS.md name; within, session, limit and watch go together as `Asked`.

// Either run, leaping or single, watched: the same answer, and how many leaps there were or would have been.
pub fn watch_either(
    leaping: bool,
    image: &mut [u8],
    area: &mut [u8],
    m: Machine,
    session: &[u8],
    n: u32,
    watch: Watch,
    output: &mut [u8],
    log: &mut [u8],
) -> Leapt
    ensures { (answered result.ran (lending image.new area.new output.new log.new)
        ≡ answer_of (watching session.now n watch) m (lending image.old area.old output.old log.old))
        × (result.leaps.0
        ≡ leaps_of (watching session.now n watch) m (lending image.old area.old output.old log.old)) }
{
    let terms = Asked {
        session,
        limit: n,
        watch,
    };
    let e = end(leaping, image, area, m, terms, output, log);
    Leapt {
        ran: e.report(),
        leaps: e.state.leaps,
    }
}

// The single run, watched: 11 where the log has no room for a row.
pub fn watch_single(
    image: &mut [u8],
    area: &mut [u8],
    m: Machine,
    session: &[u8],
    n: u32,
    watch: Watch,
    output: &mut [u8],
    log: &mut [u8],
) -> Ran
    ensures { answered result (lending image.new area.new output.new log.new)
        ≡ answer_of (watching session.now n watch) m (lending image.old area.old output.old log.old) }
{
    watch_either(false, image, area, m, session, n, watch, output, log).ran
}

// The leaping run, watched: the same answer, and how many leaps there were.
pub fn watch_leaping(
    image: &mut [u8],
    area: &mut [u8],
    m: Machine,
    session: &[u8],
    n: u32,
    watch: Watch,
    output: &mut [u8],
    log: &mut [u8],
) -> Leapt
    ensures { (answered result.ran (lending image.new area.new output.new log.new)
        ≡ answer_of (watching session.now n watch) m (lending image.old area.old output.old log.old))
        × (result.leaps.0
        ≡ leaps_of (watching session.now n watch) m (lending image.old area.old output.old log.old)) }
{
    watch_either(true, image, area, m, session, n, watch, output, log)
}

// Either run with nothing watched: the same answer, and how many leaps there were or would have been.
pub fn run_either(
    leaping: bool,
    image: &mut [u8],
    area: &mut [u8],
    m: Machine,
    session: &[u8],
    n: u32,
    output: &mut [u8],
) -> Leapt
    ensures { (answered result.ran (lent image.new area.new output.new)
        ≡ answer_of (terms session.now n) m (lent image.old area.old output.old))
        × (result.leaps.0 ≡ leaps_of (terms session.now n) m (lent image.old area.old output.old)) }
{
    let mut none = [0u8; 1];
    watch_either(
        leaping,
        image,
        area,
        m,
        session,
        n,
        Watch::nothing(),
        output,
        &mut none[..0],
    )
}

// The single run: each waiting cycle is a boundary of its own.
pub fn run_single(
    image: &mut [u8],
    area: &mut [u8],
    m: Machine,
    session: &[u8],
    n: u32,
    output: &mut [u8],
) -> Ran
    ensures { answered result (lent image.new area.new output.new)
        ≡ answer_of (terms session.now n) m (lent image.old area.old output.old) }
{
    run_either(false, image, area, m, session, n, output).ran
}

// The leaping run: the same answer, and how many leaps there were.
pub fn run_leaping(
    image: &mut [u8],
    area: &mut [u8],
    m: Machine,
    session: &[u8],
    n: u32,
    output: &mut [u8],
) -> Leapt
    ensures { (answered result.ran (lent image.new area.new output.new)
        ≡ answer_of (terms session.now n) m (lent image.old area.old output.old))
        × (result.leaps.0 ≡ leaps_of (terms session.now n) m (lent image.old area.old output.old)) }
{
    run_either(true, image, area, m, session, n, output)
}

// One opcode's operation, operand place, length and cycles, or that it is undefined.
pub fn ask(opcode: u8) -> Option<Instruction>
    ensures { told_decoded result ≡ opcode_answer opcode }
{
    asking::ask(opcode)
}

// The filled part of an output, its first `sent` bytes, or of a log, its first 8 bytes an entry; or all of it where there are no more.
pub fn filled(output: &[u8], sent: usize) -> &[u8]
    ensures { result.now ≡ take sent output.now }
{
    asking::filled(output, sent)
}
