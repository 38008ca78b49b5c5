// The sequence of a night's operations on its files: the next one, from the last one and whether it went well. A program carries them out and knows
// no order of its own. proofs/Plan.antt: it is the sequence of night_folders' theorems, and it keeps to their rules whatever the system answers.
#![tactic(auto)]

ghost use Rattle.std.specs.Prelude.{◌≡◌};
ghost use Rattle.night_steps.specs.Steps.{refusal_number, choice, following, next_op, waits_of, is_make};

// Why a call ends without its night, or stops for now.
#[derive(Clone, Copy)]
pub enum Refusal {
    Unread, // what it needs to go on cannot be read
    Failed, // an operation on its files failed
    Taken, // another call has the night
}

impl Refusal {
    // The number that a call tells.
    pub fn number(self) -> u8
        ensures { result ≡ refusal_number self }
    {
        match self {
            Refusal::Unread => 33,
            Refusal::Failed => 34,
            Refusal::Taken => 35,
        }
    }
}

// The files of a night by number, since the further ones are counted: 0 image, 1 state, 2 rest, 3 output, 4 names, and from 5 on the further ones.
// The letters are the paragraphs of docs/NIGHT.md.
#[derive(Clone, Copy)]
pub enum Op {
    Find, // (a) well: STATE.done does not stand
    ReadNames, // (a) the names of the night that committed
    Take, // (b) mkdir STATE.night
    Blocked, // (b) well: STATE.night is taken; not: it cannot be made
    FindAgain, // (c) as Find
    Settle, // (c) bring STATE's folder to the device
    GiveBack(u8), // remove STATE.night, in which nothing was made; refused with this number
    Run, // read the files and run
    Make(u8), // (d) make the file in STATE.night, write it, bring it to the device, close it
    SyncNight, // (d) bring STATE.night to the device
    Unlink(u8), // remove the file from STATE.night
    RemoveNight, // remove STATE.night
    Commit, // (e) rename STATE.night to STATE.done
    SyncCommit, // (f) bring STATE's folder to the device
    Put(u8), // (g) rename the file from STATE.done to its place; that it is gone is well
    SyncPlaces, // (g) bring the places' folder to the device
    RemoveDone, // (h) remove STATE.done; that it is gone is well
    SyncLast, // (h) bring STATE's folder to the device
    Placed, // the end: all new
    Refused(u8), // the end: nothing of this call's own night is left, but for a clean-up that failed
    Stopped(u8), // the end for now: the next call goes on from STATE.done where it stands; or the commit failed
}

fn choose(ok: bool, yes: Op, no: Op) -> Op
    ensures { result ≡ choice ok yes no }
{
    if ok { yes } else { no }
}

// The next of so many files, where there is one.
fn following(files: u8, i: u8) -> Option<u8>
    ensures { result ≡ following files i }
{
    if (i as u16) + 1 < (files as u16) {
        return Some(i + 1);
    }
    None
}

// The operation after `op`, which went well or not, of a night with so many files; `own` says whether this call has begun its own night, or puts
// another's in place.
pub fn next(files: u8, op: Op, ok: bool, own: bool) -> Op
    ensures { result ≡ next_op files op ok own }
{
    match op {
        Op::Find => choose(ok, Op::Take, Op::ReadNames),
        Op::ReadNames => choose(ok, Op::SyncCommit, Op::Stopped(Refusal::Unread.number())),
        Op::Take => choose(ok, Op::FindAgain, Op::Blocked),
        Op::Blocked => choose(
            ok,
            Op::Refused(Refusal::Taken.number()),
            Op::Refused(Refusal::Failed.number()),
        ),
        Op::FindAgain => choose(ok, Op::Settle, Op::GiveBack(Refusal::Taken.number())),
        Op::Settle => choose(ok, Op::Run, Op::GiveBack(Refusal::Failed.number())),
        Op::GiveBack(k) => Op::Refused(k),
        Op::Run => choose(ok, Op::Make(0), Op::RemoveNight),
        Op::Make(i) => choose(
            ok,
            following(files, i).map_or(Op::SyncNight, Op::Make),
            Op::Unlink(0),
        ),
        Op::SyncNight => choose(ok, Op::Commit, Op::Unlink(0)),
        Op::Unlink(i) => following(files, i).map_or(Op::RemoveNight, Op::Unlink),
        Op::RemoveNight => Op::Refused(Refusal::Failed.number()),
        Op::Commit => choose(ok, Op::SyncCommit, Op::Stopped(Refusal::Failed.number())),
        Op::SyncCommit => choose(ok, Op::Put(0), Op::Stopped(Refusal::Failed.number())),
        Op::Put(i) => choose(
            ok,
            following(files, i).map_or(Op::SyncPlaces, Op::Put),
            Op::Stopped(Refusal::Failed.number()),
        ),
        Op::SyncPlaces => choose(ok, Op::RemoveDone, Op::Stopped(Refusal::Failed.number())),
        Op::RemoveDone => choose(ok, Op::SyncLast, Op::Stopped(Refusal::Failed.number())),
        Op::SyncLast => choose(
            ok,
            choose(own, Op::Placed, Op::Take),
            Op::Stopped(Refusal::Failed.number()),
        ),
        Op::Placed | Op::Refused(_) | Op::Stopped(_) => op,
    }
}

// Whether an operation is an end, or another function's to carry out: the reading of the names, the run, the making of a file.
pub fn waits(op: Op) -> bool
    ensures { result ≡ waits_of op }
{
    matches!(
        op,
        Op::ReadNames | Op::Run | Op::Make(_) | Op::Placed | Op::Refused(_) | Op::Stopped(_)
    )
}

// Whether a file is to be made.
pub fn is_make(op: Op) -> bool
    ensures { result ≡ is_make op }
{
    matches!(op, Op::Make(_))
}
