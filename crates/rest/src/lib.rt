// The rest of a session after a run: the records that it did not use, their times less the cycles that it passed.
#![tactic(auto)]

ghost use Rattle.std.specs.Prelude.{◌≡◌, [], ◌++◌, ◌+◌, ◌-◌, ◌≤◌, length, drop, Ok};
ghost use Rattle.std.proofs.lemmas.List.Edits.{sets};
ghost use Rattle.session.specs.Session.{next_at, check_of};
ghost use Rattle.rest.specs.Rest.{skip_of, shifted_at, rest_from};
ghost use Rattle.rest.specs.Ahead.{SoundFrom};
ghost use Rattle.rest.specs.declared.RestRefusal.TheVariants.{Bad};
ghost use Rattle.rest.specs.Answers.{told_rest, rest_answer, rest_buffer};

use counts::{Cycles, Records};
use session::Fault;

// Why there is no rest: the session is bad; or it has fewer records than were used; or the buffer is shorter than the rest.
#[derive(Clone, Copy)]
pub enum RestRefusal {
    Bad(Fault),
    TooFew,
    NoRoom,
}

impl From<Fault> for RestRefusal {
    ghost from_gives = { λ fault refusal. refusal ≡ Bad fault };

    fn from(fault: Fault) -> RestRefusal {
        RestRefusal::Bad(fault)
    }
}

// A time less the cycles that have passed, and 0 where that would be below 0.
fn time_left(time: u32, cycles: Cycles) -> u32
    ensures { result ≡ time - cycles.0 }
{
    time.saturating_sub(cycles.0)
}

// The record at a place, its time less the cycles, is stored from a place of the buffer on.
fn copy_record(session: &[u8], at: usize, cycles: Cycles, to: usize, buffer: &mut [u8])
    requires { (at + 8 ≤ next_at session.now at)
        × (next_at session.now at ≤ length session.now)
        × (to + (next_at session.now at - at) ≤ length buffer.old) }
    ensures { buffer.new ≡ sets buffer.old to (shifted_at session.now cycles.0 at) }
{
    let next = session::next_at(session, at);
    let left = time_left(session::time_at(session, at), cycles);
    numbers::copy(&session[at..at + 4], &mut buffer[to..]);
    numbers::put(&mut buffer[to + 4..to + 8], left as u64);
    numbers::copy(&session[at + 8..next], &mut buffer[to + 8..]);
}

// The records from a place on are stored at the buffer's front, their times less the cycles.
fn copy_records(session: &[u8], from: usize, cycles: Cycles, buffer: &mut [u8])
    requires { SoundFrom session.now from × (length session.now - from ≤ length buffer.old) }
    ensures { buffer.new
        ≡ rest_from session.now cycles.0 from [] ++ drop (length session.now - from) buffer.old }
{
    let mut at = from;
    // From record to record, as the session's check goes: each says where the next begins.
    while at < session.len() {
        copy_record(session, at, cycles, at - from, buffer);
        at = session::next_at(session, at);
    }
}

// The place after the records that were used, where there are so many.
fn skip(session: &[u8], used: Records) -> Option<usize>
    requires { check_of session.now ≡ Ok tt }
    ensures { result ≡ skip_of session.now used.0 }
{
    let mut at = 0;
    for _ in 0..used.0 {
        if session.len() <= at {
            return None;
        }
        at = session::next_at(session, at);
    }
    Some(at)
}

// The rest of a sound session.
fn write_rest(
    session: &[u8],
    used: Records,
    cycles: Cycles,
    buffer: &mut [u8],
) -> Result<usize, RestRefusal>
    requires { check_of session.now ≡ Ok tt }
    ensures { (told_rest result ≡ rest_answer session.now used.0 cycles.0 buffer.old)
        × (buffer.new ≡ rest_buffer session.now used.0 cycles.0 buffer.old) }
{
    let at = skip(session, used).ok_or(RestRefusal::TooFew)?;
    let left = session.len() - at;
    if buffer.len() < left {
        return Err(RestRefusal::NoRoom);
    }
    copy_records(session, at, cycles, buffer);
    Ok(left)
}

// The rest of a session, of which so many records were used in so many cycles, is written to the buffer's front: how long it is, or why there is none.
pub fn rest(
    session: &[u8],
    used: Records,
    cycles: Cycles,
    buffer: &mut [u8],
) -> Result<usize, RestRefusal>
    ensures { (told_rest result ≡ rest_answer session.now used.0 cycles.0 buffer.old)
        × (buffer.new ≡ rest_buffer session.now used.0 cycles.0 buffer.old) }
{
    session::check(session)?;
    write_rest(session, used, cycles, buffer)
}
