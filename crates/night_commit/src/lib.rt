// What carries out a night's operations on its files: names and system calls. The order is night_steps' alone (docs/NIGHT.md).
#![tactic(auto)]

ghost use Rattle.std.specs.Prelude.{true, [], ◌∷◌, ◌≡◌};
ghost use Rattle.std.specs.List.{slice_get};
ghost use Rattle.std.specs.Option.{option_copied};
ghost use Rattle.io.specs.Counts.{IsPrefixLen};
ghost use Rattle.night_steps.specs.Steps.{waits_of, tells_refusal};

use host::Rest;
use night_steps::Op;
use std::fs::Files;
use std::io::{ErrorKind, Read, Result};

// A night by its names: STATE's, and those that it commits along.
#[derive(Clone, Copy)]
pub struct Places<'a> {
    pub state: &'a [u8],
    pub names: &'a [u8],
}

// The bytes of a night's files but for those of its names. The area and the log are files of it where its names have theirs.
#[derive(Clone, Copy)]
pub struct Contents<'a> {
    pub image: &'a [u8],
    pub machine: &'a [u8],
    pub rest: &'a [u8],
    pub output: &'a [u8],
    pub area: &'a [u8],
    pub log: &'a [u8],
}

fn open_with<R: Files>(rt: &R, name: &[u8], ending: &[u8]) -> Result<R::File> {
    night_names::with_joined(name, ending, |path| host::open(rt, path))
}

// A name with this ending is there, or cannot be told not to be.
fn stands(rt: &impl Files, name: &[u8], ending: &[u8]) -> bool {
    match open_with(rt, name, ending) {
        Ok(_) => true,
        Err(error) => !host::is_absent(&error),
    }
}

impl<'a> Places<'a> {
    // The place of a file, by its number (`Op` of night_steps).
    fn place_of(self, i: u8, buffer: &mut [u8]) -> usize
        ensures { IsPrefixLen result buffer.new }
    {
        night_names::place_of(i, self.state, self.names, buffer)
    }

    // Where the file stands in STATE.night/ or STATE.done/.
    fn work_of(self, i: u8, folder: &[u8], buffer: &mut [u8]) -> usize
        ensures { IsPrefixLen result buffer.new }
    {
        let mut place = io::buffer();
        let n = self.place_of(i, &mut place);
        night_names::work_place(self.state, folder, &place[..n], buffer)
    }
}

// A file's place is a folder, or cannot be told not to be: a path through a file is answered with NotADirectory.
fn is_folder(rt: &impl Files, i: u8, places: Places) -> bool {
    let mut place = io::buffer();
    let n = places.place_of(i, &mut place);
    match open_with(rt, &place[..n], b"/.") {
        Ok(_) => true,
        Err(error) => !host::is_absent(&error) & (error.kind() != ErrorKind::NotADirectory),
    }
}

// Whether one of the places of a night's files is a folder.
pub fn has_folder(rt: &impl Files, places: Places) -> bool {
    (0..night_names::files(places.names)).any(|i| is_folder(rt, i, places))
}

// What a folder holds has reached the device.
fn sync_folder(rt: &impl Files, name: &[u8], ending: &[u8]) -> bool {
    open_with(rt, name, ending).is_ok_and(|folder| host::sync(folder))
}

// The folder in which STATE lies, and the places with it.
fn sync_home(rt: &impl Files, state: &[u8]) -> bool {
    let at = night_names::last_at(state);
    if at == 0 {
        return sync_folder(rt, b".", b"");
    }
    sync_folder(rt, &state[..at], b"")
}

fn take_night(rt: &impl Files, state: &[u8]) -> Result<()> {
    night_names::with_joined(state, b".night", |path| host::make_folder(rt, path))
}

// What was to be made is there already.
fn is_taken(made: &Result<()>) -> bool {
    match made {
        Ok(()) => false,
        Err(error) => error.kind() == ErrorKind::AlreadyExists,
    }
}

fn remove_folder(rt: &impl Files, state: &[u8], ending: &[u8]) -> Result<()> {
    night_names::with_joined(state, ending, |path| host::remove_folder(rt, path))
}

// What was to be removed or renamed is so, or is gone.
fn is_gone(done: Result<()>) -> bool {
    match done {
        Ok(()) => true,
        Err(error) => host::is_absent(&error),
    }
}

fn commit(rt: &impl Files, state: &[u8]) -> bool {
    let mut done = io::buffer();
    let n = night_arguments::joined(state, b".done", &mut done);
    night_names::with_joined(state, b".night", |night| {
        host::rename(rt, night, &done[..n]).is_ok()
    })
}

fn unlink_file(rt: &impl Files, i: u8, places: Places) -> bool {
    let mut path = io::buffer();
    let n = places.work_of(i, b".night/", &mut path);
    host::remove_file(rt, &path[..n]).is_ok()
}

// A new file holds these bytes, and so on the device.
fn make(rt: &impl Files, i: u8, places: Places, bytes: &[u8]) -> bool {
    let mut path = io::buffer();
    let n = places.work_of(i, b".night/", &mut path);
    let Ok(mut file) = host::create(rt, &path[..n]) else {
        return false;
    };
    let written = host::write_all(&mut file, bytes);
    host::sync(file) & written
}

// A file takes its place, or is gone: it is there already.
fn put_file(rt: &impl Files, i: u8, places: Places) -> bool {
    let mut path = io::buffer();
    let n = places.work_of(i, b".done/", &mut path);
    let mut place = io::buffer();
    let m = places.place_of(i, &mut place);
    is_gone(host::rename(rt, &path[..n], &place[..m]))
}

// One operation that does not wait, and whether it went well. `taken` goes from Take to Blocked.
fn carry_out(rt: &impl Files, op: Op, places: Places, taken: &mut bool) -> bool {
    let state = places.state;
    match op {
        Op::Find | Op::FindAgain => !stands(rt, state, b".done"),
        Op::Take => {
            let made = take_night(rt, state);
            *taken = is_taken(&made);
            made.is_ok()
        }
        Op::Blocked => *taken,
        Op::Settle | Op::SyncCommit | Op::SyncPlaces | Op::SyncLast => sync_home(rt, state),
        Op::GiveBack(_) | Op::RemoveNight => remove_folder(rt, state, b".night").is_ok(),
        Op::SyncNight => sync_folder(rt, state, b".night"),
        Op::Unlink(i) => unlink_file(rt, i, places),
        Op::Commit => commit(rt, state),
        Op::Put(i) => put_file(rt, i, places),
        Op::RemoveDone => is_gone(remove_folder(rt, state, b".done")),
        _ => false,
    }
}

// From an operation to the first that waits. `own`: the files are this call's own night.
pub fn carry(rt: &impl Files, first: Op, own: bool, places: Places) -> Op
    ensures waits { waits_of result ≡ true }
    ensures tells { tells_refusal first ≡ true → tells_refusal result ≡ true }
{
    let files = night_names::files(places.names);
    let mut op = first;
    let mut taken = false;
    while !night_steps::waits(op) {
        let ok = carry_out(rt, op, places, &mut taken);
        op = night_steps::next(files, op, ok, own);
    }
    op
}

// An open file's bytes, all of them, are put at the buffer's front; 0 where they cannot be read or there are more. No bytes are no names
// (`are_recorded`), so this needs no other answer.
fn read_whole(file: impl Read + Drop, buffer: &mut [u8]) -> usize
    ensures { IsPrefixLen result buffer.new }
{
    let mut source = file;
    let n = host::read_full(&mut source, buffer);
    match host::what_follows(&mut source) {
        Rest::Nothing => n,
        _ => 0,
    }
}

// The names in their place.
fn read_placed(rt: &impl Files, state: &[u8], buffer: &mut [u8]) -> usize
    ensures { IsPrefixLen result buffer.new }
{
    match open_with(rt, state, b".names") {
        Ok(file) => read_whole(file, buffer),
        Err(_) => 0,
    }
}

// The names of the night that committed: in STATE.done, or in their place already.
fn read_names(rt: &impl Files, state: &[u8], buffer: &mut [u8]) -> usize
    ensures { IsPrefixLen result buffer.new }
{
    let unnamed = Places { state, names: b"" };
    let mut path = io::buffer();
    let n = unnamed.work_of(4, b".done/", &mut path);
    match host::open(rt, &path[..n]) {
        Ok(file) => read_whole(file, buffer),
        Err(error) => {
            if !host::is_absent(&error) {
                return 0;
            }
            read_placed(rt, state, buffer)
        }
    }
}

// The start of a call: another night's files are put in place where STATE.done stands, and STATE.night is taken. What follows is the run, or an end.
pub fn prepare(rt: &impl Files, state: &[u8]) -> Op
    ensures waits { waits_of result ≡ true }
    ensures tells { tells_refusal result ≡ true }
{
    let op = carry(rt, Op::Find, false, Places { state, names: b"" });
    if !matches!(op, Op::ReadNames) {
        return op;
    }
    let mut buffer = io::buffer();
    let n = read_names(rt, state, &mut buffer);
    let names = &buffer[..n];
    let known = night_names::are_recorded(names);
    let next = night_steps::next(night_names::files(names), op, known, false);
    carry(rt, next, false, Places { state, names })
}

impl<'a> Contents<'a> {
    // The bytes of a file, by its number (`Op` of night_steps); there is none with a number above 6.
    fn bytes_of(self, names: &'a [u8], i: u8) -> Option<&'a [u8]>
        ensures { option_copied result
            ≡ slice_get (self.entry.image.now ∷ self.entry.machine.now ∷ self.entry.rest.now ∷ self.entry.output.now ∷ names.now
            ∷ self.entry.area.now ∷ self.entry.log.now ∷ []) i }
    {
        match i {
            0 => Some(self.image),
            1 => Some(self.machine),
            2 => Some(self.rest),
            3 => Some(self.output),
            4 => Some(names),
            5 => Some(self.area),
            6 => Some(self.log),
            _ => None,
        }
    }
}

// A file is made in STATE.night.
fn make_file(rt: &impl Files, op: Op, places: Places, contents: Contents) -> bool {
    let Op::Make(i) = op else {
        return false;
    };
    match contents.bytes_of(places.names, i) {
        Some(bytes) => make(rt, i, places, bytes),
        None => false,
    }
}

// The end of a call whose night has run: its files are made, committed and put in place; or STATE.night is removed.
pub fn finish(rt: &impl Files, ran: bool, places: Places, contents: Contents) -> Op
    ensures waits { waits_of result ≡ true }
    ensures tells { tells_refusal result ≡ true }
{
    let files = night_names::files(places.names);
    let mut op = night_steps::next(files, Op::Run, ran, true);
    while night_steps::is_make(op) {
        let ok = make_file(rt, op, places, contents);
        op = night_steps::next(files, op, ok, true);
    }
    carry(rt, op, true, places)
}
