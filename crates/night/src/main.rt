// The night program: [--area FILE] [--log FILE] [--] IMAGE SESSION N R STATE OUTPUT. It runs a night on the files, prints a line for each
// slice and one for the night, and has night_commit put the new files in the old ones' places (docs/NIGHT.md).
#![tactic(auto)]

ghost use Rattle.std.specs.Prelude.{◌≤◌, length};
ghost use Rattle.io.specs.Counts.{IsPrefixLen};

use boundary::Watch;
use counts::Cycles;
use host::Rest;
use machine::{Machine, PowerRefusal};
use night_commit::{Contents, Places};
use night_slices::Night;
use night_steps::Op;
use saved::LoadRefusal;
use std::env::Env;
use std::fs::Files;

// Why a buffer does not hold a file's bytes: there are more, the file is missing, or it cannot be read.
#[derive(Clone, Copy)]
enum Unread {
    Longer,
    Missing,
    Failed,
}

// Why a call ends with a refusal. That of a run is told by the night's own line.
#[derive(Clone, Copy)]
enum Refused {
    Power(PowerRefusal),
    Area,
    Load(LoadRefusal),
    Arguments,
    Files(night_steps::Refusal),
    Ended(u8), // the number of one of night_steps' ends
}

impl From<PowerRefusal> for Refused {
    fn from(refusal: PowerRefusal) -> Refused {
        Refused::Power(refusal)
    }
}

impl From<LoadRefusal> for Refused {
    fn from(refusal: LoadRefusal) -> Refused {
        Refused::Load(refusal)
    }
}

impl Refused {
    fn number(self) -> u8 {
        match self {
            Refused::Power(PowerRefusal::WrongImage) => 1,
            Refused::Power(PowerRefusal::WrongStart) => 2,
            Refused::Area => 12,
            Refused::Load(LoadRefusal::WrongLength) => 26,
            Refused::Load(LoadRefusal::WrongVersion) => 27,
            Refused::Load(LoadRefusal::NoMachine) => 28,
            Refused::Load(LoadRefusal::WrongMachine) => 2,
            Refused::Arguments => 32,
            Refused::Files(refusal) => refusal.number(),
            Refused::Ended(number) => number,
        }
    }
}

const UNREAD: Refused = Refused::Files(night_steps::Refusal::Unread);

// The options of a call: which of its arguments is the value of each that is given.
#[derive(Clone, Copy)]
struct Options {
    area: Option<u8>,
    log: Option<u8>,
}

// The two numbers of a call, and its options.
#[derive(Clone, Copy)]
struct Terms {
    n: u32,
    r: u32,
    options: Options,
}

// A file's bytes are put at the buffer's front: how many they are.
fn read_file(rt: &impl Files, name: &[u8], buffer: &mut [u8]) -> Result<usize, Unread> {
    match host::open(rt, name) {
        Ok(mut file) => {
            let count = host::read_full(&mut file, buffer);
            match host::what_follows(&mut file) {
                Rest::Nothing => Ok(count),
                Rest::Something => Err(Unread::Longer),
                Rest::Failed => Err(Unread::Failed),
            }
        }
        Err(error) if host::is_absent(&error) => Err(Unread::Missing),
        Err(_) => Err(Unread::Failed),
    }
}

// A file of the night is read, by its number.
fn read_place(rt: &impl Files, i: u8, places: Places, buffer: &mut [u8]) -> Result<usize, Unread> {
    let mut name = io::buffer();
    let n = night_names::place_of(i, places.state, places.names, &mut name);
    read_file(rt, &name[..n], buffer)
}

// The same into a buffer that it must fill: this refusal, where its length is wrong.
fn fill(
    rt: &impl Files,
    i: u8,
    places: Places,
    buffer: &mut [u8],
    wrong: Refused,
) -> Result<(), Refused> {
    match read_place(rt, i, places, buffer) {
        Ok(count) if count == buffer.len() => Ok(()),
        Ok(_) | Err(Unread::Longer) => Err(wrong),
        Err(Unread::Missing) | Err(Unread::Failed) => Err(UNREAD),
    }
}

fn is_missing(rt: &impl Files, i: u8, places: Places) -> bool {
    let mut byte = [0u8; 1];
    matches!(read_place(rt, i, places, &mut byte), Err(Unread::Missing))
}

// The image (0) and the area (5) are read. Where the area and STATE (1) are both missing, the area stays zeros.
fn read_memories(
    rt: &impl Files,
    places: Places,
    image: &mut [u8],
    area: &mut [u8],
) -> Result<(), Refused> {
    fill(
        rt,
        0,
        places,
        image,
        Refused::Power(PowerRefusal::WrongImage),
    )?;
    if is_missing(rt, 5, places) & is_missing(rt, 1, places) {
        return Ok(());
    }
    fill(rt, 5, places, area, Refused::Area)
}

// The machine that the state file holds, or where there is none the machine that power-on gives.
fn read_machine(rt: &impl Files, state: &[u8], image: &[u8], r: u32) -> Result<Machine, Refused> {
    let mut bytes = [0u8; 43];
    match read_file(rt, state, &mut bytes) {
        Ok(n) => Ok(saved::load(cabinet::filled(&bytes, n))?),
        Err(Unread::Longer) => Err(Refused::Load(LoadRefusal::WrongLength)),
        Err(Unread::Missing) => Ok(cabinet::power_on(image, r)?),
        Err(Unread::Failed) => Err(UNREAD),
    }
}

// What an end of a call refuses, where it is no night's that was placed.
fn refusal_of(end: Op) -> Refused {
    match end {
        Op::Refused(number) | Op::Stopped(number) => Refused::Ended(number),
        _ => Refused::Files(night_steps::Refusal::Failed),
    }
}

// A night that did not run: STATE.night is removed.
fn give_up(rt: &impl Files, places: Places) {
    let none = Contents {
        image: b"",
        machine: b"",
        rest: b"",
        output: b"",
        area: b"",
        log: b"",
    };
    night_commit::finish(rt, false, places, none);
}

// A night that has run: its files, or STATE.night is removed. `contents` are yet without the machine's bytes.
fn keep(
    rt: &(impl Files + Print),
    places: Places,
    night: Night,
    contents: Contents,
) -> Result<(), Refused> {
    let line = night.line();
    if !night.has_stopped() {
        give_up(rt, places);
        line.print(rt);
        return Ok(());
    }
    let mut machine = [0u8; 42];
    let _ = saved::save(night.machine, &mut machine);
    let whole = Contents {
        machine: &machine,
        ..contents
    };
    match night_commit::finish(rt, true, places, whole) {
        Op::Placed => {
            line.print(rt);
            Ok(())
        }
        end => Err(refusal_of(end)),
    }
}

// A night from a machine, and its files. The log is lent whether it is asked for or not.
fn pass(
    rt: &(impl Files + Print),
    places: Places,
    image: &mut [u8],
    area: &mut [u8],
    session: &mut [u8],
    size: usize,
    terms: Terms,
    m: Machine,
) -> Result<(), Refused> {
    let mut spare = host::zeros::<1048576>();
    let mut output = io::large_buffer();
    let mut log = host::zeros::<1048576>();
    let watch = Watch {
        log: terms.options.log.is_some(),
        since: Cycles(0),
    };
    let night = night_slices::run_night(
        rt,
        image,
        area,
        m,
        session,
        size,
        terms.n,
        watch,
        &mut output,
        &mut log,
        &mut spare,
    );
    let contents = Contents {
        image: &image[..],
        machine: b"",
        rest: cabinet::filled(&session[..], night.length),
        output: cabinet::filled(&output, night.sent),
        area: &area[..],
        log: cabinet::filled(&log, night.logged),
    };
    keep(rt, places, night, contents)
}

// What a night starts from: its session's size, its memories, and the machine.
fn begin(
    rt: &impl Files,
    session_name: &[u8],
    places: Places,
    r: u32,
    session: &mut [u8],
    image: &mut [u8],
    area: &mut [u8],
) -> Result<(usize, Machine), Refused> {
    let Ok(size) = read_file(rt, session_name, session) else {
        return Err(UNREAD);
    };
    read_memories(rt, places, image, area)?;
    let m = read_machine(rt, places.state, &image[..], r)?;
    Ok((size, m))
}

// A night that has STATE.night to itself.
fn run(
    rt: &(impl Files + Print),
    session_name: &[u8],
    places: Places,
    terms: Terms,
) -> Result<(), Refused> {
    let mut session = host::zeros::<1048576>();
    let mut image = io::large_buffer();
    let mut area = [0u8; 128];
    let begun = begin(
        rt,
        session_name,
        places,
        terms.r,
        &mut session,
        &mut image,
        &mut area,
    );
    match begun {
        Ok((size, m)) => pass(
            rt,
            places,
            &mut image,
            &mut area,
            &mut session,
            size,
            terms,
            m,
        ),
        Err(refusal) => {
            give_up(rt, places);
            Err(refusal)
        }
    }
}

// A call whose names are allowed, but for folders.
fn call(
    rt: &(impl Files + Print),
    session_name: &[u8],
    places: Places,
    terms: Terms,
) -> Result<(), Refused> {
    if night_commit::has_folder(rt, places) {
        return Err(Refused::Arguments);
    }
    match night_commit::prepare(rt, places.state) {
        Op::Run => run(rt, session_name, places, terms),
        end => Err(refusal_of(end)),
    }
}

// The same with its log, where it has one.
fn call_logged(
    rt: &(impl Files + Env + Print),
    session_name: &[u8],
    places: Places,
    terms: Terms,
) -> Result<(), Refused> {
    let Some(log) = terms.options.log else {
        return call(rt, session_name, places, terms);
    };
    let mut log_name = io::buffer();
    let n = host::argument(rt, log as usize, &mut log_name);
    if !night_names::is_further(&log_name[..n], session_name, places.state, places.names) {
        return Err(Refused::Arguments);
    }
    let mut buffer = io::buffer();
    let m = night_names::with_name(places.names, &log_name[..n], &mut buffer);
    let names = &buffer[..m];
    call(rt, session_name, Places { names, ..places }, terms)
}

// The area's name: its argument, or STATE.area.
fn area_name(rt: &impl Env, area: Option<u8>, state_name: &[u8], buffer: &mut [u8]) -> usize
    ensures { IsPrefixLen result buffer.new }
{
    match area {
        Some(i) => host::argument(rt, i as usize, buffer),
        None => night_arguments::joined(state_name, b".area", buffer),
    }
}

// The same with its area.
fn call_with_area(
    rt: &(impl Files + Env + Print),
    session_name: &[u8],
    places: Places,
    terms: Terms,
) -> Result<(), Refused> {
    let mut name = io::buffer();
    let n = area_name(rt, terms.options.area, places.state, &mut name);
    if !night_names::is_area(&name[..n], session_name, places.state, places.names) {
        return Err(Refused::Arguments);
    }
    let mut buffer = io::buffer();
    let m = night_names::with_name(places.names, &name[..n], &mut buffer);
    let names = &buffer[..m];
    call_logged(rt, session_name, Places { names, ..places }, terms)
}

// A call on files of these names.
fn call_named(
    rt: &(impl Files + Env + Print),
    image_name: &[u8],
    session_name: &[u8],
    state: &[u8],
    output_name: &[u8],
    terms: Terms,
) -> Result<(), Refused> {
    if !night_names::are_names(image_name, session_name, state, output_name) {
        return Err(Refused::Arguments);
    }
    let mut buffer = io::buffer();
    let n = night_names::record_names(image_name, output_name, &mut buffer);
    let names = &buffer[..n];
    call_with_area(rt, session_name, Places { state, names }, terms)
}

// The number that an argument is.
fn number_at(rt: &impl Env, i: usize) -> Result<u32, Refused> {
    host::argument_as(rt, i, night_arguments::read_number).ok_or(Refused::Arguments)
}

// The call whose six names begin at this argument.
fn call_of(rt: &(impl Files + Env + Print), first: u8, options: Options) -> Result<(), Refused> {
    let at = first as usize;
    let terms = Terms {
        n: number_at(rt, at + 2)?,
        r: number_at(rt, at + 3)?,
        options,
    };
    let mut image = io::buffer();
    let a = host::argument(rt, at, &mut image);
    let mut session = io::buffer();
    let b = host::argument(rt, at + 1, &mut session);
    let mut state = io::buffer();
    let c = host::argument(rt, at + 4, &mut state);
    let mut output = io::buffer();
    let d = host::argument(rt, at + 5, &mut output);
    call_named(
        rt,
        &image[..a],
        &session[..b],
        &state[..c],
        &output[..d],
        terms,
    )
}

// What an argument is, as `read_call` takes it.
fn kind_at(rt: &impl Env, i: usize) -> u8 {
    let mut text = io::buffer();
    let n = host::argument(rt, i, &mut text);
    night_arguments::kind_of(&text[..n]).number()
}

// What the arguments are, the program's own name left out, as far as the buffer goes.
fn read_kinds(rt: &impl Env, kinds: &mut [u8]) -> usize
    ensures { result ≤ length kinds.new }
{
    for i in 0..kinds.len() {
        if !host::has_argument(rt, i + 1) {
            return i;
        }
        kinds[i] = kind_at(rt, i + 1);
    }
    kinds.len()
}

// The argument that is an option's value, where it is given.
fn given(value: u8) -> Option<u8> {
    if value == 0 { None } else { Some(value) }
}

fn answer(rt: &(impl Files + Env + Print)) -> Result<(), Refused> {
    let mut kinds = [0; 33];
    let n = read_kinds(rt, &mut kinds);
    let mut values = [0; 2];
    let first = night_arguments::read_call(&kinds[..n], &mut values);
    if first == 0 {
        return Err(Refused::Arguments);
    }
    let options = Options {
        area: given(values[0]),
        log: given(values[1]),
    };
    call_of(rt, first, options)
}

fn main(rt: HostRuntime) {
    if let Err(refusal) = answer(&rt) {
        lines::refuse(&rt, refusal.number());
    }
}
