// The recovery on prepared folders, one for each case, in data/: STATE.done with all, some and none of its files, with other names, without names, with
// one name; STATE.night standing; a call that has an earlier night's names. Then a whole night, one that did not run, two that fail; recoveries of nights
// with further files, the area and the log, and such nights. The old files hold `old` and the new ones `new`; those that a night makes here each hold a
// word of their own. Last the names that a call may have.
#![tactic(auto)]

use night_commit::{Contents, Places};
use night_steps::Op;
use printing::Line;
use std::fs::Files;
use std::io::Result;

// A folder in a case's; git keeps no empty ones.
fn make_in(rt: &impl Files, case: &[u8], name: &[u8]) {
    let _ = night_names::with_joined(case, name, |path| host::make_folder(rt, path));
}

// An empty file in a case's folder.
fn create_in(rt: &impl Files, case: &[u8], name: &[u8]) {
    let _ = night_names::with_joined(case, name, |path| host::create(rt, path));
}

fn open_in<R: Files>(rt: &R, case: &[u8], name: &[u8]) -> Result<R::File> {
    night_names::with_joined(case, name, |path| host::open(rt, path))
}

// What a file of a case holds, - where it is absent.
fn show(rt: &(impl Files + Print), case: &[u8], name: &[u8]) {
    let Ok(mut file) = open_in(rt, case, name) else {
        Line::empty().text(b" -").print(rt);
        return;
    };
    let mut word = [0u8; 64];
    let count = host::read_full(&mut file, &mut word);
    Line::empty().text(b" ").text(&word[..count]).print(rt);
}

// The word, where the folder stands.
fn show_folder(rt: &(impl Files + Print), case: &[u8], name: &[u8], word: &[u8]) {
    if open_in(rt, case, name).is_err() {
        return;
    }
    Line::empty().text(word).print(rt);
}

fn show_refusal(rt: &impl Print, word: &[u8], number: u8) {
    Line::empty().text(word).decimal(number as u64).print(rt);
}

fn show_end(rt: &impl Print, op: Op) {
    match op {
        Op::Run => Line::empty().text(b": to run:").print(rt),
        Op::Placed => Line::empty().text(b": placed:").print(rt),
        Op::Refused(k) => show_refusal(rt, b": refused ", k),
        Op::Stopped(k) => show_refusal(rt, b": stopped ", k),
        _ => Line::empty().text(b": no end").print(rt),
    }
}

fn show_places(rt: &(impl Files + Print), case: &[u8]) {
    show(rt, case, b"/image");
    show(rt, case, b"/state");
    show(rt, case, b"/state.rest");
    show(rt, case, b"/output");
    show(rt, case, b"/state.names");
}

// A case's end, its places, and the folders that stand.
fn show_case(rt: &(impl Files + Print), case: &[u8], op: Op) {
    Line::empty().text(case).print(rt);
    show_end(rt, op);
    show_places(rt, case);
    show_folder(rt, case, b"/state.night", b" night");
    show_folder(rt, case, b"/state.done", b" done");
    Line::empty().text(b"\n").print(rt);
}

// The start of a call.
fn call(rt: &(impl Files + Print), case: &[u8]) {
    let mut state = io::buffer();
    let n = night_arguments::joined(case, b"/state", &mut state);
    show_case(rt, case, night_commit::prepare(rt, &state[..n]));
}

// The end of a call whose night has run, or has not.
fn end_with(rt: &(impl Files + Print), case: &[u8], ran: bool, names: &[u8]) {
    let mut state = io::buffer();
    let n = night_arguments::joined(case, b"/state", &mut state);
    let contents = Contents {
        image: b"image",
        machine: b"machine",
        rest: b"rest",
        output: b"output",
        area: b"area",
        log: b"log",
    };
    let places = Places {
        state: &state[..n],
        names,
    };
    let end = night_commit::finish(rt, ran, places, contents);
    show_case(rt, case, end);
}

fn end(rt: &(impl Files + Print), case: &[u8], ran: bool) {
    end_with(rt, case, ran, b"image/output/state.area");
}

fn recoveries(rt: &(impl Files + Print)) {
    make_in(rt, b"none", b"/state.done");
    call(rt, b"all");
    call(rt, b"some");
    call(rt, b"none");
    call(rt, b"other");
    show(rt, b"other", b"/rom");
    Line::empty().text(b" is rom\n").print(rt);
    call(rt, b"nameless");
    call(rt, b"misnamed");
}

// A call found STATE.done of another night, with other names, and puts files in place only now.
fn stale(rt: &(impl Files + Print)) {
    let places = Places {
        state: b"stale/state",
        names: b"image/output",
    };
    let op = night_commit::carry(rt, Op::SyncCommit, false, places);
    show_case(rt, b"stale", op);
    call(rt, b"stale");
    show(rt, b"stale", b"/rom");
    show(rt, b"stale", b"/sent");
    Line::empty().text(b" are rom and sent\n").print(rt);
}

fn refusals(rt: &(impl Files + Print)) {
    make_in(rt, b"night", b"/state.night");
    make_in(rt, b"both", b"/state.night");
    call(rt, b"night");
    call(rt, b"both");
    call(rt, b"nowhere");
}

fn nights(rt: &(impl Files + Print)) {
    call(rt, b"whole");
    end(rt, b"whole", true);
    show_further(rt, b"whole");
    call(rt, b"refused");
    end(rt, b"refused", false);
    call(rt, b"unmade");
    make_in(rt, b"unmade", b"/state.night/output");
    end(rt, b"unmade", true);
    call(rt, b"cleaned");
    create_in(rt, b"cleaned", b"/state.night/output");
    end(rt, b"cleaned", true);
}

fn show_further(rt: &(impl Files + Print), case: &[u8]) {
    show(rt, case, b"/state.area");
    show(rt, case, b"/log");
    Line::empty().text(b" are area and log\n").print(rt);
}

fn call_further(rt: &(impl Files + Print), case: &[u8]) {
    call(rt, case);
    show_further(rt, case);
}

fn end_further(rt: &(impl Files + Print), case: &[u8], names: &[u8]) {
    end_with(rt, case, true, names);
    show_further(rt, case);
}

// Nights from before there was an area: the log is still in STATE.done, with the others or alone; it is there already; its name is empty.
fn earlier(rt: &(impl Files + Print)) {
    call_further(rt, b"logged");
    call_further(rt, b"partly");
    call_further(rt, b"logless");
    call_further(rt, b"gap");
}

// The area is still in STATE.done, with the others or with the log. Then a night without a log, one with it, and one with a file too many.
fn areas(rt: &(impl Files + Print)) {
    call_further(rt, b"area");
    call_further(rt, b"pair");
    call(rt, b"kept");
    end_further(rt, b"kept", b"image/output/state.area");
    call(rt, b"kept");
    end_further(rt, b"kept", b"image/output/state.area/log");
    call(rt, b"kept");
    end_further(rt, b"kept", b"image/output/state.area/log/more");
}

// One of two words, by a test.
fn show_which(rt: &impl Print, word: &[u8], holds: bool, yes: &[u8], no: &[u8]) {
    let answer = if holds { yes } else { no };
    Line::empty().text(word).print(rt);
    Line::empty().text(answer).print(rt);
}

// Whether a place is a folder.
fn show_any(rt: &(impl Files + Print), word: &[u8], state: &[u8], names: &[u8]) {
    show_which(
        rt,
        word,
        night_commit::has_folder(rt, Places { state, names }),
        b": a folder\n",
        b": no folder\n",
    );
}

fn places(rt: &(impl Files + Print)) {
    let _ = host::make_folder(rt, b"sent");
    let _ = host::make_folder(rt, b"state.rest");
    show_any(rt, b"files", b"all/state", b"image/output");
    show_any(rt, b"nothing", b"machine", b"image/output");
    show_any(rt, b"sent", b"machine", b"image/sent");
    show_any(rt, b"state.rest", b"state", b"image/output");
    show_any(rt, b"a further one", b"machine", b"image/output/log/sent");
}

// Whether a call may have these names.
fn show_names(
    rt: &impl Print,
    word: &[u8],
    image: &[u8],
    session: &[u8],
    state: &[u8],
    output: &[u8],
) {
    show_which(
        rt,
        word,
        night_names::are_names(image, session, state, output),
        b": names\n",
        b": no names\n",
    );
}

// One name for a file and another text for each of the others.
fn show_image(rt: &impl Print, word: &[u8], image: &[u8]) {
    show_names(rt, word, image, b"s", b"m", b"o");
}

fn show_session(rt: &impl Print, word: &[u8], session: &[u8]) {
    show_names(rt, word, b"i", session, b"m", b"o");
}

fn show_output(rt: &impl Print, word: &[u8], output: &[u8]) {
    show_names(rt, word, b"i", b"s", b"m", output);
}

fn images(rt: &impl Print) {
    show_image(rt, b"image", b"i");
    show_image(rt, b"no image", b"");
    show_image(rt, b"image elsewhere", b"e/i");
    show_image(rt, b"image is state", b"m");
    show_image(rt, b"image is output", b"o");
    show_image(rt, b"image is names", b"m.names");
    show_image(rt, b"image is area", b"m.area");
}

fn sessions(rt: &impl Print) {
    show_session(rt, b"going on", b"m.rest");
    show_session(rt, b"no session", b"");
    show_session(rt, b"session is image", b"i");
    show_session(rt, b"session is state", b"m");
    show_session(rt, b"session is output", b"o");
    show_session(rt, b"session is names", b"m.names");
    show_session(rt, b"session is area", b"m.area");
}

fn outputs(rt: &impl Print) {
    show_output(rt, b"no output", b"");
    show_output(rt, b"output elsewhere", b"./o");
    show_output(rt, b"output is rest", b"m.rest");
    show_output(rt, b"output is area", b"m.area");
    show_output(rt, b"output is night", b"m.night");
    show_output(rt, b"output is done", b"m.done");
}

fn folders(rt: &impl Print) {
    show_names(rt, b"one folder", b"d/i", b"s", b"d/m", b"d/o");
    show_names(rt, b"a folder's name", b"d/i", b"s", b"d/m", b"d/");
    show_names(rt, b"no state", b"i", b"s", b"", b"o");
}

// Whether a night on this state may have this area.
fn show_area_of(rt: &impl Print, word: &[u8], file: &[u8], state: &[u8]) {
    show_which(
        rt,
        word,
        night_names::is_area(file, b"s", state, b"i/o"),
        b": an area\n",
        b": none\n",
    );
}

fn show_area(rt: &impl Print, word: &[u8], file: &[u8]) {
    show_area_of(rt, word, file, b"m");
}

fn area_names(rt: &impl Print) {
    show_area(rt, b"area", b"a");
    show_area(rt, b"area of state", b"m.area");
    show_area(rt, b"no area", b"");
    show_area(rt, b"area elsewhere", b"./m.area");
    show_area(rt, b"area is image", b"i");
    show_area(rt, b"area is session", b"s");
    show_area(rt, b"area is output", b"o");
}

fn areas_of_state(rt: &impl Print) {
    show_area(rt, b"area is state", b"m");
    show_area(rt, b"area is rest", b"m.rest");
    show_area(rt, b"area is names", b"m.names");
    show_area(rt, b"area is night", b"m.night");
    show_area(rt, b"area is done", b"m.done");
}

// A last part of 249 bytes, and one of 250: as long as it may be, and longer. Its area's is longer still.
fn long_parts(rt: &impl Print) {
    let part = [97u8; 250];
    show_image(rt, b"part of 249", &part[..249]);
    show_image(rt, b"part of 250", &part);
    show_area(rt, b"area of 250", &part);
    let mut area = io::buffer();
    let n = night_arguments::joined(&part[..249], b".area", &mut area);
    show_area_of(rt, b"area of a state of 249", &area[..n], &part[..249]);
}

// Whether a night may have this log.
fn show_log(rt: &impl Print, word: &[u8], file: &[u8]) {
    show_which(
        rt,
        word,
        night_names::is_further(file, b"s", b"m", b"i/o/f"),
        b": a further one\n",
        b": none\n",
    );
}

fn logs(rt: &impl Print) {
    show_log(rt, b"log", b"l");
    show_log(rt, b"log is image", b"i");
    show_log(rt, b"log is output", b"o");
    show_log(rt, b"log is a further one", b"f");
    show_log(rt, b"log is session", b"s");
    show_log(rt, b"log is area", b"m.area");
    show_log(rt, b"log is done", b"m.done");
}

fn texts(rt: &impl Print) {
    images(rt);
    sessions(rt);
    outputs(rt);
    folders(rt);
    area_names(rt);
    areas_of_state(rt);
    long_parts(rt);
    logs(rt);
}

fn main(rt: HostRuntime) {
    recoveries(&rt);
    stale(&rt);
    refusals(&rt);
    nights(&rt);
    earlier(&rt);
    areas(&rt);
    places(&rt);
    texts(&rt);
}
