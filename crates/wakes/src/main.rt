// The wakes program: LOG. It prints a line for each row of a wake log, or one refusal.
#![tactic(auto)]

ghost use Rattle.std.specs.Prelude.{◌<◌, ◌^◌};

use host::Rest;
use std::fs::Files;

// Why a file's rows are not printed: it cannot be read, or is no log.
#[derive(Clone, Copy)]
enum Refusal {
    Unread,
    NoLog,
}

impl Refusal {
    fn number(self) -> u8 {
        match self {
            Refusal::Unread => 33,
            Refusal::NoLog => 37,
        }
    }
}

// How many rows an open file has of which so many bytes were read.
fn rows_of(follows: Rest, count: usize) -> Result<u32, Refusal>
    requires { count < 2 ^ 32 }
{
    match follows {
        Rest::Failed => Err(Refusal::Unread),
        Rest::Nothing if count % 8 == 0 => Ok((count / 8) as u32),
        Rest::Nothing | Rest::Something => Err(Refusal::NoLog),
    }
}

// The whole log is tested before its first line is printed.
fn tell(rt: &impl Print, log: &[u8], rows: u32) {
    if let Some(bad) = wakes_lines::first_bad(log, rows) {
        wakes_lines::bad_row_line(bad).print(rt);
        return;
    }
    for k in 0..rows {
        wakes_lines::wake_line(wake_log::read_row(log, k)).print(rt);
    }
}

fn tell_file(rt: &(impl Files + Print), name: &[u8]) -> Result<(), Refusal> {
    let Ok(mut file) = host::open(rt, name) else {
        return Err(Refusal::Unread);
    };
    let mut log = host::zeros::<1048576>();
    let count = host::read_full(&mut file, &mut log);
    let rows = rows_of(host::what_follows(&mut file), count)?;
    tell(rt, &log, rows);
    Ok(())
}

fn main(rt: HostRuntime) {
    if !host::has_argument(&rt, 1) | host::has_argument(&rt, 2) {
        lines::refuse(&rt, 32);
        return;
    }
    let mut name = io::buffer();
    let n = host::argument(&rt, 1, &mut name);
    if n == 0 {
        lines::refuse(&rt, 32);
        return;
    }
    if let Err(refusal) = tell_file(&rt, &name[..n]) {
        lines::refuse(&rt, refusal.number());
    }
}
