// The bench program's answer to an input: one line, from the leaping run.
#![tactic(auto)]

ghost use Rattle.std.specs.Prelude.{◌≡◌, Err};
ghost use Rattle.asking.specs.Asking.{replies};
ghost use Rattle.power.specs.Power.{told_power, power_answer};
ghost use Rattle.cabinet.specs.Answers.{answered};
ghost use Rattle.printing.specs.Printing.{empty_line, puts_of};
ghost use Rattle.bench_answer.specs.Answer.{nothing, stop_text, text_of, powered_text, line_of, bad_line};

use bench_input::Run;
use cabinet::Ran;
use machine::PowerRefusal;
use printing::Line;

fn stopped(ran: Ran) -> Line
    ensures { result ≡ puts_of empty_line (stop_text (answered ran nothing)) }
{
    let reply = ran.reply;
    let stop = lines::numbered(Line::empty(), b"stop ", reply.number() as u64);
    let numbers = lines::run_numbers(ran.counts);
    lines::registers(lines::counts(stop, numbers), ran.machine.chip.registers)
}

// What a run comes to.
fn report(ran: Ran) -> Line
    ensures { result ≡ puts_of empty_line (text_of (answered ran nothing)) }
{
    let reply = ran.reply;
    if reply.is_stop() {
        return stopped(ran);
    }
    lines::refusal_line(reply)
}

// The number of the reply that refuses power-on.
fn power_number(refusal: PowerRefusal) -> u8
    ensures { told_power (Err refusal) ≡ replies result }
{
    match refusal {
        PowerRefusal::WrongImage => 1,
        PowerRefusal::WrongStart => 2,
    }
}

// Power-on and the leaping run of what was loaded.
fn powered(session: &[u8], n: u32, r: u32, image: &mut [u8]) -> Line
    ensures { result ≡ puts_of empty_line (powered_text image.old session.now n (power_answer image.old r)) }
{
    match cabinet::power_on(&image[..], r) {
        Err(refusal) => lines::refused(power_number(refusal)),
        Ok(m) => {
            let mut area = [0u8; 128];
            let mut output = [0u8; 256];
            let leapt = cabinet::run_leaping(image, &mut area, m, session, n, &mut output);
            report(leapt.ran)
        }
    }
}

// The line for a bad input.
pub fn bad_line() -> Line
    ensures { result ≡ puts_of empty_line bad_line }
{
    lines::refused(10).text(b"\n")
}

// An input's line.
pub fn answer(input: &[u8]) -> Line
    ensures { result ≡ puts_of empty_line (line_of input.now) }
{
    let mut image = host::zeros::<65536>();
    match bench_input::load(input, &mut image) {
        Some(Run { n, r, session }) => powered(&input[session..], n, r, &mut image).text(b"\n"),
        None => bad_line(),
    }
}
