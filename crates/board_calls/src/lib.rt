// The C calls that run nothing: power-on, the question about one opcode and the rest of a session, over numbers and lent bytes.
// Crate board exports them; board/pliruzza.h says what each number and each byte means.
#![tactic(auto)]

ghost use Rattle.std.specs.Prelude.{◌≡◌};
ghost use Rattle.board_results.specs.Returned.{returned};
ghost use Rattle.board_calls.specs.Calls.{wrote, power_call, ask_call, rest_call};

use counts::{Cycles, Records};
use machine::PowerRefusal;
use replies::Reply;
use rest::RestRefusal;

// Power-on into a saved machine.
pub fn power_on(image: &[u8], r: u32, machine: &mut [u8]) -> u32
    ensures { wrote result machine.new ≡ power_call image.now r machine.old }
{
    if machine.len() != 42 {
        return 26;
    }
    match power::power_on(image, r) {
        Ok(m) => {
            let _ = saved::save(m, machine);
            0
        }
        Err(PowerRefusal::WrongImage) => 1,
        Err(PowerRefusal::WrongStart) => 2,
    }
}

// The question about one opcode, answered by six numbers.
pub fn ask(opcode: u8, answer: &mut [u8]) -> u32
    ensures { wrote result answer.new ≡ ask_call opcode answer.old }
{
    if answer.len() < 6 {
        return 29;
    }
    match asking::ask(opcode) {
        None => 8,
        Some(i) => {
            let six = board_numbers::instruction_bytes(i);
            numbers::copy(&six, answer);
            0
        }
    }
}

// The rest of a session, of which so many records were used in so many cycles.
pub fn rest(session: &[u8], used: Records, cycles: Cycles, buffer: &mut [u8], res: &mut [u8]) -> u32
    ensures { returned result buffer.new res.new
        ≡ rest_call session.now used.0 cycles.0 buffer.old res.old }
{
    if res.len() < 8 {
        return 29;
    }
    match rest::rest(session, used, cycles, buffer) {
        Ok(length) => board_results::tell(0, length, res),
        Err(RestRefusal::Bad(fault)) => {
            let refusal = Reply::from(fault);
            board_results::tell(refusal.number() as u32, refusal.record(), res)
        }
        Err(RestRefusal::TooFew) => 30,
        Err(RestRefusal::NoRoom) => 31,
    }
}
