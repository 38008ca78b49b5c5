// The C calls: power-on, the two runs, plain and watched, the question about one opcode, the rest of a session, a listing and its bytes, over numbers and
// lent bytes.
// Crate board_c exports them under these names; board/pliruzza.h declares them and says what each number and each byte means.
#![tactic(auto)]

ghost use Rattle.std.specs.Prelude.{◌≡◌, true, false};
ghost use Rattle.boundary.specs.World.{lent, lending, terms, watching};
ghost use Rattle.board_results.specs.Returned.{returned};
ghost use Rattle.board_calls.specs.Calls.{wrote, power_call, ask_call, rest_call};
ghost use Rattle.board_listing.specs.Calls.{list_call, assemble_call};
ghost use Rattle.board.specs.Board.{buffers, called, run_call, single_call, leaping_call, watch_call};

use boundary::Watch;
use counts::{Cycles, Records};
use saved::LoadRefusal;

// Power-on into a saved machine.
pub fn pliruzza_power_on(image: &[u8], r: u32, machine: &mut [u8]) -> u32
    ensures { wrote result machine.new ≡ power_call image.now r machine.old }
{
    board_calls::power_on(image, r, machine)
}

// The question about one opcode, answered by six numbers.
pub fn pliruzza_ask(opcode: u8, answer: &mut [u8]) -> u32
    ensures { wrote result answer.new ≡ ask_call opcode answer.old }
{
    board_calls::ask(opcode, answer)
}

// The rest of a session, of which so many records were used in so many cycles.
pub fn pliruzza_rest(
    session: &[u8],
    used: usize,
    cycles: u32,
    buffer: &mut [u8],
    res: &mut [u8],
) -> u32
    ensures { returned result buffer.new res.new
        ≡ rest_call session.now used cycles buffer.old res.old }
{
    board_calls::rest(session, Records(used), Cycles(cycles), buffer, res)
}

// The listing of first to last, both included.
pub fn pliruzza_list(image: &[u8], first: u32, last: u32, buffer: &mut [u8], res: &mut [u8]) -> u32
    ensures { returned result buffer.new res.new
        ≡ list_call image.now first last buffer.old res.old }
{
    board_listing::list(image, first, last, buffer, res)
}

// The bytes of a listing's text.
pub fn pliruzza_assemble(text: &[u8], buffer: &mut [u8], res: &mut [u8]) -> u32
    ensures { returned result buffer.new res.new
        ≡ assemble_call text.now buffer.old res.old }
{
    board_listing::assemble(text, buffer, res)
}

// Either run of a saved machine, which is saved again where it was. What it is lent comes apart, as the calls of board/pliruzza.h have it.
fn run_call(
    leaping: bool,
    image: &mut [u8],
    area: &mut [u8],
    machine: &mut [u8],
    session: &[u8],
    n: u32,
    watch: Watch,
    output: &mut [u8],
    log: &mut [u8],
    res: &mut [u8],
) -> u32
    ensures { called result
        (buffers machine.new (lending image.new area.new output.new log.new) res.new)
        ≡ run_call leaping (watching session.now n watch)
        (buffers machine.old (lending image.old area.old output.old log.old) res.old) }
{
    let size = board_results::record_size(leaping);
    if res.len() < size {
        return 29;
    }
    match saved::load(machine) {
        Ok(m) => {
            let e = cabinet::watch_either(leaping, image, area, m, session, n, watch, output, log);
            let ran = e.ran;
            let _ = saved::save(ran.machine, machine);
            board_results::report(leaping, ran.reply, ran.counts, e.leaps, res)
        }
        Err(LoadRefusal::WrongLength) => 26,
        Err(LoadRefusal::WrongVersion) => 27,
        Err(LoadRefusal::NoMachine) => 28,
        Err(LoadRefusal::WrongMachine) => {
            let number = board_results::unfit(image, area);
            board_results::refuse(leaping, number, res);
            number
        }
    }
}

// Either run with nothing watched.
fn plain_call(
    leaping: bool,
    image: &mut [u8],
    area: &mut [u8],
    machine: &mut [u8],
    session: &[u8],
    n: u32,
    output: &mut [u8],
    res: &mut [u8],
) -> u32
    ensures { called result (buffers machine.new (lent image.new area.new output.new) res.new)
        ≡ run_call leaping (terms session.now n)
        (buffers machine.old (lent image.old area.old output.old) res.old) }
{
    let mut none = [0u8; 1];
    run_call(
        leaping,
        image,
        area,
        machine,
        session,
        n,
        Watch::nothing(),
        output,
        &mut none[..0],
        res,
    )
}

// Either run, watched as the bits ask.
fn watch_call(
    leaping: bool,
    image: &mut [u8],
    area: &mut [u8],
    machine: &mut [u8],
    session: &[u8],
    n: u32,
    bits: u32,
    since: u32,
    output: &mut [u8],
    log: &mut [u8],
    res: &mut [u8],
) -> u32
    ensures { called result
        (buffers machine.new (lending image.new area.new output.new log.new) res.new)
        ≡ watch_call leaping session.now n bits since
        (buffers machine.old (lending image.old area.old output.old log.old) res.old) }
{
    if board_numbers::unknown_bits(bits) {
        return 36;
    }
    let watch = Watch {
        log: board_numbers::asks_log(bits),
        since: Cycles(since),
    };
    run_call(
        leaping, image, area, machine, session, n, watch, output, log, res,
    )
}

// The single run.
pub fn pliruzza_run_single(
    image: &mut [u8],
    area: &mut [u8],
    machine: &mut [u8],
    session: &[u8],
    n: u32,
    output: &mut [u8],
    res: &mut [u8],
) -> u32
    ensures { called result (buffers machine.new (lent image.new area.new output.new) res.new)
        ≡ single_call (terms session.now n)
        (buffers machine.old (lent image.old area.old output.old) res.old) }
{
    plain_call(false, image, area, machine, session, n, output, res)
}

// The leaping run.
pub fn pliruzza_run_leaping(
    image: &mut [u8],
    area: &mut [u8],
    machine: &mut [u8],
    session: &[u8],
    n: u32,
    output: &mut [u8],
    res: &mut [u8],
) -> u32
    ensures { called result (buffers machine.new (lent image.new area.new output.new) res.new)
        ≡ leaping_call (terms session.now n)
        (buffers machine.old (lent image.old area.old output.old) res.old) }
{
    plain_call(true, image, area, machine, session, n, output, res)
}

// The single run, watched.
pub fn pliruzza_watch_single(
    image: &mut [u8],
    area: &mut [u8],
    machine: &mut [u8],
    session: &[u8],
    n: u32,
    watch: u32,
    since: u32,
    output: &mut [u8],
    log: &mut [u8],
    res: &mut [u8],
) -> u32
    ensures { called result
        (buffers machine.new (lending image.new area.new output.new log.new) res.new)
        ≡ watch_call false session.now n watch since
        (buffers machine.old (lending image.old area.old output.old log.old) res.old) }
{
    watch_call(
        false, image, area, machine, session, n, watch, since, output, log, res,
    )
}

// The leaping run, watched.
pub fn pliruzza_watch_leaping(
    image: &mut [u8],
    area: &mut [u8],
    machine: &mut [u8],
    session: &[u8],
    n: u32,
    watch: u32,
    since: u32,
    output: &mut [u8],
    log: &mut [u8],
    res: &mut [u8],
) -> u32
    ensures { called result
        (buffers machine.new (lending image.new area.new output.new log.new) res.new)
        ≡ watch_call true session.now n watch since
        (buffers machine.old (lending image.old area.old output.old log.old) res.old) }
{
    watch_call(
        true, image, area, machine, session, n, watch, since, output, log, res,
    )
}
