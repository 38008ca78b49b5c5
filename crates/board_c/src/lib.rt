// The exports of the C calls: power-on, the two runs, plain and watched, the question about one opcode, the rest of a session, a listing and its bytes,
// over numbers and lent bytes. Each is crate board's function of the same name, with the same contract.
// board/pliruzza.h declares them and says what each number and each byte means.
#![tactic(auto)]

ghost use Rattle.std.specs.Prelude.{◌≡◌, true, false};
ghost use Rattle.boundary.specs.World.{lent, lending, terms};
ghost use Rattle.board_results.specs.Returned.{returned};
ghost use Rattle.board_calls.specs.Calls.{wrote, power_call, ask_call, rest_call};
ghost use Rattle.board_listing.specs.Calls.{list_call, assemble_call};
ghost use Rattle.board.specs.Board.{buffers, called, single_call, leaping_call, watch_call};

// Power-on into a saved machine.
#[unsafe(no_mangle)]
pub extern "C" fn pliruzza_power_on(image: &[u8], r: u32, machine: &mut [u8]) -> u32
    ensures { wrote result machine.new ≡ power_call image.now r machine.old }
{
    board::pliruzza_power_on(image, r, machine)
}

// The question about one opcode, answered by six numbers.
#[unsafe(no_mangle)]
pub extern "C" fn pliruzza_ask(opcode: u8, answer: &mut [u8]) -> u32
    ensures { wrote result answer.new ≡ ask_call opcode answer.old }
{
    board::pliruzza_ask(opcode, answer)
}

// The rest of a session, of which so many records were used in so many cycles.
#[unsafe(no_mangle)]
pub extern "C" fn pliruzza_rest(
    session: &[u8],
    used: usize,
    cycles: u32,
    buffer: &mut [u8],
    res: &mut [u8],
) -> u32
    ensures { returned result buffer.new res.new
        ≡ rest_call session.now used cycles buffer.old res.old }
{
    board::pliruzza_rest(session, used, cycles, buffer, res)
}

// The listing of first to last, both included.
#[unsafe(no_mangle)]
pub extern "C" fn pliruzza_list(
    image: &[u8],
    first: u32,
    last: u32,
    buffer: &mut [u8],
    res: &mut [u8],
) -> u32
    ensures { returned result buffer.new res.new
        ≡ list_call image.now first last buffer.old res.old }
{
    board::pliruzza_list(image, first, last, buffer, res)
}

// The bytes of a listing's text.
#[unsafe(no_mangle)]
pub extern "C" fn pliruzza_assemble(text: &[u8], buffer: &mut [u8], res: &mut [u8]) -> u32
    ensures { returned result buffer.new res.new
        ≡ assemble_call text.now buffer.old res.old }
{
    board::pliruzza_assemble(text, buffer, res)
}

// The single run.
#[unsafe(no_mangle)]
pub extern "C" fn pliruzza_run_single(
    image: &mut [u8],
    area: &mut [u8],
    machine: &mut [u8],
    session: &[u8],
    n: u32,
    output: &mut [u8],
    res: &mut [u8],
) -> u32
    ensures { called result (buffers machine.new (lent image.new area.new output.new) res.new)
        ≡ single_call (terms session.now n)
        (buffers machine.old (lent image.old area.old output.old) res.old) }
{
    board::pliruzza_run_single(image, area, machine, session, n, output, res)
}

// The leaping run.
#[unsafe(no_mangle)]
pub extern "C" fn pliruzza_run_leaping(
    image: &mut [u8],
    area: &mut [u8],
    machine: &mut [u8],
    session: &[u8],
    n: u32,
    output: &mut [u8],
    res: &mut [u8],
) -> u32
    ensures { called result (buffers machine.new (lent image.new area.new output.new) res.new)
        ≡ leaping_call (terms session.now n)
        (buffers machine.old (lent image.old area.old output.old) res.old) }
{
    board::pliruzza_run_leaping(image, area, machine, session, n, output, res)
}

// The single run, watched.
#[unsafe(no_mangle)]
pub extern "C" fn pliruzza_watch_single(
    image: &mut [u8],
    area: &mut [u8],
    machine: &mut [u8],
    session: &[u8],
    n: u32,
    watch: u32,
    since: u32,
    output: &mut [u8],
    log: &mut [u8],
    res: &mut [u8],
) -> u32
    ensures { called result
        (buffers machine.new (lending image.new area.new output.new log.new) res.new)
        ≡ watch_call false session.now n watch since
        (buffers machine.old (lending image.old area.old output.old log.old) res.old) }
{
    board::pliruzza_watch_single(
        image, area, machine, session, n, watch, since, output, log, res,
    )
}

// The leaping run, watched.
#[unsafe(no_mangle)]
pub extern "C" fn pliruzza_watch_leaping(
    image: &mut [u8],
    area: &mut [u8],
    machine: &mut [u8],
    session: &[u8],
    n: u32,
    watch: u32,
    since: u32,
    output: &mut [u8],
    log: &mut [u8],
    res: &mut [u8],
) -> u32
    ensures { called result
        (buffers machine.new (lending image.new area.new output.new log.new) res.new)
        ≡ watch_call true session.now n watch since
        (buffers machine.old (lending image.old area.old output.old log.old) res.old) }
{
    board::pliruzza_watch_leaping(
        image, area, machine, session, n, watch, since, output, log, res,
    )
}
