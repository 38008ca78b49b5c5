// 01's bench program: an input on standard input, its line on standard output. One byte past the limit is read, so that a
// longer input is known as one; one that cannot be read to its end is a bad one.
#![tactic(auto)]

use host::Rest;
use std::io::Read;

// Whether the input has ended: one more read gives nothing, and does not fail.
fn has_ended(source: &mut impl Read) -> bool {
    matches!(host::what_follows(source), Rest::Nothing)
}

fn main(rt: HostRuntime) {
    let mut source = rt.stdin();
    let mut input = [0u8; 16385];
    let n = host::read_full(&mut source, &mut input);
    if has_ended(&mut source) {
        bench_answer::answer(&input[..n]).print(&rt);
    } else {
        bench_answer::bad_line().print(&rt);
    }
}
