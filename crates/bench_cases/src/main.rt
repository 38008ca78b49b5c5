// The bench program's line for each of many inputs, which stand one after the other, each after its length in two bytes.
#![tactic(auto)]

ghost use Rattle.std.specs.Prelude.{◌<◌, length, IfSome};

// The first input's line is shown, where all of it is there; what follows it is left.
fn show_first<'a>(rt: &impl Print, cases: &'a [u8]) -> Option<&'a [u8]>
    ensures { IfSome result (λ left. length left.now < length cases.now) }
{
    let (size, rest) = cases.split_first_chunk::<2>()?;
    let (input, left) = rest.split_at_checked(u16::from_le_bytes(*size) as usize)?;
    bench_answer::answer(input).print(rt);
    Some(left)
}

fn show_all(rt: &impl Print, cases: &[u8]) {
    let mut left = cases;
    while let Some(rest) = show_first(rt, left) {
        left = rest;
    }
}

fn main(rt: HostRuntime) {
    let mut cases = io::large_buffer();
    let n = host::read_full(&mut rt.stdin(), &mut cases);
    show_all(&rt, &cases[..n]);
}
