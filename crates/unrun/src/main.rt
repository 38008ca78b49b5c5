// The unrun program: MAP FIRST LAST. It prints the first address of a range at which no instruction began, `none`, or one refusal.
#![tactic(auto)]

use std::env::Env;
use std::fs::Files;

fn search_file(rt: &(impl Files + Print), name: &[u8], first: u16, last: u16) {
    let Ok(mut opened) = host::open(rt, name) else {
        return lines::refuse(rt, 33);
    };
    // A map's file and a byte more, by which a longer file is known.
    let mut file = host::zeros::<8197>();
    let n = host::read_full(&mut opened, &mut file);
    if !host::is_read(&mut opened, n == 8197) {
        return lines::refuse(rt, 33);
    }
    unrun_lines::unrun_line(&file[..n], first, last).print(rt);
}

// The address that an argument is, in hexadecimal.
fn address_at(rt: &impl Env, i: usize) -> Option<u16> {
    let number = host::argument_as(rt, i, listing_arguments::hexadecimal)?;
    u16::try_from(number).ok()
}

fn main(rt: HostRuntime) {
    let mut name = io::buffer();
    let n = host::argument(&rt, 1, &mut name);
    let (Some(first), Some(last)) = (address_at(&rt, 2), address_at(&rt, 3)) else {
        return lines::refuse(&rt, 32);
    };
    if !host::has_argument(&rt, 3) || host::has_argument(&rt, 4) || n == 0 {
        return lines::refuse(&rt, 32);
    }
    search_file(&rt, &name[..n], first, last);
}
