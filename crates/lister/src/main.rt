// The lister program: IMAGE FIRST LAST. It prints the listing of a range of the image, or one refusal.
#![tactic(auto)]

use std::fs::Files;

// The listing of a file's bytes.
fn list(rt: &impl Print, image: &[u8], first: u32, last: u32) {
    // The longest listing has 25 characters a byte.
    let mut buffer = host::zeros::<1638400>();
    match listing::list(image, first, last, &mut buffer) {
        Ok(n) => {
            host::show(rt, asking::filled(&buffer, n));
        }
        Err(refusal) => lines::refuse(rt, refusal.number()),
    }
}

fn list_file(rt: &(impl Files + Print), name: &[u8], first: u32, last: u32) {
    let Ok(mut file) = host::open(rt, name) else {
        return lines::refuse(rt, 33);
    };
    // An image and a byte more, by which a longer file is known.
    let mut image = host::zeros::<65537>();
    let n = host::read_full(&mut file, &mut image);
    if !host::is_read(&mut file, n == 65537) {
        return lines::refuse(rt, 33);
    }
    list(rt, &image[..n], first, last);
}

fn main(rt: HostRuntime) {
    let mut name = io::buffer();
    let n = host::argument(&rt, 1, &mut name);
    let from = host::argument_as(&rt, 2, listing_arguments::hexadecimal);
    let to = host::argument_as(&rt, 3, listing_arguments::hexadecimal);
    let (Some(first), Some(last)) = (from, to) else {
        return lines::refuse(&rt, 32);
    };
    if !host::has_argument(&rt, 3) || host::has_argument(&rt, 4) || n == 0 {
        return lines::refuse(&rt, 32);
    }
    list_file(&rt, &name[..n], first, last);
}
