// What the programs of cases share: code put into an image.
#![tactic(auto)]

ghost use Rattle.std.specs.Prelude.{◌≡◌, ◌+◌, ◌++◌, cond, ltb, length, take, drop};
ghost use Rattle.numbers.specs.Numbers.{over};

// Bytes from a place of an image on, where they have room there.
pub fn install(image: &mut [u8], at: usize, code: &[u8])
    ensures { image.new ≡ cond (ltb (length image.old) (at + length code.now)) image.old (take at image.old ++ over code.now (drop at image.old)) }
{
    if at <= image.len() && code.len() <= image.len() - at {
        numbers::copy(code, &mut image[at..]);
    }
}
