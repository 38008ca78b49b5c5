// A number in hexadecimal, as the argument of a program.
#![tactic(auto)]

ghost use Rattle.std.specs.Prelude.{◌≡◌};
ghost use Rattle.listing_arguments.specs.Hexadecimal.{hex_of};

// The number that a text is, in hexadecimal.
#[tactic(auto, using(crate::proofs::Laws::same_hex))]
pub fn hexadecimal(text: &[u8]) -> Option<u32>
    ensures { result ≡ hex_of text.now }
{
    digits::number(16, text)
}
