// Hexadecimal digits as characters.
#![tactic(auto)]

ghost use Rattle.std.specs.Prelude.{◌≡◌, ◌<◌};
ghost use Rattle.characters.specs.Characters.{digit_of};

// The sign of a digit below 16.
pub fn digit(d: u8) -> u8
    requires { d < 16 }
    ensures { result ≡ digit_of d }
{
    if d < 10 { 48 + d } else { 55 + d }
}
