// A number in digits, in any base up to 36.
#![tactic(auto)]

ghost use Rattle.std.specs.Prelude.{◌≡◌, ◌≤◌};
ghost use Rattle.digits.specs.Digits.{digit_more, value_of};

// A number with a digit more.
#[tactic(auto, using(std::proofs::lemmas::Grind::common_steps), unfolding(crate::specs::Digits::digit_more))]
fn with_digit(base: u32, v: u32, c: u8) -> Option<u32>
    requires { (2 ≤ base) × (base ≤ 36) }
    ensures { result ≡ digit_more base v c }
{
    let digit = char::from(c).to_digit(base)?;
    v.checked_mul(base)?.checked_add(digit)
}

// The number below 2^32 that a text is: there is none where it is empty or has another character.
pub fn number(base: u32, text: &[u8]) -> Option<u32>
    requires { (2 ≤ base) × (base ≤ 36) }
    ensures { result ≡ value_of base text.now }
{
    if text.is_empty() {
        return None;
    }
    let mut v = 0;
    for &c in text {
        v = with_digit(base, v, c)?;
    }
    Some(v)
}
