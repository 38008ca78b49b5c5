// Power-on: a machine from an image and R, or a refusal.
#![tactic(auto)]

ghost use Rattle.std.specs.Prelude.{◌≡◌};
ghost use Rattle.power.specs.Power.{told_power, power_answer};

use machine::{Machine, PowerRefusal};

pub fn power_on(image: &[u8], r: u32) -> Result<Machine, PowerRefusal>
    ensures { told_power result ≡ power_answer image.now r }
{
    machine::power_on(image, r)
}
