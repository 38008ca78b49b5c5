// In which cycle of its instruction each access stands, a digit in base 16 each, the first access last.
#![tactic(auto)]

ghost use Rattle.std.specs.Prelude.{◌≡◌};
ghost use Rattle.timing.specs.Digits.{listed};
ghost use Rattle.timing.specs.Table.{placed, access_cycles, entry_accesses};

use opcodes::{Operation, Place};

#[tactic(auto, unfolding(crate::specs::Digits::listed))]
fn at_place(place: Place, direct: u64, indexed: u64, extended: u64) -> u64
    ensures { listed result ≡ placed (listed direct) (listed indexed) (listed extended) place }
{
    match place {
        Place::Inherent | Place::AccumulatorA | Place::AccumulatorB => 0x1,
        Place::ImmediateByte | Place::Relative => 0x21,
        Place::ImmediateWord => 0x321,
        Place::Direct => direct,
        Place::Indexed => indexed,
        Place::Extended => extended,
    }
}

// The accesses of an instruction.
#[tactic(auto, unfolding(crate::specs::Digits::listed, crate::specs::Table::access_cycles))]
pub fn accesses(operation: Operation, place: Place) -> u64
    ensures { listed result ≡ access_cycles operation place }
{
    match operation {
        Operation::Internal(_) => 0x1,
        Operation::Dyadic(_, _) | Operation::Sta(_) => at_place(place, 0x321, 0x421, 0x4321),
        Operation::Monadic(_) => at_place(place, 0, 0x6421, 0x64321),
        Operation::Tst => at_place(place, 0, 0x421, 0x4321),
        Operation::Wide(_) | Operation::WideStore(_) => at_place(place, 0x4321, 0x5421, 0x54321),
        Operation::Psh(_) => 0x31,
        Operation::Pul(_) => 0x41,
        Operation::Pshx => 0x431,
        Operation::Pulx | Operation::Rts => 0x541,
        Operation::Branch(_) => 0x21,
        Operation::Jmp => at_place(place, 0, 0x21, 0x321),
        Operation::Jsr => at_place(place, 0x5421, 0x6521, 0x65321),
        Operation::Bsr => 0x6521,
        Operation::Rti => 0xA9876541,
        Operation::Swi => 0xCB98765431,
        Operation::Wai => 0x98765431,
    }
}

// The accesses of an interrupt's entry.
#[tactic(auto, unfolding(crate::specs::Digits::listed))]
pub fn entry_accesses(waiting: bool) -> u64
    ensures { listed result ≡ entry_accesses waiting }
{
    if waiting { 0x43 } else { 0xCB9876543 }
}
