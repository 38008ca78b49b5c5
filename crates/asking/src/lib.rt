// The public calls that need no machine: the question about one opcode, and the filled part of a lent output.
#![tactic(auto)]

ghost use Rattle.std.specs.Prelude.{◌≡◌, take};
ghost use Rattle.asking.specs.Asking.{told_decoded, opcode_answer};

use opcodes::Instruction;

// One opcode's operation, operand place, length and cycles, or that it is undefined.
pub fn ask(opcode: u8) -> Option<Instruction>
    ensures { told_decoded result ≡ opcode_answer opcode }
{
    opcodes::decode(opcode)
}

// The filled part of an output: its first `sent` bytes, or all of it where there are no more.
pub fn filled(output: &[u8], sent: usize) -> &[u8]
    ensures { result.now ≡ take sent output.now }
{
    &output[..sent.min(output.len())]
}
