// What an instruction has the arithmetic unit do.
ghost use Rattle.std.specs.Prelude.{◌≡◌};
ghost use Rattle.model.specs.Alu.{alu};
ghost use Rattle.model.specs.Packed.{flags_of};

use arithmetic::{AluOut, word_unit};
use effects::unit_operation;
use packed_flags::carry;

// The result and its flags.
pub fn unit_of(word: u32, flags: u32, a: u32, b: u32) -> AluOut
    ensures { result ≡ alu word (flags_of flags) a b }
{
    word_unit(unit_operation(word), a, b, carry(flags))
}
