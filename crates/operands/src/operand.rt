// Operands: decoding, and whether each is in memory.
ghost use Rattle.std.specs.Prelude.{◌≡◌, ◌<◌};
ghost use Rattle.model.specs.Words.{field};
ghost use Rattle.model.specs.Operands.{operand, operand_a, operand_b, in_memory};

use model::Operand;

// The operand whose mode's two bits and whose register's three stand in the word from these bits on.
fn decoded(word: u32, mode_from: u32, register_from: u32) -> Operand
    requires mode { mode_from < 32 }
    requires register { register_from < 32 }
    ensures { result ≡ operand (field word mode_from 2) (field word register_from 3) }
{
    let register = ((word >> register_from) % 8) as u8;
    match (word >> mode_from) % 4 {
        0 => Operand::Direct(register),
        1 => Operand::Indirect(register),
        2 => Operand::Before(register),
        _ => Operand::After(register),
    }
}

pub fn operand_a(word: u32) -> Operand
    ensures { result ≡ operand_a word }
{
    decoded(word, 3, 0)
}

pub fn operand_b(word: u32) -> Operand
    ensures { result ≡ operand_b word }
{
    decoded(word, 8, 5)
}

pub fn in_memory(o: Operand) -> bool
    ensures { result ≡ in_memory o }
{
    !matches!(o, Operand::Direct(_))
}
