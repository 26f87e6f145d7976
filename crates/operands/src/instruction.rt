// Whether a word is an instruction.
ghost use Rattle.std.specs.Prelude.{◌≡◌};
ghost use Rattle.model.specs.Words.{is_instruction};

// Bit 14 and bits 20 to 31 are 0.
pub fn is_instruction(word: u32) -> bool
    ensures { result ≡ is_instruction word }
{
    (word / 16_384 % 2 != 1) & (word / 1_048_576 % 4_096 == 0)
}
