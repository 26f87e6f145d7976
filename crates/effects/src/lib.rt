// What an instruction word says of computing: the operation, whether the result is stored, the permitted flags. The interpreter carries
// the flags packed and the gate machine apart. Leaves that both engines use.
#![tactic(auto, unfolding(model::specs::Words::field, model::specs::Words::bit, model::specs::Alu::is_move, model::specs::Alu::operation))]

mod storing;

ghost use Rattle.std.specs.Prelude.{◌≡◌, cond};
ghost use Rattle.model.specs.Alu.{is_move, operation, flags_after};
ghost use Rattle.model.specs.Packed.{packed_of, flags_of};

use arithmetic::AluOut;
use model::Flags;
use packed_flags::{packed, unpacked};
pub use storing::stores;

pub fn is_move(word: u32) -> bool
    ensures { result ≡ is_move word }
{
    word / 32_768 % 2 == 1
}

fn operation_of(word: u32) -> u8
    ensures { result ≡ operation word }
{
    (word / 65_536 % 16) as u8
}

// The operation that the arithmetic unit is told; a move is operation 0.
pub fn unit_operation(word: u32) -> u8
    ensures { result ≡ cond (is_move word) 0 (operation word) }
{
    if is_move(word) { 0 } else { operation_of(word) }
}

// The permitted flags from the unit's answer, the others as they were; packed. A permit stands at its flag's bit. The unit's flags are named one by one: a
// `From` would have to lie in `model`, for this place and one of a test program.
pub fn flags_after_packed(word: u32, flags: u32, out: AluOut) -> u32
    ensures { result ≡ packed_of (flags_after word (flags_of flags) out) }
{
    let permits = word / 1_024 % 16;
    let answer = packed(Flags {
        carry: out.carry,
        overflow: out.overflow,
        negative: out.negative,
        zero: out.zero,
    });
    (flags % 16 & (15 - permits)) | (answer & permits)
}

pub fn flags_after_apart(word: u32, flags: Flags, out: AluOut) -> Flags
    ensures { result ≡ flags_after word flags out }
{
    unpacked(flags_after_packed(word, packed(flags), out))
}
