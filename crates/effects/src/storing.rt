// Whether an instruction stores its result, to lay beside table 5-1 of report 48: the one place where this is decided, for both engines.
ghost use Rattle.std.specs.Prelude.{◌≡◌};
ghost use Rattle.model.specs.Alu.{stores};
ghost use Rattle.model.specs.Packed.{flags_of};

use super::{is_move, operation_of};
use packed_flags::{carry, negative, overflow, zero};

// By the flags before the instruction, packed. The last arm is never reached, since an operation has four bits; as it stores nothing, 8 to
// 15 have to be in the range.
#[tactic(auto, unfolding(model::specs::Alu::stores))]
pub fn stores(word: u32, flags: u32) -> bool
    ensures { result ≡ stores word (flags_of flags) }
{
    if !is_move(word) {
        return true;
    }
    match operation_of(word) {
        0 => !carry(flags),
        1 => carry(flags),
        2 => !overflow(flags),
        3 => overflow(flags),
        4 => !zero(flags),
        5 => zero(flags),
        6 => !negative(flags),
        7 => negative(flags),
        8..=15 => true,
        _ => false,
    }
}
