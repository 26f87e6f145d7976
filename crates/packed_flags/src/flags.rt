// The four flags as the bits of one number, in the order in which an instruction word permits them. One number is quicker to carry through
// a run than four truths. Functions and no `From`, since `Flags` is another crate's.
ghost use Rattle.std.specs.Prelude.{◌≡◌, ◌<◌};
ghost use Rattle.model.specs.Words.{bit};
ghost use Rattle.model.specs.Packed.{packed_of, flags_of};

use model::Flags;

pub fn packed(flags: Flags) -> u32
    ensures { result ≡ packed_of flags }
{
    8 * (flags.carry as u32)
        + 4 * (flags.overflow as u32)
        + 2 * (flags.negative as u32)
        + (flags.zero as u32)
}

fn bit(flags: u32, place: u32) -> bool
    requires { place < 32 }
    ensures { result ≡ bit flags place }
{
    (flags >> place) % 2 == 1
}

pub fn carry(flags: u32) -> bool
    ensures { result ≡ (flags_of flags).carry }
{
    bit(flags, 3)
}

pub fn overflow(flags: u32) -> bool
    ensures { result ≡ (flags_of flags).overflow }
{
    bit(flags, 2)
}

pub fn negative(flags: u32) -> bool
    ensures { result ≡ (flags_of flags).negative }
{
    bit(flags, 1)
}

pub fn zero(flags: u32) -> bool
    ensures { result ≡ (flags_of flags).zero }
{
    bit(flags, 0)
}

pub fn unpacked(flags: u32) -> Flags
    ensures { result ≡ flags_of flags }
{
    Flags {
        carry: carry(flags),
        overflow: overflow(flags),
        negative: negative(flags),
        zero: zero(flags),
    }
}
