// The second pass: what an image that is in order holds.
ghost use Rattle.std.specs.Prelude.{◌≡◌, ◌+◌, ◌≤◌, length, drop};
ghost use Rattle.std.proofs.lemmas.List.Edits.{sets};
ghost use Rattle.image.specs.Format.{fields_for, span_of};
ghost use Rattle.image.specs.Calls.{cleared_machine};
ghost use Rattle.image_reader.specs.Passes.{image_machine, image_memory};

use super::bytes::{byte_at, get_words};
use image::{WORDS_PER_FIELD, words_in_field};
use model::{Flags, Machine};

pub fn cleared_machine() -> Machine
    ensures { result ≡ cleared_machine }
{
    let flags = Flags {
        carry: false,
        overflow: false,
        negative: false,
        zero: false,
    };
    Machine {
        regs: [0; 8],
        flags,
    }
}

pub fn machine_at(bytes: &[u8]) -> Machine
    requires { 39 ≤ length bytes.now }
    ensures { result ≡ image_machine bytes.now }
{
    let mut regs = [0u32; 8];
    get_words(&bytes[7..], &mut regs);
    let flags = Flags {
        carry: byte_at(bytes, 42) == 1,
        overflow: byte_at(bytes, 43) == 1,
        negative: byte_at(bytes, 44) == 1,
        zero: byte_at(bytes, 45) == 1,
    };
    Machine { regs, flags }
}

pub fn load_memory(bytes: &[u8], memory: &mut [u32], words: usize)
    requires { (53 + span_of words ≤ length bytes.now) × (words ≤ length memory.old) }
    ensures { memory.new ≡ sets memory.old 0 (image_memory (fields_for words) words (drop 53 bytes.now)) }
{
    // By number, since a proof learns nothing of what is stored through `chunks_mut`.
    let mut at = 53;
    for field in 0..words.div_ceil(WORDS_PER_FIELD) {
        let from = WORDS_PER_FIELD * field;
        let count = words_in_field(words - from);
        let value = at + 3;
        get_words(&bytes[value..], &mut memory[from..from + count]);
        at = value + 4 * count;
    }
}
