// The fields of an image, each stored from a place on.
ghost use Rattle.std.specs.Prelude.{◌≡◌, ◌+◌, ◌*◌, ◌≤◌, length};
ghost use Rattle.std.proofs.lemmas.List.Edits.{sets};
ghost use Rattle.model.specs.Packed.{flag_numbers};
ghost use Rattle.model.specs.Refusals.{most_words};
ghost use Rattle.image.specs.Bytes.{bytes_of, word_bytes};
ghost use Rattle.image.specs.Format.{field_bytes, registers_field, flags_field, count_field, words_field, words_per_field, fields_for, span_of, memory_fields, image_of};

use super::bytes::{put_four, put_header, put_word, put_words};
use image::WORDS_PER_FIELD;
use model::{Flags, Machine};

pub fn image_size(words: usize) -> usize
    requires { words ≤ most_words }
    ensures { result ≡ 56 + span_of words }
{
    56 + 4 * words + 3 * words.div_ceil(WORDS_PER_FIELD)
}

fn put_registers(out: &mut [u8], at: usize, regs: &[u32; 8])
    requires { at + 35 ≤ length out.old }
    ensures { out.new ≡ sets out.old at (field_bytes registers_field (word_bytes regs.now)) }
{
    put_header(out, at, 2, 32);
    put_words(out, at + 3, regs);
}

fn put_flags(out: &mut [u8], at: usize, flags: Flags)
    requires { at + 7 ≤ length out.old }
    ensures { out.new ≡ sets out.old at (field_bytes flags_field (flag_numbers flags)) }
{
    put_header(out, at, 3, 4);
    let bytes = [
        flags.carry as u8,
        flags.overflow as u8,
        flags.negative as u8,
        flags.zero as u8,
    ];
    put_four(out, at + 3, bytes);
}

fn put_count(out: &mut [u8], at: usize, words: u32)
    requires { at + 7 ≤ length out.old }
    ensures { out.new ≡ sets out.old at (field_bytes (count_field words) (bytes_of 4 words)) }
{
    put_header(out, at, 4, 4);
    put_word(out, at + 3, words);
}

// One tag-05 field.
fn put_word_field(out: &mut [u8], at: usize, words: &[u32])
    requires { (at + 3 + 4 * length words.now ≤ length out.old) × (length words.now ≤ words_per_field) }
    ensures { out.new ≡ sets out.old at (field_bytes (words_field (length words.now)) (word_bytes words.now)) }
{
    put_header(out, at, 5, (4 * words.len()) as u16);
    put_words(out, at + 3, words);
}

// All tag-05 fields.
fn put_memory(out: &mut [u8], start: usize, memory: &[u32])
    requires { start + span_of (length memory.now) ≤ length out.old }
    ensures { out.new ≡ sets out.old start (memory_fields (fields_for (length memory.now)) memory.now) }
{
    let mut at = start;
    for words in memory.chunks(WORDS_PER_FIELD) {
        put_word_field(out, at, words);
        at += 3 + 4 * words.len();
    }
}

pub fn put_image(memory: &[u32], machine: Machine, version: u8, out: &mut [u8])
    requires { (length memory.now ≤ most_words) × (56 + span_of (length memory.now) ≤ length out.old) }
    ensures { out.new ≡ sets out.old 0 (image_of version machine memory.now) }
{
    let words = memory.len();
    let end = image_size(words) - 3;
    put_four(out, 0, [1, 1, 0, version]); // tag 1, length 1
    put_registers(out, 4, &machine.regs);
    put_flags(out, 39, machine.flags);
    put_count(out, 46, words as u32);
    put_memory(out, 53, memory);
    put_header(out, end, 255, 0);
}
