// The first pass: whether the bytes are an image that the memory can hold.
ghost use Rattle.std.specs.Prelude.{◌≡◌, ◌+◌, ◌^◌, ◌≤◌, ◌<◌, drop};
ghost use Rattle.model.specs.Refusals.{most_words};
ghost use Rattle.image.specs.Format.{version_field, flags_field, count_field};
ghost use Rattle.image.specs.Reading.{header_verdict, field_verdict};
ghost use Rattle.image_reader.specs.Passes.{image_version, image_count, head_verdict, tail_verdict, image_verdict};

use super::bytes::{byte_at, pair_at};
use image::{WORDS_PER_FIELD, is_version, words_in_field};
use model::Refusal;
use refusals::{MOST_WORDS, demand};

// A field from a place on, but for its value: header cut, tag, length, value cut.
fn header_verdict(bytes: &[u8], at: usize, tag: u32, due: u32) -> Result<(), Refusal>
    requires { at + 3 + due < 2 ^ 64 }
    ensures { result ≡ header_verdict tag due (drop at bytes.now) }
{
    let value = at + 3;
    if bytes.len() < value {
        return Err(Refusal::CutImage);
    }
    if byte_at(bytes, at) != tag {
        return Err(Refusal::WrongTag);
    }
    if pair_at(bytes, at + 1) != due {
        return Err(Refusal::WrongLength);
    }
    if bytes.len() < value + due as usize {
        return Err(Refusal::CutImage);
    }
    Ok(())
}

pub fn image_version(bytes: &[u8]) -> u32
    ensures { result ≡ image_version bytes.now }
{
    byte_at(bytes, 3)
}

fn version_verdict(bytes: &[u8]) -> Result<(), Refusal>
    ensures { result ≡ field_verdict version_field bytes.now }
{
    header_verdict(bytes, 0, 1, 1)?;
    demand(is_version(image_version(bytes)), Refusal::WrongVersion)
}

fn flags_verdict(bytes: &[u8]) -> Result<(), Refusal>
    ensures { result ≡ field_verdict flags_field (drop 39 bytes.now) }
{
    header_verdict(bytes, 39, 3, 4)?;
    let c = byte_at(bytes, 42);
    let v = byte_at(bytes, 43);
    let n = byte_at(bytes, 44);
    let z = byte_at(bytes, 45);
    let known = (c <= 1) & (v <= 1) & (n <= 1) & (z <= 1);
    demand(known, Refusal::BadFlag)
}

pub fn word_count(bytes: &[u8]) -> u32
    ensures { result ≡ image_count bytes.now }
{
    pair_at(bytes, 49) + 65_536 * pair_at(bytes, 51)
}

fn count_verdict(bytes: &[u8], room: usize) -> Result<(), Refusal>
    ensures { result ≡ field_verdict (count_field room) (drop 46 bytes.now) }
{
    header_verdict(bytes, 46, 4, 4)?;
    let words = word_count(bytes) as usize;
    let possible = (1 <= words) & (words <= MOST_WORDS);
    demand(possible, Refusal::BadWordCount)?;
    demand(words <= room, Refusal::ShortMemory)
}

// The version, the registers, the flags and the word count.
fn head_verdict(bytes: &[u8], room: usize) -> Result<(), Refusal>
    ensures { result ≡ head_verdict bytes.now room }
{
    version_verdict(bytes)?;
    header_verdict(bytes, 4, 2, 32)?;
    flags_verdict(bytes)?;
    count_verdict(bytes, room)
}

// The fields of words, from byte 53 on, and the end field, with nothing after it.
fn tail_verdict(bytes: &[u8], words: usize) -> Result<(), Refusal>
    requires { words ≤ most_words }
    ensures { result ≡ tail_verdict words 53 bytes.now }
{
    let mut at = 53;
    for field in 0..words.div_ceil(WORDS_PER_FIELD) {
        let count = words_in_field(words - WORDS_PER_FIELD * field);
        header_verdict(bytes, at, 5, (4 * count) as u32)?;
        at = at + 3 + 4 * count;
    }
    header_verdict(bytes, at, 255, 0)?;
    demand(bytes.len() <= at + 3, Refusal::TrailingBytes)
}

pub fn image_verdict(bytes: &[u8], room: usize) -> Result<(), Refusal>
    ensures { result ≡ image_verdict bytes.now room }
{
    head_verdict(bytes, room)?;
    tail_verdict(bytes, word_count(bytes) as usize)
}
