// Images of the FM8502: what a reader answers, and the leaves of the format. specs/ says what an image is.
#![tactic(auto)]

ghost use Rattle.std.specs.Prelude.{◌≡◌, min};
ghost use Rattle.image.specs.Format.{is_version, words_per_field};

use model::{Machine, Refusal};

pub const WORDS_PER_FIELD: usize = 1_024;

// How many words an image has that was loaded, and its version.
#[derive(Clone, Copy, Debug, PartialEq, Eq)]
pub struct LoadedImage {
    pub words: u32,
    pub version: u32,
}

// answer: what was loaded, or why nothing was. machine: of a read that is turned down, registers 0 and flags false.
#[derive(Clone, Copy)]
pub struct ReadResult {
    pub answer: Result<LoadedImage, Refusal>,
    pub machine: Machine,
}

// Whether an image may have a version.
pub fn is_version(version: u32) -> bool
    ensures { result ≡ is_version version }
{
    (version == 1) | (version == 2)
}

// How many of the words that are left the next tag-05 field takes.
pub fn words_in_field(left: usize) -> usize
    ensures { result ≡ min words_per_field left }
{
    left.min(WORDS_PER_FIELD)
}
