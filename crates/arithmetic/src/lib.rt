// The arithmetic unit of the FM8502: what it answers, and the unit on whole words.
#![tactic(auto)]

mod word;

pub use word::{answer, word_unit};

// A result with its four flags. In this order it has twelve bytes: eight would travel as one word, to be taken apart by each caller.
#[derive(Clone, Copy)]
pub struct AluOut {
    pub carry: bool,
    pub overflow: bool,
    pub result: u32,
    pub negative: bool,
    pub zero: bool,
}
