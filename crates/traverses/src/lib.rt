// A traverse: up to 64 files on one memory. Its files, what it answers, and by definition what it means, with theorems and examples; no code.
#![tactic(auto)]

use model::{Machine, Refusal};

// A file: where its words are laid, how many there are, its entry address and its instruction count.
#[derive(Clone, Copy)]
pub struct File {
    pub place: u32,
    pub size: u32,
    pub entry: u32,
    pub count: u32,
}

// Under rule 1 the undone files, bit i for file i; under rule 2 that no file is undone, or the number of the first that is, also where the
// journal was full: a store or a laid word needed one address more than there are pairs.
#[derive(Clone, Copy, Debug, PartialEq, Eq)]
pub enum TraverseEnding {
    Marked(u64),
    Finished,
    Undone(u32),
    Full(u32),
}

// answer: how the traverse ended, or why it was turned down. ran: the instructions that ran in the last file run. pairs: how many pairs the journal holds, under rule 1 those of the last file.
#[derive(Clone, Copy)]
pub struct TraverseResult {
    pub answer: Result<TraverseEnding, Refusal>,
    pub machine: Machine,
    pub ran: u32,
    pub pairs: usize,
}
