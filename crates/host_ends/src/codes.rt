// The codes that a call returns beside a refusal's number: carried out; carried out and ended "outside" or "undone"; carried out
// and ended "no instruction"; carried out and ended "journal full"; what is lent has not the layout's lengths.
ghost use Rattle.std.specs.Prelude.{◌≡◌};
ghost use Rattle.host_calls.specs.Codes.{run_code, carried_out};

use model::{Ending, Refusal};
use refusals::refusal_number;

// Numbers and no enum, since this is what a caller from C is given.
pub const DONE: u32 = 0;

pub const STOPPED: u32 = 100;

pub const HALTED: u32 = 101;

pub const JOURNAL_FULL: u32 = 102;

pub const MISFIT: u32 = 200;

pub fn run_code(answer: Result<Ending, Refusal>) -> u32
    ensures { result ≡ run_code answer }
{
    match answer {
        Ok(Ending::Finished) => DONE,
        Ok(Ending::Outside) => STOPPED,
        Ok(Ending::NoInstruction) => HALTED,
        Err(why) => refusal_number(why),
    }
}

// Whether a code says that a call was carried out.
pub fn carried_out(code: u32) -> bool
    ensures { result ≡ carried_out code }
{
    (code == DONE) | (code == STOPPED) | (code == HALTED) | (code == JOURNAL_FULL)
}
