// Why a call is turned down, as code: the papers' numbers, what is demanded in turn, and the limits of a memory.
#![tactic(auto)]

ghost use Rattle.std.specs.Prelude.{◌≡◌};
ghost use Rattle.model.specs.Refusals.{refusal_number, demand, ◌then◌, memory_fits};

use model::Refusal;

// The most words of a memory.
pub const MOST_WORDS: usize = 16_777_216;

// The papers' number of a refusal. Its place is here and not in a `From`, which would have to lie in `model`, where the definition is, away from the limits.
pub fn refusal_number(why: Refusal) -> u32
    ensures { result ≡ refusal_number why }
{
    match why {
        Refusal::NoWords => 1,
        Refusal::TooManyWords => 2,
        Refusal::LongWaitList => 3,
        Refusal::BadGateState => 4,
        Refusal::ShortOutput => 7,
        Refusal::CutImage => 8,
        Refusal::WrongTag => 9,
        Refusal::WrongLength => 10,
        Refusal::WrongVersion => 11,
        Refusal::BadFlag => 12,
        Refusal::BadWordCount => 13,
        Refusal::ShortMemory => 14,
        Refusal::TrailingBytes => 15,
        Refusal::TooManyFiles => 16,
        Refusal::FileMisplaced => 17,
        Refusal::WordsMismatched => 18,
        Refusal::BottomTooHigh => 21,
        Refusal::ResetsNotRising => 22,
    }
}

// Refused unless something holds.
pub fn demand(holds: bool, reason: Refusal) -> Result<(), Refusal>
    ensures { result ≡ demand holds reason }
{
    if holds { Ok(()) } else { Err(reason) }
}

// Of two verdicts the first refusal.
pub fn then(first: Result<(), Refusal>, second: Result<(), Refusal>) -> Result<(), Refusal>
    ensures { result ≡ first then second }
{
    first?;
    second
}

// Reasons 1 and 2.
pub fn memory_fits(memory: &[u32]) -> Result<(), Refusal>
    ensures { result ≡ memory_fits memory.now }
{
    let words = memory.len();
    then(
        demand(0 < words, Refusal::NoWords),
        demand(words <= MOST_WORDS, Refusal::TooManyWords),
    )
}
