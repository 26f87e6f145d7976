// The access protocol: an access takes its wait on its first clock, counts it down, and does the row's work on the last.
ghost use Rattle.std.specs.Prelude.{◌≡◌, [], ◌≤◌, ltb, length};
ghost use Rattle.model.specs.Refusals.{most_waits};
ghost use Rattle.gate_rows.specs.Work.{state_of};
ghost use Rattle.gate_machine.specs.Clock.{acknowledged_at, untouched_at, grant_of};

use gate_rows::Latches;
use wait_list::{next_position, wait_at};

// Whether the row's work is done, whether it never will be, and the access as this clock leaves it.
// Not packed into eight bytes: those would travel as one word, to be taken apart on each clock.
#[derive(Clone, Copy)]
pub struct Grant {
    pub works: bool,
    pub stuck: bool,
    pub position: u32,
    pub begun: bool,
    pub left: u16,
}

// An acknowledged access with `left` clocks after this one.
fn acknowledged(left: u16, position: u32) -> Grant
    ensures { result ≡ acknowledged_at left position }
{
    Grant {
        position,
        left,
        begun: left != 0,
        works: left == 0,
        stuck: false,
    }
}

// The access as it was.
fn untouched(s: Latches, works: bool) -> Grant
    ensures { result ≡ untouched_at works (state_of [] s) }
{
    Grant {
        position: s.position,
        left: s.left,
        begun: s.begun,
        works,
        stuck: !works,
    }
}

// A row that is no access works at once; an absent address is never acknowledged.
pub fn granted(s: Latches, access: bool, words: usize, waits: &[u16]) -> Grant
    requires { length waits.now ≤ most_waits }
    ensures { result ≡ grant_of access (ltb s.address words) waits.now (state_of [] s) }
{
    if !access {
        return untouched(s, true);
    }
    if words <= s.address as usize {
        return untouched(s, false);
    }
    if s.begun {
        return acknowledged(s.left.saturating_sub(1), s.position);
    }
    let position = s.position as usize;
    acknowledged(
        wait_at(waits, position),
        next_position(waits, position) as u32,
    )
}
