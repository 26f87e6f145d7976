// What a gate run asks of the access in hand.
ghost use Rattle.std.specs.Prelude.{◌≡◌};
ghost use Rattle.model.specs.GateMachine.{is_access};
ghost use Rattle.model.specs.Refusals.{access_formed};

use model::GateState;
use step_table::{LAST_ROW, Mark, steps};

// What the step table marks as an access; past the table there is none.
fn is_access(row: u8) -> bool
    ensures { result ≡ is_access row }
{
    if row <= LAST_ROW {
        return steps()[row as usize].mark == Mark::Access;
    }
    false
}

// A begun access stands in an access row with clocks left; where none is begun, none are left.
pub fn access_formed(s: GateState) -> bool
    ensures { result ≡ access_formed s }
{
    if s.begun {
        return is_access(s.row) & (0 < s.left);
    }
    s.left == 0
}
