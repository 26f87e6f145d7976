// Clocks one at a time, each on a state that is lent for it.
use gate_machine::GateResult;
use lent_clock::clock_once;
use model::GateState;

// One clock more on what the clocks before it left.
fn one_more(memory: &mut [u32], bottom: u32, waits: &[u16], before: GateResult) -> GateResult {
    let earlier = before.outcome.unwrap_or(0);
    let after = clock_once(memory, bottom, waits, before.state);
    GateResult {
        outcome: after.outcome.map(|finished| earlier.wrapping_add(finished)),
        state: after.state,
    }
}

// What a gate run of so many clocks gives.
pub fn clock_by_clock(
    memory: &mut [u32],
    bottom: u32,
    waits: &[u16],
    start: GateState,
    clocks: u32,
) -> GateResult {
    let mut result = GateResult {
        outcome: Ok(0),
        state: start,
    };
    for _ in 0..clocks {
        result = one_more(memory, bottom, waits, result);
    }
    result
}
