// Compute, set flags, store, step up: (iv) to (vi).
ghost use Rattle.step.specs.Steps.{Finishes};

use super::Stepped;
use super::fetch::Fetched;
use super::put::put;
use super::unit::unit_of;
use effects::{flags_after_packed, stores};
use registers::step_up;

// The storing condition is read from the old flags, and the new ones are made before the store, so that little is carried past it.
pub fn finish(
    regs: &mut [u32; 8],
    memory: &mut [u32],
    bottom: u32,
    journal: &mut [u32],
    map: &mut [u32],
    pairs: &mut usize,
    flags: u32,
    f: Fetched,
) -> Stepped
    ensures { Finishes regs.old memory.old bottom journal.old map.old pairs.old flags f regs.new memory.new journal.new map.new pairs.new result }
{
    let word = f.word;
    let oa = f.oa;
    let ob = f.ob;
    let stored = stores(word, flags);
    let out = unit_of(word, flags, f.a, f.b);
    let after = flags_after_packed(word, flags, out);
    let full = put(
        stored, f, out.result, regs, memory, bottom, journal, map, pairs,
    );
    // Told before the steps up, and with the old flags, which makes the loop quicker; the machine is the start's in the end.
    if full {
        return Stepped {
            flags,
            oa,
            ob,
            stored,
            full: true,
        };
    }
    step_up(oa, regs);
    step_up(ob, regs);
    Stepped {
        flags: after,
        oa,
        ob,
        stored,
        full: false,
    }
}
