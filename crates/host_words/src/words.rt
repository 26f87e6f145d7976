// The words of a machine and of a gate state, each written out: the fields differ in name and type, so no loop or chain makes them plainer.
ghost use Rattle.std.specs.Prelude.{◌≡◌};
ghost use Rattle.model.specs.Packed.{latch_words};
ghost use Rattle.host_words.specs.Words.{machine_words};

use host_reading::{MACHINE_SIZE, STATE_SIZE};
use model::{GateState, Machine};

pub fn machine_words(m: Machine) -> [u32; MACHINE_SIZE]
    ensures { result ≡ machine_words m }
{
    let r = m.regs;
    let f = m.flags;
    [
        r[0],
        r[1],
        r[2],
        r[3],
        r[4],
        r[5],
        r[6],
        r[7],
        f.carry as u32,
        f.overflow as u32,
        f.negative as u32,
        f.zero as u32,
    ]
}

// The words of a gate state after its machine's.
pub fn latch_words(s: GateState) -> [u32; STATE_SIZE - MACHINE_SIZE]
    ensures { result ≡ latch_words s }
{
    [
        s.row as u32,
        s.instruction,
        s.address,
        s.a,
        s.b,
        s.result,
        s.position,
        s.begun as u32,
        s.left as u32,
    ]
}
