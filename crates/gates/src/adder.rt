// What the unit asks of an adder: that it adds. An adder holds nothing: its type says which it is, so that the compiler makes a unit around each.
ghost use Rattle.gate_network.specs.Theorems.{Adds};

pub trait Adder {
    // The sum of two rows of 32 bits and a carry, lowest bit first. Returns the carry out.
    fn add(self, a: &[bool; 32], b: &[bool; 32], carry: bool, out: &mut [bool; 32]) -> bool
        ensures { Adds a.now b.now carry out.new result };
}
