// Theorems about what the runs of the interpreter and the gate machine return, by their contracts; no code.
// Demand 3: specs/TwoRuns.antt, proved in proofs/TwoRuns.antt. Row 12: specs/Halted.antt, proved in proofs/Halted.antt. The bottom
// of memory: specs/Bottom.antt, proved in proofs/Bottom.antt. Resets: specs/SinceReset.antt; runs that follow on: specs/Series.antt and
// specs/GoesOn.antt; each proved in the file of that name in proofs/. The starred bench words: specs/Starred.antt, proved in proofs/Starred.antt.
#![tactic(auto)]
