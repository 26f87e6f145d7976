// The definitions of the model computed by the prover on generated cases, and compared with an independent emulator; no code.
#![tactic(auto)]
