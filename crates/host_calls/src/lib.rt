// The codes of the exported calls and what each call leaves, by definition, with an example of each; no code.
#![tactic(auto)]
