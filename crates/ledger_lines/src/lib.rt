// The definition of the ledger's text, its length, document 01's example and what bad images print; no code.
#![tactic(auto)]
