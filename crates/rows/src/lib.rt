// The rows of paper 01 that are marked p: definitions and a proof alone, and no code.

#![tactic(auto)]
