// What "known" in rule 6 means, by example: programs with the answers that the rules give for them, and no code.

#![tactic(auto)]
