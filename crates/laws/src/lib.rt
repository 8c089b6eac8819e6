// Laws of the machine's definitions, which later theorems cite: proofs alone, and no code. What an instruction that is not
// completed leaves, what every instruction keeps, and so every run.

#![tactic(auto)]
