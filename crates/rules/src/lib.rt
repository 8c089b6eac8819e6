// The six loading rules, as statements and as a computed answer, demand 3, and no code.

#![tactic(auto)]
