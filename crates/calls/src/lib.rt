// The kiosk's calls as definitions, and what holds of one call after another: definitions and proofs alone, and no code.

#![tactic(auto)]
