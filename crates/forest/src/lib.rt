// What trees of cells over a block store are, and what is true of them: definitions and lemmas, no code.
#![tactic(auto)]
