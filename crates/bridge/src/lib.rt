// What ties the blocks of a store to a history is in specs/, the lemmas in proofs/; there is no code.
#![tactic(auto)]
