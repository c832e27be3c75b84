// When a canvas stands for a history, and how each call keeps it so, over plain data: definitions in specs/, lemmas in proofs/. There is no code here.
#![tactic(auto)]
