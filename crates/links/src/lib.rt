// A chain of numbers through the words of free blocks: definitions in specs/, what follows from them in proofs/. There is no code here.
#![tactic(auto)]
