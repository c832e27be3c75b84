// A map of bits that tells which numbers can be taken: definitions in specs/, what follows from them in proofs/. There is no code here.
#![tactic(auto)]
