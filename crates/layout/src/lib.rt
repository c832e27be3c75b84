// How blocks lie in two lists, one of words and one of holder cells: definitions in specs/, what follows from them in proofs/. There is no code here.
#![tactic(auto)]
