// What holds of a call, and over many calls. There is no code here: the statements stand in specs/, their proofs in proofs/.
#![tactic(auto)]
