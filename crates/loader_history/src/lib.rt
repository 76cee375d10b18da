// What holds over a list of packets. There is no code here: the statements stand in specs/, their proofs in proofs/.
#![tactic(auto)]
