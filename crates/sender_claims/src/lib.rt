// What holds of a load from the sender to the loader. There is no code here: the statements stand in specs/, their proofs in proofs/.
#![tactic(auto)]
