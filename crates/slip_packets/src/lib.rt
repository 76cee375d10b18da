// Packets by cutting, and what holds of framing and unframing over whole lines. There is no code here: the definitions and statements
// stand in specs/, the proofs in proofs/.
#![tactic(auto)]
