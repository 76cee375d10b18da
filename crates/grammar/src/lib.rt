// The grammar of demand 3, which mentions no loader. There is no code here: the definitions and statements stand in specs/, the proofs of
// the latter in proofs/.
#![tactic(auto)]
