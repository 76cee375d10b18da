// The starred cases of document 01, those of the digest command and of two lines on one pin, and the listing's example. There is no code
// here: the statements stand in specs/, their proofs in proofs/.
#![tactic(auto)]
