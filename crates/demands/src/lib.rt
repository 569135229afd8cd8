// Nothing of the code: the bench table and the demands are stated over the rules, in specs/, and proved in proofs/.
#![tactic(auto)]
