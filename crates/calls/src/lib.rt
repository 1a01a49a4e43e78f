// No code: laws of the numbers that several calls answer, in proofs/.
#![tactic(auto)]
