// The theorems on the definitions of `paper`: proofs/Theorems.antt states them together. No function stands here.

#![tactic(auto)]
