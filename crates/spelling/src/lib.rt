// A sheet has one spelling: laws and theorems over paper's definitions, no code.

#![tactic(auto)]
