// The cases of document 01, "Joins, loops and edges to try", as one table: specs/Cases.antt. There is no code.

#![tactic(auto)]
