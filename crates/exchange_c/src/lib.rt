// Demand 2 in C's numbers: board, encoder and reader together. Nothing here runs.
#![tactic(auto)]
