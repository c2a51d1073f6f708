// Board and station together: demand 2 and the worked examples, as theorems over the definitions that their contracts cite.
#![tactic(auto)]
