// What the calls promise, demand by demand, in theorems about the definitions. There is no code here: specs/ is to be read.
#![tactic(auto)]
