// The laws of the tidy pool. There is no code here: the laws in specs/ say what a tidy pool is, and code cites them.
#![tactic(auto)]
