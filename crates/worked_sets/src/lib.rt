// Worked examples of the public functions, computed: one table, one theorem.
#![tactic(auto)]
