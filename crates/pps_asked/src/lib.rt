// What reading leaves, asked about by the grid, plan and cover questions: theorems alone.
#![tactic(auto)]
