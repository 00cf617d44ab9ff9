// The syntax of a picture parameter set (H.266 7.3.2.5): definitions and theorems alone. Reading and writing are proved
// against them.
#![tactic(auto)]
