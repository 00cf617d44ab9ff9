// The round trip of a picture parameter set, for the functions that read and write one: theorems alone.
#![tactic(auto)]
