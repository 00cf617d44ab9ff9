// What a description of a syntax is: definitions and laws alone. The code is in the crates that read and write by a
// description.
#![tactic(auto)]
