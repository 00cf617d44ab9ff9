// Bits and the codes of H.266 9.2.
#![tactic(auto)]
