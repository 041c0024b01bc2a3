// Bits as the numbers 0 and 1. This layer is definitions and laws; it has no code.
#![tactic(auto)]
