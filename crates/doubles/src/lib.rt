// Doubles that are whole numbers times a power of two, and the double nearest to a fraction. This layer is definitions and laws; it has no code.
#![tactic(auto)]
