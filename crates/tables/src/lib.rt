// Document 000's tables of parameters, and that the field lists agree with them. This layer is definitions and laws; it has no code.
#![tactic(auto)]
