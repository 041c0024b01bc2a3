// Document 01's board examples that are marked P. This layer is definitions and laws; it has no code.
#![tactic(auto)]
