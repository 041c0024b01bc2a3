// The three demands on the library, sentence by sentence. This layer is definitions and laws; it has no code.
#![tactic(auto)]
