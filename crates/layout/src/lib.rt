// Fields, runs of fields, and tables of widths. This layer is definitions and laws; it has no code.
#![tactic(auto)]
