// Nothing runs here: specs/ gives each call's contract a word, and proofs/ has the promises as theorems on them.
#![tactic(auto)]
