#![tactic(auto)]
// Nothing runs here: specs/ is document 01 as definitions, and proofs/ has the laws on them.
