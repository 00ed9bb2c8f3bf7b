// The laws of the model text: a text is accepted exactly where it describes a content, and describes one at the most.
// It has no code; the loader's proofs cite it. It may use the model and text crates.
#![tactic(auto)]
