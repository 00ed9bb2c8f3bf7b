// Layers: sources that lie over another source and change what it tells.
// It may use the model crate.
#![tactic(auto)]

pub mod fault;
pub mod hold;
