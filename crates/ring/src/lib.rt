// A fourth source, the ring: it shows what a source of one's own has to bring, and that a pile of layers then takes
// it as it is. The tests of the sources and of piles of them stand here too.
// It may use the crates model, text, tables, ladder and layers.
#![tactic(auto)]

pub mod ring;
#[cfg(test)]
mod tests;
