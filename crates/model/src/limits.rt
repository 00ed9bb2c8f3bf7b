// The most states that a model may have.
pub const STATES: usize = 512;

// The most choices, of all states together.
pub const CHOICES: usize = 2048;

// The most branches, of all choices together.
pub const BRANCHES: usize = 4096;

// The greatest denominator.
pub const DENOMINATOR: u32 = 1_000_000;

// The most bytes of a model's text.
pub const TEXT_BYTES: usize = 65_536;
