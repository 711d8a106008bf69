// The version, which is the same for all programs.

pub const VERSION: &str = "0.6.0";
