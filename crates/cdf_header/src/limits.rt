//! The limits of a header that is read.

/// The most bytes of a file in which its header is sought.
pub const MOST_HEADER_BYTES: u64 = 16_777_216;

/// The most dimensions.
pub const MOST_DIMENSIONS: u64 = 1_024;

/// The most attributes of the file, and of a variable.
pub const MOST_ATTRIBUTES: u64 = 8_192;

/// The most variables.
pub const MOST_VARIABLES: u64 = 8_192;

/// The most dimensions of a variable.
pub const MOST_RANK: u64 = 1_024;
