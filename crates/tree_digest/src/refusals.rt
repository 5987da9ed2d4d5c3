//! The numbers of the refusals of listings, and the limits of listings.

/// The number of a line of no form.
pub const BAD_LINE: u8 = 40;

/// The number of a line out of order.
pub const NOT_SORTED: u8 = 41;

/// The number of a line whose parent is missing.
pub const NO_PARENT: u8 = 42;

/// The number of a listing with too many lines or bytes.
pub const TOO_MANY: u8 = 43;

/// The number of a line whose file is too long.
pub const FILE_TOO_LONG: u8 = 44;

/// The most lines of a listing.
pub const MAX_LINES: usize = 65_536;

/// The most bytes of a listing's text.
pub const MAX_BYTES: usize = 33_554_432;

/// The most bytes that are read of a listing: one more than it may have, so that a longer one is
/// told from the longest.
pub const MOST_OF_LISTING: usize = 33_554_433;

/// The most bytes of a file: 1 GiB.
pub const MAX_FILE: u64 = 1_073_741_824;

/// The most bytes of a link's target.
pub const MAX_TARGET: usize = 4_095;
