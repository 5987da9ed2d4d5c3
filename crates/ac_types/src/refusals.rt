//! The refusals and the limits of names, IDs and references.

/// The number by which a text that is no image ID is refused.
pub const BAD_ID: u8 = 3;

/// The number by which a word that is no image reference is refused.
pub const BAD_REF: u8 = 4;

/// The most bytes of an AC Name.
pub const MAX_NAME: usize = 200;

/// The most bytes of an AC Identifier.
pub const MAX_IDENTIFIER: usize = 1_024;

/// The fewest hex digits by which an image is named.
pub const MIN_DIGITS: usize = 2;

/// The hex digits of an image ID.
pub const ID_DIGITS: usize = 128;

/// The most bytes that are read of a file with an image ID: one more than an ID and a line end.
pub const MOST_OF_ID: usize = 137;
