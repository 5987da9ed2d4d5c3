//! The numbers of the refusals of pod manifests, and what each pod manifest has.

/// The number of an app whose name an earlier app has.
pub const APP_TWICE: u8 = 90;

/// The number of an app that runs no program.
pub const NO_EXEC: u8 = 91;

/// The number of an image that has no app.
pub const NO_APP: u8 = 92;

/// The number of too many apps.
pub const TOO_MANY_APPS: u8 = 93;

/// The number of a mount whose volume is not among those that were asked for.
pub const NO_VOLUME: u8 = 94;

/// The most apps of a pod that is made from images.
pub const MAX_APPS: usize = 64;
