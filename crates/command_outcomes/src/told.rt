// What a command tells that runs apps.
use crate::output::Output;

/// The text that a command prints, and whether all went well: false only where a pod was run and one of its apps
/// ended with another status than 0.
#[derive(Drop)]
pub struct Told {
    pub text: Output,
    pub well: bool,
}
