// How far an app has come.
use spawner::Child;

/// How far an app has come that has begun.
#[derive(Clone, Copy, PartialEq, Eq)]
pub(crate) enum Stand {
    /// Its main program was started.
    Running(Child),
    /// It wasn't, since the handler before it ended with this status.
    Ended(u8),
}
