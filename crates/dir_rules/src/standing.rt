// What a process knows of locks and places.
use dir_model::{Handle, Intent, Mode, Names, Sequence, Spot, Target};

/// An open handle, as the rules see it.
#[derive(Clone, Copy)]
pub struct Held {
    pub handle: Handle,
    pub target: Target,
    pub lock: Option<Mode>,
    /// Of a pod's own lock, opened in prepared: the process held the pod's activation lock then and
    /// has held it since, and hasn't moved the pod.
    pub covered: bool,
}

/// What a process knows of locks and places by its own answers.
#[derive(Drop)]
pub struct Standing {
    /// None where it hasn't begun.
    pub intent: Option<Intent>,
    /// It made a pod's folder.
    pub made: bool,
    /// The pod that it made stands in embryo, and it has held that area's lock since before.
    pub embryo_under_lock: bool,
    /// The newest first.
    pub holdings: Sequence<Held>,
    /// Where its moves of pods led, the newest first.
    pub moves: Sequence<Spot>,
    /// Where a pod's own lock was opened that it then had shared.
    pub seen_unowned: Sequence<Spot>,
    /// The pods whose own lock it had shared by a covered handle, and whose activation lock it has
    /// held since before.
    pub seen_unowned_under_claim: Names,
}
