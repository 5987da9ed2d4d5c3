// The two passes of a sweep.
ghost use Rattle.std.specs.Prelude.{◌≡◌};
ghost use Rattle.image_removal.specs.Passes.{area_of_pass, line_of};

use dir_trait::{Area, Name};

/// What a sweep did with a folder, or that it did nothing in an area.
#[derive(Clone, Copy)]
pub enum SweepLine {
    /// A folder that a dead import left in incoming was moved to removed.
    Moved(Name),
    /// A folder in removed was deleted.
    Deleted(Name),
    /// The lock of this area, incoming or removed, is held by another process.
    BusyGate(Area),
}

/// A pass of a sweep: what it goes through, and what it does with each folder there.
#[derive(Clone, Copy, Debug, PartialEq, Eq)]
pub enum Pass {
    /// The folders of incoming are moved to removed.
    PutAway,
    /// The folders of removed are deleted.
    Delete,
}

impl Pass {
    /// The area that it goes through.
    pub(crate) fn area(self) -> Area
        ensures { result ≡ area_of_pass self }
    {
        match self {
            Pass::PutAway => Area::Incoming,
            Pass::Delete => Area::Removed,
        }
    }

    /// What it says of a folder.
    pub(crate) fn line(self, name: Name) -> SweepLine
        ensures { result ≡ line_of self name }
    {
        match self {
            Pass::PutAway => SweepLine::Moved(name),
            Pass::Delete => SweepLine::Deleted(name),
        }
    }
}
