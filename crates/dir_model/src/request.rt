// Requests and replies.
ghost use Rattle.std.specs.Prelude.{◌≡◌, false, is_some, IfOk};
ghost use Rattle.dir_model.specs.Paths.{inner_of};

use crate::area::Area;
use crate::intent::Intent;
use crate::item::Inner;
use crate::memory::NoMemory;
use crate::sequence::{Bytes, Items, Names};
use crate::spot::{Handle, Mode, Spot, Which};

/// Why a call on the directory was refused.
#[derive(Clone, Copy, Debug, PartialEq, Eq)]
pub enum DirError {
    /// There is no such folder, nothing of the wanted kind at that path, or its parent is no
    /// directory.
    Missing,
    /// Something stands at that location or path already.
    Exists,
    /// The directory holds something.
    NotEmpty,
    /// Another handle holds the lock in a mode that conflicts.
    Locked,
    /// The directory failed.
    Failed,
    /// Memory ran out.
    NoMemory,
}

/// What a process asks of the directory.
#[derive(Drop)]
pub enum Request {
    Begin(Intent),
    MakeFolder(Spot),
    MoveFolder { from: Spot, to: Spot },
    Open { spot: Spot, which: Which },
    OpenArea(Area),
    TryLock { handle: Handle, mode: Mode },
    Close(Handle),
    ListArea(Area),
    ListIn(Inner),
    MakeDirIn(Inner),
    MakeFileIn(Inner),
    AppendIn { inner: Inner, piece: Bytes },
    ReadIn { inner: Inner, at: u64, room: u64 },
    SyncIn(Inner),
    SyncArea(Area),
    RemoveFileIn(Inner),
    RemoveDirIn(Inner),
    RemoveFolder(Spot),
    Finish,
    Kill,
}

/// What it is answered. `left` is the number of bytes of its piece that a refused append left, and 0
/// for every other request.
#[derive(Drop)]
pub enum Reply {
    /// Ok, where that carries nothing.
    Done,
    /// A listing has begun, whatever its end answers.
    Begun,
    Opened(Handle),
    Names(Names),
    Items(Items),
    Read(Bytes),
    Refused { error: DirError, left: u64 },
}

impl Request {
    // A request that holds no path.
    fn plain_copy(&self) -> Request
        requires { is_some (inner_of self.now) ≡ false }
        ensures { result ≡ self.now }
    {
        match self {
            Request::Begin(intent) => Request::Begin(*intent),
            Request::MakeFolder(spot) => Request::MakeFolder(*spot),
            Request::MoveFolder { from, to } => Request::MoveFolder {
                from: *from,
                to: *to,
            },
            Request::Open { spot, which } => Request::Open {
                spot: *spot,
                which: *which,
            },
            Request::OpenArea(area) => Request::OpenArea(*area),
            Request::TryLock { handle, mode } => Request::TryLock {
                handle: *handle,
                mode: *mode,
            },
            Request::Close(handle) => Request::Close(*handle),
            Request::ListArea(area) => Request::ListArea(*area),
            Request::SyncArea(area) => Request::SyncArea(*area),
            Request::RemoveFolder(spot) => Request::RemoveFolder(*spot),
            Request::Finish => Request::Finish,
            Request::Kill => Request::Kill,
            _ => unreachable!(),
        }
    }

    /// An equal request. Refused only where memory ran out.
    pub fn copy(&self) -> Result<Request, NoMemory>
        ensures { IfOk result (λ copy. copy ≡ self.now) }
    {
        Ok(match self {
            Request::ListIn(inner) => Request::ListIn(inner.copy()?),
            Request::MakeDirIn(inner) => Request::MakeDirIn(inner.copy()?),
            Request::MakeFileIn(inner) => Request::MakeFileIn(inner.copy()?),
            Request::AppendIn { inner, piece } => Request::AppendIn {
                inner: inner.copy()?,
                piece: piece.copy()?,
            },
            Request::ReadIn { inner, at, room } => Request::ReadIn {
                inner: inner.copy()?,
                at: *at,
                room: *room,
            },
            Request::SyncIn(inner) => Request::SyncIn(inner.copy()?),
            Request::RemoveFileIn(inner) => Request::RemoveFileIn(inner.copy()?),
            Request::RemoveDirIn(inner) => Request::RemoveDirIn(inner.copy()?),
            _ => self.plain_copy(),
        })
    }
}

impl Reply {
    /// An equal reply. Refused only where memory ran out.
    pub fn copy(&self) -> Result<Reply, NoMemory>
        ensures { IfOk result (λ copy. copy ≡ self.now) }
    {
        Ok(match self {
            Reply::Done => Reply::Done,
            Reply::Begun => Reply::Begun,
            Reply::Opened(handle) => Reply::Opened(*handle),
            Reply::Names(names) => Reply::Names(names.copy()?),
            Reply::Items(items) => Reply::Items(items.copy()?),
            Reply::Read(bytes) => Reply::Read(bytes.copy()?),
            Reply::Refused { error, left } => Reply::Refused {
                error: *error,
                left: *left,
            },
        })
    }
}
