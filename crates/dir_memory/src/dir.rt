// A data folder in memory, as every directory.
ghost use Rattle.std.specs.Prelude.{◌≡◌, ◌≤◌, ℕ, List, length, take, drop, true, IfOk};
ghost use Rattle.dir_model.specs.Replies.{done_reply, opened_reply, names_reply, items_reply, read_reply};
ghost use Rattle.dir_trait.specs.DirCalls.{KeepsUnreadRoom};
ghost use Rattle.dir_memory.specs.Memories.{is_plain_reply, is_opening, is_reading, is_names_end, is_items_end};

use crate::memory::MemoryDir;
use crate::path_call::PathCall;
use dir_model::{
    Area, Bytes, DirError, Handle, Inner, Intent, Items, Mode, Names, NoMemory, Reply, Request,
    Spot, Which,
};
use dir_trait::Dir;
use std::alloc::Global;

// The answers that replies stand for.
fn done_of(reply: Reply) -> Result<(), DirError>
    requires { is_plain_reply reply ≡ true }
    ensures { done_reply result ≡ reply }
{
    match reply {
        Reply::Done => Ok(()),
        Reply::Refused { error, left: _ } => Err(error),
        _ => unreachable!(),
    }
}

fn opened_of(reply: Reply) -> Result<Handle, DirError>
    requires { is_opening reply ≡ true }
    ensures { opened_reply result ≡ reply }
{
    match reply {
        Reply::Opened(handle) => Ok(handle),
        Reply::Refused { error, left: _ } => Err(error),
        _ => unreachable!(),
    }
}

fn names_of(reply: Reply) -> Result<Names, DirError>
    requires { is_names_end reply ≡ true }
    ensures { names_reply result ≡ reply }
{
    match reply {
        Reply::Names(names) => Ok(names),
        Reply::Refused { error, left: _ } => Err(error),
        _ => unreachable!(),
    }
}

fn items_of(reply: Reply) -> Result<Items, DirError>
    requires { is_items_end reply ≡ true }
    ensures { items_reply result ≡ reply }
{
    match reply {
        Reply::Items(items) => Ok(items),
        Reply::Refused { error, left: _ } => Err(error),
        _ => unreachable!(),
    }
}

fn fill(room: &mut [u8], bytes: &[u8])
    requires { length bytes.now ≤ length room.old }
    ensures front { take (length bytes.now) room.new ≡ bytes.now }
    ensures rest { drop (length bytes.now) room.new ≡ drop (length bytes.now) room.old }
{
    room[..bytes.len()].copy_from_slice(bytes);
}

fn filled(reply: Reply, room: &mut [u8]) -> Result<usize, DirError>
    requires shape { is_reading reply ≡ true }
    requires fits { (bytes : List ℕ) → reply ≡ Reply.Read bytes → length bytes ≤ length room.old }
    ensures reply { read_reply room.new result ≡ reply }
    ensures filled { KeepsUnreadRoom room.old result room.new }
{
    match reply {
        Reply::Read(bytes) => {
            fill(room, bytes.as_slice());
            Ok(bytes.as_slice().len())
        }
        Reply::Refused { error, left: _ } => Err(error),
        _ => unreachable!(),
    }
}

impl MemoryDir {
    ghost use Rattle.std.specs.Prelude.{◌≡◌, true, false, IfErr, IfOk, IsErrOf};
    ghost use Rattle.dir_model.specs.Causes.{Rose};
    ghost use Rattle.dir_model.specs.Paths.{is_path};
    ghost use Rattle.dir_model.specs.Listings.{is_listing_request};
    ghost use Rattle.dir_model.specs.Replies.{asks_for_handle, asks_for_nothing, done_reply, opened_reply, may_refuse};
    ghost use Rattle.dir_model.specs.Local.{IsActive, IsUnopened};
    ghost use Rattle.dir_trait.specs.DirCalls.{DirCall};
    ghost use Rattle.dir_memory.specs.Memories.{MemoryFollows, may_be_called, is_numbered, dir_of_memory, short_of_memory};
    ghost use Rattle.dir_memory.specs.PathCalls.{path_request};

    // A call with a number whose Ok carries nothing.
    fn plain_call(&mut self, request: Request) -> Result<(), DirError>
        requires numbered { is_numbered request ≡ true }
        requires nothing { asks_for_nothing request ≡ true }
        requires plain { is_listing_request request ≡ false }
        requires may { may_be_called self.old.local request ≡ true }
        ensures cause { IsErrOf result DirError.Failed → Rose self.old.faults self.new.faults }
        ensures refusals { IfErr result (λ e. may_refuse request e ≡ true) }
        ensures called { DirCall true (dir_of_memory self.old) request (done_reply result) (dir_of_memory self.new) }
        ensures follows { MemoryFollows self.old request (done_reply result) self.new }
    {
        done_of(self.call(request))
    }

    // The same for a call whose Ok carries a handle.
    fn open_call(&mut self, request: Request) -> Result<Handle, DirError>
        requires numbered { is_numbered request ≡ true }
        requires handle { asks_for_handle request ≡ true }
        requires plain { is_listing_request request ≡ false }
        requires may { may_be_called self.old.local request ≡ true }
        ensures cause { IsErrOf result DirError.Failed → Rose self.old.faults self.new.faults }
        ensures refusals { IfErr result (λ e. may_refuse request e ≡ true) }
        ensures unopened { IfOk result (λ handle. IsUnopened self.old.local handle) }
        ensures called { DirCall true (dir_of_memory self.old) request (opened_reply result) (dir_of_memory self.new) }
        ensures follows { MemoryFollows self.old request (opened_reply result) self.new }
    {
        opened_of(self.call(request))
    }
}

fn inner_at(alloc: Global, spot: Spot, path: &str) -> Result<Inner, NoMemory>
    ensures { IfOk result (λ inner. inner ≡ record { spot = spot; path = path.now }) }
{
    let path = Bytes::of(alloc, path.as_bytes())?;
    Ok(Inner { spot, path })
}

impl MemoryDir {
    ghost use Rattle.std.specs.Prelude.{◌≡◌, length, true, IfErr, IfOk, IsErrOf};
    ghost use Rattle.std.specs.Ordering.{nat_cmp};
    ghost use Rattle.std.specs.Cmp.Lexicographic.{slice_cmp};
    ghost use Rattle.std.specs.List.Sorted.{IsStrictlySortedBy};
    ghost use Rattle.dir_model.specs.Causes.{Rose};
    ghost use Rattle.dir_model.specs.Paths.{is_path};
    ghost use Rattle.dir_model.specs.Listings.{item_names};
    ghost use Rattle.dir_model.specs.Replies.{done_reply, names_reply, items_reply, read_reply, may_refuse};
    ghost use Rattle.dir_model.specs.Local.{IsActive};
    ghost use Rattle.dir_trait.specs.DirCalls.{DirCall, AppendCall, ListCall, KeepsUnreadRoom};
    ghost use Rattle.dir_memory.specs.Memories.{MemoryFollows, FollowsListing, dir_of_memory};
    ghost use Rattle.dir_memory.specs.PathCalls.{path_request};

    fn path_call(
        &mut self,
        alloc: Global,
        kind: PathCall,
        spot: Spot,
        path: &str,
    ) -> Result<(), DirError>
        requires active { IsActive self.old.local }
        requires path { is_path path.now ≡ true }
        ensures cause { IsErrOf result DirError.Failed → Rose self.old.faults self.new.faults }
        ensures refusals { IfErr result (λ e. may_refuse (path_request kind (record { spot = spot; path = path.now })) e ≡ true) }
        ensures called { DirCall true (dir_of_memory self.old) (path_request kind (record { spot = spot; path = path.now })) (done_reply result) (dir_of_memory self.new) }
        ensures follows { MemoryFollows self.old (path_request kind (record { spot = spot; path = path.now })) (done_reply result) self.new }
    {
        match inner_at(alloc, spot, path) {
            Ok(inner) => self.plain_call(kind.request(inner)),
            Err(_) => {
                self.run_out();
                Err(DirError::NoMemory)
            }
        }
    }

    fn append_call(
        &mut self,
        alloc: Global,
        spot: Spot,
        path: &str,
        piece: &[u8],
    ) -> Result<(), DirError>
        requires active { IsActive self.old.local }
        requires path { is_path path.now ≡ true }
        ensures cause { IsErrOf result DirError.Failed → Rose self.old.faults self.new.faults }
        ensures refusals { IfErr result (λ e. may_refuse (Request.AppendIn (record { spot = spot; path = path.now }) piece.now) e ≡ true) }
        ensures called { DirCall true (dir_of_memory self.old) (Request.AppendIn (record { spot = spot; path = path.now }) piece.now) (done_reply result) (dir_of_memory self.new) }
        ensures follows { MemoryFollows self.old (Request.AppendIn (record { spot = spot; path = path.now }) piece.now) (done_reply result) self.new }
    {
        match append_at(alloc, spot, path, piece) {
            Ok(request) => self.plain_call(request),
            Err(_) => {
                self.run_out();
                Err(DirError::NoMemory)
            }
        }
    }

    fn read_call(
        &mut self,
        alloc: Global,
        spot: Spot,
        path: &str,
        at: u64,
        room: &mut [u8],
    ) -> Result<usize, DirError>
        requires active { IsActive self.old.local }
        requires path { is_path path.now ≡ true }
        ensures cause { IsErrOf result DirError.Failed → Rose self.old.faults self.new.faults }
        ensures refusals { IfErr result (λ e. may_refuse (Request.ReadIn (record { spot = spot; path = path.now }) at (length room.old)) e ≡ true) }
        ensures filled { KeepsUnreadRoom room.old result room.new }
        ensures called { DirCall true (dir_of_memory self.old) (Request.ReadIn (record { spot = spot; path = path.now }) at (length room.old)) (read_reply room.new result) (dir_of_memory self.new) }
        ensures follows { MemoryFollows self.old (Request.ReadIn (record { spot = spot; path = path.now }) at (length room.old)) (read_reply room.new result) self.new }
    {
        match read_at(alloc, spot, path, at, room) {
            Ok(request) => filled(self.call(request), room),
            Err(_) => {
                self.run_out();
                Err(DirError::NoMemory)
            }
        }
    }

    fn items_call(&mut self, alloc: Global, spot: Spot, path: &str) -> Result<Items, DirError>
        requires active { IsActive self.old.local }
        requires path { is_path path.now ≡ true }
        ensures cause { IsErrOf result DirError.Failed → Rose self.old.faults self.new.faults }
        ensures refusals { IfErr result (λ e. may_refuse (Request.ListIn (record { spot = spot; path = path.now })) e ≡ true) }
        ensures ordered { IfOk result (λ items. IsStrictlySortedBy (slice_cmp nat_cmp) (item_names items)) }
        ensures called { ListCall true (dir_of_memory self.old) (Request.ListIn (record { spot = spot; path = path.now })) (items_reply result) (dir_of_memory self.new) }
        ensures follows { FollowsListing self.old (Request.ListIn (record { spot = spot; path = path.now })) (items_reply result) self.new }
    {
        match inner_at(alloc, spot, path) {
            Ok(inner) => items_of(self.list(Request::ListIn(inner))),
            Err(_) => {
                self.run_out();
                Err(DirError::NoMemory)
            }
        }
    }

    fn names_call(&mut self, area: Area) -> Result<Names, DirError>
        requires active { IsActive self.old.local }
        ensures cause { IsErrOf result DirError.Failed → Rose self.old.faults self.new.faults }
        ensures refusals { IfErr result (λ e. may_refuse (Request.ListArea area) e ≡ true) }
        ensures ordered { IfOk result (λ names. IsStrictlySortedBy (slice_cmp nat_cmp) names) }
        ensures called { ListCall true (dir_of_memory self.old) (Request.ListArea area) (names_reply result) (dir_of_memory self.new) }
        ensures follows { FollowsListing self.old (Request.ListArea area) (names_reply result) self.new }
    {
        names_of(self.list(Request::ListArea(area)))
    }
}

fn append_at(alloc: Global, spot: Spot, path: &str, piece: &[u8]) -> Result<Request, NoMemory>
    ensures { IfOk result (λ request. request ≡ Request.AppendIn (record { spot = spot; path = path.now }) piece.now) }
{
    let inner = inner_at(alloc, spot, path)?;
    let piece = Bytes::of(alloc, piece)?;
    Ok(Request::AppendIn { inner, piece })
}

fn read_at(alloc: Global, spot: Spot, path: &str, at: u64, room: &[u8]) -> Result<Request, NoMemory>
    ensures { IfOk result (λ request. request ≡ Request.ReadIn (record { spot = spot; path = path.now }) at (length room.now)) }
{
    let inner = inner_at(alloc, spot, path)?;
    Ok(Request::ReadIn {
        inner,
        at,
        room: room.len() as u64,
    })
}

impl Dir for MemoryDir {
    ghost use Rattle.std.specs.Prelude.{◌≡◌, length, true, IfErr, IfOk, IsErrOf};
    ghost use Rattle.std.specs.Ordering.{nat_cmp};
    ghost use Rattle.std.specs.Cmp.Lexicographic.{slice_cmp};
    ghost use Rattle.std.specs.List.Sorted.{IsStrictlySortedBy};
    ghost use Rattle.dir_model.specs.Causes.{Rose};
    ghost use Rattle.dir_model.specs.Paths.{is_path};
    ghost use Rattle.dir_model.specs.Listings.{item_names};
    ghost use Rattle.dir_model.specs.Replies.{done_reply, opened_reply, names_reply, items_reply, read_reply, may_refuse};
    ghost use Rattle.dir_model.specs.Local.{nothing_local, IsActive, IsUnopened, IsOpen, IsUnlocked};
    ghost use Rattle.dir_trait.specs.DirCalls.{DirCall, AppendCall, ListCall, KeepsUnreadRoom};
    ghost use Rattle.dir_memory.specs.Memories.{MemoryFollows, FollowsListing, memory_given_up, dir_of_memory};

    ghost observed = { true };

    ghost shown = { λ d. dir_of_memory d };

    fn faults(&self) -> u64 {
        self.fault_count()
    }

    fn process(&self) -> u32 {
        self.number()
    }

    fn begin(&mut self, _alloc: Global, intent: Intent) -> Result<(), DirError>
        requires fresh { self.old.local ≡ nothing_local }
        ensures cause { IsErrOf result DirError.Failed → Rose self.old.faults self.new.faults }
        ensures refusals { IfErr result (λ e. may_refuse (Request.Begin intent) e ≡ true) }
        ensures called { DirCall true (dir_of_memory self.old) (Request.Begin intent) (done_reply result) (dir_of_memory self.new) }
        ensures follows { MemoryFollows self.old (Request.Begin intent) (done_reply result) self.new }
    {
        self.plain_call(Request::Begin(intent))
    }

    fn make_folder(&mut self, _alloc: Global, spot: Spot) -> Result<(), DirError>
        requires active { IsActive self.old.local }
        ensures cause { IsErrOf result DirError.Failed → Rose self.old.faults self.new.faults }
        ensures refusals { IfErr result (λ e. may_refuse (Request.MakeFolder spot) e ≡ true) }
        ensures called { DirCall true (dir_of_memory self.old) (Request.MakeFolder spot) (done_reply result) (dir_of_memory self.new) }
        ensures follows { MemoryFollows self.old (Request.MakeFolder spot) (done_reply result) self.new }
    {
        self.plain_call(Request::MakeFolder(spot))
    }

    fn move_folder(&mut self, _alloc: Global, from: Spot, to: Spot) -> Result<(), DirError>
        requires active { IsActive self.old.local }
        ensures cause { IsErrOf result DirError.Failed → Rose self.old.faults self.new.faults }
        ensures refusals { IfErr result (λ e. may_refuse (Request.MoveFolder from to) e ≡ true) }
        ensures called { DirCall true (dir_of_memory self.old) (Request.MoveFolder from to) (done_reply result) (dir_of_memory self.new) }
        ensures follows { MemoryFollows self.old (Request.MoveFolder from to) (done_reply result) self.new }
    {
        self.plain_call(Request::MoveFolder { from, to })
    }

    fn sync_area(&mut self, _alloc: Global, area: Area) -> Result<(), DirError>
        requires active { IsActive self.old.local }
        ensures cause { IsErrOf result DirError.Failed → Rose self.old.faults self.new.faults }
        ensures refusals { IfErr result (λ e. may_refuse (Request.SyncArea area) e ≡ true) }
        ensures called { DirCall true (dir_of_memory self.old) (Request.SyncArea area) (done_reply result) (dir_of_memory self.new) }
        ensures follows { MemoryFollows self.old (Request.SyncArea area) (done_reply result) self.new }
    {
        self.plain_call(Request::SyncArea(area))
    }

    fn remove_folder(&mut self, _alloc: Global, spot: Spot) -> Result<(), DirError>
        requires active { IsActive self.old.local }
        ensures cause { IsErrOf result DirError.Failed → Rose self.old.faults self.new.faults }
        ensures refusals { IfErr result (λ e. may_refuse (Request.RemoveFolder spot) e ≡ true) }
        ensures called { DirCall true (dir_of_memory self.old) (Request.RemoveFolder spot) (done_reply result) (dir_of_memory self.new) }
        ensures follows { MemoryFollows self.old (Request.RemoveFolder spot) (done_reply result) self.new }
    {
        self.plain_call(Request::RemoveFolder(spot))
    }

    fn try_lock(&mut self, _alloc: Global, handle: Handle, mode: Mode) -> Result<(), DirError>
        requires active { IsActive self.old.local }
        requires open { IsOpen self.old.local handle }
        requires unlocked { IsUnlocked self.old.local handle }
        ensures cause { IsErrOf result DirError.Failed → Rose self.old.faults self.new.faults }
        ensures refusals { IfErr result (λ e. may_refuse (Request.TryLock handle mode) e ≡ true) }
        ensures called { DirCall true (dir_of_memory self.old) (Request.TryLock handle mode) (done_reply result) (dir_of_memory self.new) }
        ensures follows { MemoryFollows self.old (Request.TryLock handle mode) (done_reply result) self.new }
    {
        self.plain_call(Request::TryLock { handle, mode })
    }

    fn open(&mut self, _alloc: Global, spot: Spot, which: Which) -> Result<Handle, DirError>
        requires active { IsActive self.old.local }
        ensures cause { IsErrOf result DirError.Failed → Rose self.old.faults self.new.faults }
        ensures refusals { IfErr result (λ e. may_refuse (Request.Open spot which) e ≡ true) }
        ensures unopened { IfOk result (λ handle. IsUnopened self.old.local handle) }
        ensures called { DirCall true (dir_of_memory self.old) (Request.Open spot which) (opened_reply result) (dir_of_memory self.new) }
        ensures follows { MemoryFollows self.old (Request.Open spot which) (opened_reply result) self.new }
    {
        self.open_call(Request::Open { spot, which })
    }

    fn open_area(&mut self, _alloc: Global, area: Area) -> Result<Handle, DirError>
        requires active { IsActive self.old.local }
        ensures cause { IsErrOf result DirError.Failed → Rose self.old.faults self.new.faults }
        ensures refusals { IfErr result (λ e. may_refuse (Request.OpenArea area) e ≡ true) }
        ensures unopened { IfOk result (λ handle. IsUnopened self.old.local handle) }
        ensures called { DirCall true (dir_of_memory self.old) (Request.OpenArea area) (opened_reply result) (dir_of_memory self.new) }
        ensures follows { MemoryFollows self.old (Request.OpenArea area) (opened_reply result) self.new }
    {
        self.open_call(Request::OpenArea(area))
    }

    fn make_dir_in(&mut self, alloc: Global, spot: Spot, path: &str) -> Result<(), DirError>
        requires active { IsActive self.old.local }
        requires path { is_path path.now ≡ true }
        ensures cause { IsErrOf result DirError.Failed → Rose self.old.faults self.new.faults }
        ensures refusals { IfErr result (λ e. may_refuse (Request.MakeDirIn (record { spot = spot; path = path.now })) e ≡ true) }
        ensures called { DirCall true (dir_of_memory self.old) (Request.MakeDirIn (record { spot = spot; path = path.now })) (done_reply result) (dir_of_memory self.new) }
        ensures follows { MemoryFollows self.old (Request.MakeDirIn (record { spot = spot; path = path.now })) (done_reply result) self.new }
    {
        self.path_call(alloc, PathCall::MakeDir, spot, path)
    }

    fn make_file_in(&mut self, alloc: Global, spot: Spot, path: &str) -> Result<(), DirError>
        requires active { IsActive self.old.local }
        requires path { is_path path.now ≡ true }
        ensures cause { IsErrOf result DirError.Failed → Rose self.old.faults self.new.faults }
        ensures refusals { IfErr result (λ e. may_refuse (Request.MakeFileIn (record { spot = spot; path = path.now })) e ≡ true) }
        ensures called { DirCall true (dir_of_memory self.old) (Request.MakeFileIn (record { spot = spot; path = path.now })) (done_reply result) (dir_of_memory self.new) }
        ensures follows { MemoryFollows self.old (Request.MakeFileIn (record { spot = spot; path = path.now })) (done_reply result) self.new }
    {
        self.path_call(alloc, PathCall::MakeFile, spot, path)
    }

    fn sync_in(&mut self, alloc: Global, spot: Spot, path: &str) -> Result<(), DirError>
        requires active { IsActive self.old.local }
        requires path { is_path path.now ≡ true }
        ensures cause { IsErrOf result DirError.Failed → Rose self.old.faults self.new.faults }
        ensures refusals { IfErr result (λ e. may_refuse (Request.SyncIn (record { spot = spot; path = path.now })) e ≡ true) }
        ensures called { DirCall true (dir_of_memory self.old) (Request.SyncIn (record { spot = spot; path = path.now })) (done_reply result) (dir_of_memory self.new) }
        ensures follows { MemoryFollows self.old (Request.SyncIn (record { spot = spot; path = path.now })) (done_reply result) self.new }
    {
        self.path_call(alloc, PathCall::Sync, spot, path)
    }

    fn remove_file_in(&mut self, alloc: Global, spot: Spot, path: &str) -> Result<(), DirError>
        requires active { IsActive self.old.local }
        requires path { is_path path.now ≡ true }
        ensures cause { IsErrOf result DirError.Failed → Rose self.old.faults self.new.faults }
        ensures refusals { IfErr result (λ e. may_refuse (Request.RemoveFileIn (record { spot = spot; path = path.now })) e ≡ true) }
        ensures called { DirCall true (dir_of_memory self.old) (Request.RemoveFileIn (record { spot = spot; path = path.now })) (done_reply result) (dir_of_memory self.new) }
        ensures follows { MemoryFollows self.old (Request.RemoveFileIn (record { spot = spot; path = path.now })) (done_reply result) self.new }
    {
        self.path_call(alloc, PathCall::RemoveFile, spot, path)
    }

    fn remove_dir_in(&mut self, alloc: Global, spot: Spot, path: &str) -> Result<(), DirError>
        requires active { IsActive self.old.local }
        requires path { is_path path.now ≡ true }
        ensures cause { IsErrOf result DirError.Failed → Rose self.old.faults self.new.faults }
        ensures refusals { IfErr result (λ e. may_refuse (Request.RemoveDirIn (record { spot = spot; path = path.now })) e ≡ true) }
        ensures called { DirCall true (dir_of_memory self.old) (Request.RemoveDirIn (record { spot = spot; path = path.now })) (done_reply result) (dir_of_memory self.new) }
        ensures follows { MemoryFollows self.old (Request.RemoveDirIn (record { spot = spot; path = path.now })) (done_reply result) self.new }
    {
        self.path_call(alloc, PathCall::RemoveDir, spot, path)
    }

    fn append_in(
        &mut self,
        alloc: Global,
        spot: Spot,
        path: &str,
        piece: &[u8],
    ) -> Result<(), DirError>
        requires active { IsActive self.old.local }
        requires path { is_path path.now ≡ true }
        ensures cause { IsErrOf result DirError.Failed → Rose self.old.faults self.new.faults }
        ensures refusals { IfErr result (λ e. may_refuse (Request.AppendIn (record { spot = spot; path = path.now }) piece.now) e ≡ true) }
        ensures called { AppendCall true (dir_of_memory self.old) (Request.AppendIn (record { spot = spot; path = path.now }) piece.now) result (dir_of_memory self.new) }
        ensures follows { MemoryFollows self.old (Request.AppendIn (record { spot = spot; path = path.now }) piece.now) (done_reply result) self.new }
    {
        self.append_call(alloc, spot, path, piece)
    }

    fn read_in(
        &mut self,
        alloc: Global,
        spot: Spot,
        path: &str,
        at: u64,
        room: &mut [u8],
    ) -> Result<usize, DirError>
        requires active { IsActive self.old.local }
        requires path { is_path path.now ≡ true }
        ensures cause { IsErrOf result DirError.Failed → Rose self.old.faults self.new.faults }
        ensures refusals { IfErr result (λ e. may_refuse (Request.ReadIn (record { spot = spot; path = path.now }) at (length room.old)) e ≡ true) }
        ensures filled { KeepsUnreadRoom room.old result room.new }
        ensures called { DirCall true (dir_of_memory self.old) (Request.ReadIn (record { spot = spot; path = path.now }) at (length room.old)) (read_reply room.new result) (dir_of_memory self.new) }
        ensures follows { MemoryFollows self.old (Request.ReadIn (record { spot = spot; path = path.now }) at (length room.old)) (read_reply room.new result) self.new }
    {
        self.read_call(alloc, spot, path, at, room)
    }

    fn list_in(&mut self, alloc: Global, spot: Spot, path: &str) -> Result<Items, DirError>
        requires active { IsActive self.old.local }
        requires path { is_path path.now ≡ true }
        ensures cause { IsErrOf result DirError.Failed → Rose self.old.faults self.new.faults }
        ensures refusals { IfErr result (λ e. may_refuse (Request.ListIn (record { spot = spot; path = path.now })) e ≡ true) }
        ensures ordered { IfOk result (λ items. IsStrictlySortedBy (slice_cmp nat_cmp) (item_names items)) }
        ensures called { ListCall true (dir_of_memory self.old) (Request.ListIn (record { spot = spot; path = path.now })) (items_reply result) (dir_of_memory self.new) }
        ensures follows { FollowsListing self.old (Request.ListIn (record { spot = spot; path = path.now })) (items_reply result) self.new }
    {
        self.items_call(alloc, spot, path)
    }

    fn list_area(&mut self, _alloc: Global, area: Area) -> Result<Names, DirError>
        requires active { IsActive self.old.local }
        ensures cause { IsErrOf result DirError.Failed → Rose self.old.faults self.new.faults }
        ensures refusals { IfErr result (λ e. may_refuse (Request.ListArea area) e ≡ true) }
        ensures ordered { IfOk result (λ names. IsStrictlySortedBy (slice_cmp nat_cmp) names) }
        ensures called { ListCall true (dir_of_memory self.old) (Request.ListArea area) (names_reply result) (dir_of_memory self.new) }
        ensures follows { FollowsListing self.old (Request.ListArea area) (names_reply result) self.new }
    {
        self.names_call(area)
    }

    fn close(&mut self, handle: Handle)
        requires active { IsActive self.old.local }
        requires open { IsOpen self.old.local handle }
        ensures faultless { self.new.faults ≡ self.old.faults }
        ensures called { DirCall true (dir_of_memory self.old) (Request.Close handle) Reply.Done (dir_of_memory self.new) }
        ensures follows { self.new ≡ memory_given_up self.old (Request.Close handle) }
    {
        self.give_up_handle(handle)
    }

    fn finish(&mut self)
        requires active { IsActive self.old.local }
        ensures faultless { self.new.faults ≡ self.old.faults }
        ensures called { DirCall true (dir_of_memory self.old) Request.Finish Reply.Done (dir_of_memory self.new) }
        ensures follows { self.new ≡ memory_given_up self.old Request.Finish }
    {
        self.give_up()
    }
}
