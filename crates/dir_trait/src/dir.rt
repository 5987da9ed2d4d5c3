// The calls on a shared data folder. Events of other processes may come before each of them.
ghost use Rattle.std.specs.Prelude.{◌≡◌, Bool, true, length, IfErr, IfOk, IsErrOf};
ghost use Rattle.std.specs.Ordering.{nat_cmp};
ghost use Rattle.std.specs.Cmp.Lexicographic.{slice_cmp};
ghost use Rattle.std.specs.List.Sorted.{IsStrictlySortedBy};
ghost use Rattle.dir_model.specs.Causes.{Rose};
ghost use Rattle.dir_model.specs.Paths.{is_path};
ghost use Rattle.dir_model.specs.Listings.{item_names};
ghost use Rattle.dir_model.specs.Replies.{done_reply, opened_reply, names_reply, items_reply, read_reply, may_refuse};
ghost use Rattle.dir_model.specs.Local.{nothing_local, IsActive, IsUnopened, IsOpen, IsUnlocked};
ghost use Rattle.dir_trait.specs.DirCalls.{DirCall, AppendCall, ListCall, KeepsUnreadRoom};

use dir_model::{Area, DirError, Handle, Intent, Items, Mode, Names, Reply, Request, Spot, Which};
use std::alloc::Global;

/// A shared data folder, as one process sees it. A path inside a folder is file names parted by `/`;
/// the empty path is the folder itself.
pub trait Dir {
    ghost use Rattle.dir_trait.specs.DirCalls.{DirAt};

    /// Whether its trace is observed. A directory of the host observes none.
    ghost observed: { Bool };

    /// What it shows at a moment: the process with its calls and what it has open, the faults, and
    /// the trace where that is observed.
    ghost shown: { Self → DirAt };

    /// How often the directory failed so far. The count never falls.
    fn faults(&self) -> u64
        ensures { result ≡ (shown self.now).faults };

    /// The number of this process.
    fn process(&self) -> u32
        ensures { result ≡ (shown self.now).process };

    /// The process begins. From then on it has room for its end. Refused only where memory ran out.
    fn begin(&mut self, alloc: Global, intent: Intent) -> Result<(), DirError>
        requires fresh { (shown self.old).local ≡ nothing_local }
        ensures cause { IsErrOf result DirError.Failed → Rose (shown self.old).faults (shown self.new).faults }
        ensures refusals { IfErr result (λ e. may_refuse (Request.Begin intent) e ≡ true) }
        ensures called { DirCall observed (shown self.old) (Request.Begin intent) (done_reply result) (shown self.new) };

    /// Makes an empty folder. `Exists` where one stands at the location.
    fn make_folder(&mut self, alloc: Global, spot: Spot) -> Result<(), DirError>
        requires active { IsActive (shown self.old).local }
        ensures cause { IsErrOf result DirError.Failed → Rose (shown self.old).faults (shown self.new).faults }
        ensures refusals { IfErr result (λ e. may_refuse (Request.MakeFolder spot) e ≡ true) }
        ensures called { DirCall observed (shown self.old) (Request.MakeFolder spot) (done_reply result) (shown self.new) };

    /// Moves a folder, and its locks with it. `Missing` where none stands at `from`, `Exists` where one
    /// stands at `to`.
    fn move_folder(&mut self, alloc: Global, from: Spot, to: Spot) -> Result<(), DirError>
        requires active { IsActive (shown self.old).local }
        ensures cause { IsErrOf result DirError.Failed → Rose (shown self.old).faults (shown self.new).faults }
        ensures refusals { IfErr result (λ e. may_refuse (Request.MoveFolder from to) e ≡ true) }
        ensures called { DirCall observed (shown self.old) (Request.MoveFolder from to) (done_reply result) (shown self.new) };

    /// Opens a lock of the folder at a location. `Missing` where none stands there, and for the
    /// activation lock also where it has no file `pod`.
    fn open(&mut self, alloc: Global, spot: Spot, which: Which) -> Result<Handle, DirError>
        requires active { IsActive (shown self.old).local }
        ensures cause { IsErrOf result DirError.Failed → Rose (shown self.old).faults (shown self.new).faults }
        ensures refusals { IfErr result (λ e. may_refuse (Request.Open spot which) e ≡ true) }
        ensures unopened { IfOk result (λ handle. IsUnopened (shown self.old).local handle) }
        ensures called { DirCall observed (shown self.old) (Request.Open spot which) (opened_reply result) (shown self.new) };

    /// Opens the lock of an area.
    fn open_area(&mut self, alloc: Global, area: Area) -> Result<Handle, DirError>
        requires active { IsActive (shown self.old).local }
        ensures cause { IsErrOf result DirError.Failed → Rose (shown self.old).faults (shown self.new).faults }
        ensures refusals { IfErr result (λ e. may_refuse (Request.OpenArea area) e ≡ true) }
        ensures unopened { IfOk result (λ handle. IsUnopened (shown self.old).local handle) }
        ensures called { DirCall observed (shown self.old) (Request.OpenArea area) (opened_reply result) (shown self.new) };

    /// Takes the lock of a handle that holds none. `Locked` where another handle holds it in a mode that
    /// conflicts.
    fn try_lock(&mut self, alloc: Global, handle: Handle, mode: Mode) -> Result<(), DirError>
        requires active { IsActive (shown self.old).local }
        requires open { IsOpen (shown self.old).local handle }
        requires unlocked { IsUnlocked (shown self.old).local handle }
        ensures cause { IsErrOf result DirError.Failed → Rose (shown self.old).faults (shown self.new).faults }
        ensures refusals { IfErr result (λ e. may_refuse (Request.TryLock handle mode) e ≡ true) }
        ensures called { DirCall observed (shown self.old) (Request.TryLock handle mode) (done_reply result) (shown self.new) };

    /// Gives the handle up, and its lock. Takes no memory.
    fn close(&mut self, handle: Handle)
        requires active { IsActive (shown self.old).local }
        requires open { IsOpen (shown self.old).local handle }
        ensures faultless { (shown self.new).faults ≡ (shown self.old).faults }
        ensures called { DirCall observed (shown self.old) (Request.Close handle) Reply.Done (shown self.new) };

    /// The names of the folders in an area, in byte order, each once: each that stands there from the
    /// beginning of the listing to its end, and only such as stood there at a moment between.
    fn list_area(&mut self, alloc: Global, area: Area) -> Result<Names, DirError>
        requires active { IsActive (shown self.old).local }
        ensures cause { IsErrOf result DirError.Failed → Rose (shown self.old).faults (shown self.new).faults }
        ensures refusals { IfErr result (λ e. may_refuse (Request.ListArea area) e ≡ true) }
        ensures ordered { IfOk result (λ names. IsStrictlySortedBy (slice_cmp nat_cmp) names) }
        ensures called { ListCall observed (shown self.old) (Request.ListArea area) (names_reply result) (shown self.new) };

    /// What stands in a directory of a folder, in byte order of the names, each once, as for an area.
    /// `Missing` where no directory stands at the path when the listing begins. From then on it is
    /// about that folder, wherever the folder is moved.
    fn list_in(&mut self, alloc: Global, spot: Spot, path: &str) -> Result<Items, DirError>
        requires active { IsActive (shown self.old).local }
        requires path { is_path path.now ≡ true }
        ensures cause { IsErrOf result DirError.Failed → Rose (shown self.old).faults (shown self.new).faults }
        ensures refusals { IfErr result (λ e. may_refuse (Request.ListIn (record { spot = spot; path = path.now })) e ≡ true) }
        ensures ordered { IfOk result (λ items. IsStrictlySortedBy (slice_cmp nat_cmp) (item_names items)) }
        ensures called { ListCall observed (shown self.old) (Request.ListIn (record { spot = spot; path = path.now })) (items_reply result) (shown self.new) };

    /// Makes an empty directory in a folder. `Exists` where something stands at the path, `Missing` where
    /// its parent is no directory.
    fn make_dir_in(&mut self, alloc: Global, spot: Spot, path: &str) -> Result<(), DirError>
        requires active { IsActive (shown self.old).local }
        requires path { is_path path.now ≡ true }
        ensures cause { IsErrOf result DirError.Failed → Rose (shown self.old).faults (shown self.new).faults }
        ensures refusals { IfErr result (λ e. may_refuse (Request.MakeDirIn (record { spot = spot; path = path.now })) e ≡ true) }
        ensures called { DirCall observed (shown self.old) (Request.MakeDirIn (record { spot = spot; path = path.now })) (done_reply result) (shown self.new) };

    /// Makes an empty file in a folder. `Exists` where something stands at the path, `Missing` where its
    /// parent is no directory.
    fn make_file_in(&mut self, alloc: Global, spot: Spot, path: &str) -> Result<(), DirError>
        requires active { IsActive (shown self.old).local }
        requires path { is_path path.now ≡ true }
        ensures cause { IsErrOf result DirError.Failed → Rose (shown self.old).faults (shown self.new).faults }
        ensures refusals { IfErr result (λ e. may_refuse (Request.MakeFileIn (record { spot = spot; path = path.now })) e ≡ true) }
        ensures called { DirCall observed (shown self.old) (Request.MakeFileIn (record { spot = spot; path = path.now })) (done_reply result) (shown self.new) };

    /// Adds bytes at the end of a file. `Missing` where no file stands at the path. Where it is refused
    /// by a fault, the file may have got the first bytes of the piece.
    fn append_in(
        &mut self,
        alloc: Global,
        spot: Spot,
        path: &str,
        piece: &[u8],
    ) -> Result<(), DirError>
        requires active { IsActive (shown self.old).local }
        requires path { is_path path.now ≡ true }
        ensures cause { IsErrOf result DirError.Failed → Rose (shown self.old).faults (shown self.new).faults }
        ensures refusals { IfErr result (λ e. may_refuse (Request.AppendIn (record { spot = spot; path = path.now }) piece.now) e ≡ true) }
        ensures called { AppendCall observed (shown self.old) (Request.AppendIn (record { spot = spot; path = path.now }) piece.now) result (shown self.new) };

    /// Fills the room with the bytes of a file, from byte `at` on, and answers how many it filled: fewer
    /// than the room has only at the file's end. `Missing` where no file stands at the path.
    fn read_in(
        &mut self,
        alloc: Global,
        spot: Spot,
        path: &str,
        at: u64,
        room: &mut [u8],
    ) -> Result<usize, DirError>
        requires active { IsActive (shown self.old).local }
        requires path { is_path path.now ≡ true }
        ensures cause { IsErrOf result DirError.Failed → Rose (shown self.old).faults (shown self.new).faults }
        ensures refusals { IfErr result (λ e. may_refuse (Request.ReadIn (record { spot = spot; path = path.now }) at (length room.old)) e ≡ true) }
        ensures filled { KeepsUnreadRoom room.old result room.new }
        ensures called { DirCall observed (shown self.old) (Request.ReadIn (record { spot = spot; path = path.now }) at (length room.old)) (read_reply room.new result) (shown self.new) };

    /// Brings a file, or the names in a directory, to the disk. `Missing` where neither stands at the
    /// path.
    fn sync_in(&mut self, alloc: Global, spot: Spot, path: &str) -> Result<(), DirError>
        requires active { IsActive (shown self.old).local }
        requires path { is_path path.now ≡ true }
        ensures cause { IsErrOf result DirError.Failed → Rose (shown self.old).faults (shown self.new).faults }
        ensures refusals { IfErr result (λ e. may_refuse (Request.SyncIn (record { spot = spot; path = path.now })) e ≡ true) }
        ensures called { DirCall observed (shown self.old) (Request.SyncIn (record { spot = spot; path = path.now })) (done_reply result) (shown self.new) };

    /// Brings the names in an area to the disk.
    fn sync_area(&mut self, alloc: Global, area: Area) -> Result<(), DirError>
        requires active { IsActive (shown self.old).local }
        ensures cause { IsErrOf result DirError.Failed → Rose (shown self.old).faults (shown self.new).faults }
        ensures refusals { IfErr result (λ e. may_refuse (Request.SyncArea area) e ≡ true) }
        ensures called { DirCall observed (shown self.old) (Request.SyncArea area) (done_reply result) (shown self.new) };

    /// Removes a file, or what is neither file nor directory. `Missing` where no such thing stands at
    /// the path.
    fn remove_file_in(&mut self, alloc: Global, spot: Spot, path: &str) -> Result<(), DirError>
        requires active { IsActive (shown self.old).local }
        requires path { is_path path.now ≡ true }
        ensures cause { IsErrOf result DirError.Failed → Rose (shown self.old).faults (shown self.new).faults }
        ensures refusals { IfErr result (λ e. may_refuse (Request.RemoveFileIn (record { spot = spot; path = path.now })) e ≡ true) }
        ensures called { DirCall observed (shown self.old) (Request.RemoveFileIn (record { spot = spot; path = path.now })) (done_reply result) (shown self.new) };

    /// Removes a directory in a folder. `Missing` where none stands at the path, and for the empty path;
    /// `NotEmpty` where it holds something.
    fn remove_dir_in(&mut self, alloc: Global, spot: Spot, path: &str) -> Result<(), DirError>
        requires active { IsActive (shown self.old).local }
        requires path { is_path path.now ≡ true }
        ensures cause { IsErrOf result DirError.Failed → Rose (shown self.old).faults (shown self.new).faults }
        ensures refusals { IfErr result (λ e. may_refuse (Request.RemoveDirIn (record { spot = spot; path = path.now })) e ≡ true) }
        ensures called { DirCall observed (shown self.old) (Request.RemoveDirIn (record { spot = spot; path = path.now })) (done_reply result) (shown self.new) };

    /// Removes a folder. `Missing` where none stands at the location, `NotEmpty` where it holds something.
    fn remove_folder(&mut self, alloc: Global, spot: Spot) -> Result<(), DirError>
        requires active { IsActive (shown self.old).local }
        ensures cause { IsErrOf result DirError.Failed → Rose (shown self.old).faults (shown self.new).faults }
        ensures refusals { IfErr result (λ e. may_refuse (Request.RemoveFolder spot) e ≡ true) }
        ensures called { DirCall observed (shown self.old) (Request.RemoveFolder spot) (done_reply result) (shown self.new) };

    /// The process ends, and gives up its handles and locks. Takes no memory.
    fn finish(&mut self)
        requires active { IsActive (shown self.old).local }
        ensures faultless { (shown self.new).faults ≡ (shown self.old).faults }
        ensures called { DirCall observed (shown self.old) Request.Finish Reply.Done (shown self.new) };
}
