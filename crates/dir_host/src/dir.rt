// A folder of the host is a `Dir`.
ghost use Rattle.std.specs.Prelude.{◌≡◌, ◌≤◌};
ghost use Rattle.dir_model.specs.Causes.{Rose};
ghost use Rattle.dir_model.specs.Local.{nothing_local};
ghost use Rattle.dir_host.specs.Counts.{CountsRefusal};

use crate::locks::{lock_handle, open_lock};
use crate::open_folders::{OpenFolder, give_up, keep, set_lock, target_of};
use dir_trait::{
    Area, Dir, DirError, Handle, Intent, Items, Mode, Names, Reply, Request, Spot, Target, Which,
};
use host_files::{Reached, Started};
use std::alloc::Global;
use std::fs::File;
use std::rt::Files;

/// A data folder of the host, as one process uses it. Pods stand in `pods/AREA/UUID`, what belongs
/// to the store in `store/AREA`. Each failure of the system is counted once.
#[derive(Drop)]
pub struct HostDir<R: Files<File = File> + AllocGlobal + Clone + Drop> {
    rt: R,
    root: String,
    process: u32,
    faults: u64,
    intent: Option<Intent>,
    finished: bool,
    folders: Vec<OpenFolder>,
    reached: Option<Reached>,
    started: Option<Started>,
}

impl<R: Files<File = File> + AllocGlobal + Clone + Drop> HostDir<R> {
    /// The data folder at a path, of a process that hasn't begun.
    pub fn new(alloc: Global, rt: R, root: String, process: u32) -> HostDir<R>
        ensures local { (⟦<HostDir<R> as Dir>⟧.shown result).local ≡ nothing_local }
        ensures process { (⟦<HostDir<R> as Dir>⟧.shown result).process ≡ process }
        ensures faults { (⟦<HostDir<R> as Dir>⟧.shown result).faults ≡ 0 }
    {
        HostDir {
            rt,
            root,
            process,
            faults: 0,
            intent: None,
            finished: false,
            folders: Vec::new(alloc),
            reached: None,
            started: None,
        }
    }
}

/// Counts a failure, and hands the refusal on.
fn counted(faults: &mut u64, error: DirError) -> DirError
    ensures same { result ≡ error }
    ensures kept { faults.old ≤ faults.new }
    ensures cause { result ≡ DirError.Failed → Rose faults.old faults.new }
    ensures counts { CountsRefusal DirError.Failed result faults.old faults.new }
{
    if error == DirError::Failed {
        *faults = faults.saturating_add(1);
    }
    error
}

impl<R: Files<File = File> + AllocGlobal + Clone + Drop> Dir for HostDir<R> {
    ghost use Rattle.std.specs.Prelude.{◌≡◌, ◌≢◌, length, true, false, [], Err, IfErr, IfOk, IsErrOf, OnOk};
    ghost use Rattle.std.specs.Ordering.{nat_cmp};
    ghost use Rattle.std.specs.Cmp.Lexicographic.{slice_cmp};
    ghost use Rattle.std.specs.List.Sorted.{IsStrictlySortedBy};
    ghost use Rattle.dir_model.specs.Causes.{Rose};
    ghost use Rattle.dir_model.specs.Paths.{is_path};
    ghost use Rattle.dir_model.specs.Listings.{item_names};
    ghost use Rattle.dir_model.specs.Replies.{done_reply, opened_reply, names_reply, items_reply, read_reply, may_refuse};
    ghost use Rattle.dir_model.specs.Local.{nothing_local, IsActive, IsUnopened, IsOpen, IsUnlocked};
    ghost use Rattle.dir_trait.specs.DirCalls.{DirCall, AppendCall, ListCall, KeepsUnreadRoom};
    ghost use Rattle.host_files.specs.Places.{has_dots};
    ghost use Rattle.dir_host.specs.Counts.{Counts};
    ghost use Rattle.dir_host.specs.Shown.{dir_shown};

    ghost observed = { false };

    ghost shown = { λ d. dir_shown d };

    fn faults(&self) -> u64 {
        self.faults
    }

    fn process(&self) -> u32 {
        self.process
    }

    fn begin(&mut self, _alloc: Global, intent: Intent) -> Result<(), DirError>
        requires fresh { (dir_shown self.old).local ≡ nothing_local }
        ensures cause { IsErrOf result DirError.Failed → Rose self.old.faults self.new.faults }
        ensures counts { Counts DirError.Failed result self.old.faults self.new.faults }
        ensures refusals { IfErr result (λ e. may_refuse (Request.Begin intent) e ≡ true) }
        ensures called { DirCall false (dir_shown self.old) (Request.Begin intent) (done_reply result) (dir_shown self.new) }
    {
        self.intent = Some(intent);
        Ok(())
    }

    fn make_folder(&mut self, alloc: Global, spot: Spot) -> Result<(), DirError>
        requires active { IsActive (dir_shown self.old).local }
        ensures cause { IsErrOf result DirError.Failed → Rose self.old.faults self.new.faults }
        ensures counts { Counts DirError.Failed result self.old.faults self.new.faults }
        ensures refusals { IfErr result (λ e. may_refuse (Request.MakeFolder spot) e ≡ true) }
        ensures called { DirCall false (dir_shown self.old) (Request.MakeFolder spot) (done_reply result) (dir_shown self.new) }
    {
        match host_files::make_folder(&self.rt, alloc, self.root.as_str(), &spot) {
            Ok(()) => Ok(()),
            Err(error) => Err(counted(&mut self.faults, error)),
        }
    }

    fn move_folder(&mut self, alloc: Global, from: Spot, to: Spot) -> Result<(), DirError>
        requires active { IsActive (dir_shown self.old).local }
        ensures cause { IsErrOf result DirError.Failed → Rose self.old.faults self.new.faults }
        ensures counts { Counts DirError.Failed result self.old.faults self.new.faults }
        ensures refusals { IfErr result (λ e. may_refuse (Request.MoveFolder from to) e ≡ true) }
        ensures called { DirCall false (dir_shown self.old) (Request.MoveFolder from to) (done_reply result) (dir_shown self.new) }
    {
        match host_files::move_folder(&self.rt, alloc, self.root.as_str(), &from, &to) {
            Ok(()) => Ok(()),
            Err(error) => Err(counted(&mut self.faults, error)),
        }
    }

    fn open(&mut self, alloc: Global, spot: Spot, which: Which) -> Result<Handle, DirError>
        requires active { IsActive (dir_shown self.old).local }
        ensures cause { IsErrOf result DirError.Failed → Rose self.old.faults self.new.faults }
        ensures counts { Counts DirError.Failed result self.old.faults self.new.faults }
        ensures refusals { IfErr result (λ e. may_refuse (Request.Open spot which) e ≡ true) }
        ensures unopened { IfOk result (λ handle. IsUnopened (dir_shown self.old).local handle) }
        ensures called { DirCall false (dir_shown self.old) (Request.Open spot which) (opened_reply result) (dir_shown self.new) }
    {
        match open_lock(
            &self.rt,
            alloc,
            self.root.as_str(),
            &mut self.reached,
            &spot,
            which,
        ) {
            Ok(folder) => keep(&mut self.folders, folder, target_of(&spot, which)),
            Err(error) => Err(counted(&mut self.faults, error)),
        }
    }

    fn open_area(&mut self, alloc: Global, area: Area) -> Result<Handle, DirError>
        requires active { IsActive (dir_shown self.old).local }
        ensures cause { IsErrOf result DirError.Failed → Rose self.old.faults self.new.faults }
        ensures counts { Counts DirError.Failed result self.old.faults self.new.faults }
        ensures refusals { IfErr result (λ e. may_refuse (Request.OpenArea area) e ≡ true) }
        ensures unopened { IfOk result (λ handle. IsUnopened (dir_shown self.old).local handle) }
        ensures called { DirCall false (dir_shown self.old) (Request.OpenArea area) (opened_reply result) (dir_shown self.new) }
    {
        match host_files::open_area(&self.rt, alloc, self.root.as_str(), area) {
            Ok(folder) => keep(&mut self.folders, folder, Target::Gate(area)),
            Err(error) => Err(counted(&mut self.faults, error)),
        }
    }

    fn try_lock(&mut self, _alloc: Global, handle: Handle, mode: Mode) -> Result<(), DirError>
        requires active { IsActive (dir_shown self.old).local }
        requires open { IsOpen (dir_shown self.old).local handle }
        requires unlocked { IsUnlocked (dir_shown self.old).local handle }
        ensures cause { IsErrOf result DirError.Failed → Rose self.old.faults self.new.faults }
        ensures counts { Counts DirError.Failed result self.old.faults self.new.faults }
        ensures refusals { IfErr result (λ e. may_refuse (Request.TryLock handle mode) e ≡ true) }
        ensures called { DirCall false (dir_shown self.old) (Request.TryLock handle mode) (done_reply result) (dir_shown self.new) }
    {
        match lock_handle(&self.folders, handle, mode) {
            Ok(()) => {
                set_lock(&mut self.folders, handle, mode);
                Ok(())
            }
            Err(error) => Err(counted(&mut self.faults, error)),
        }
    }

    fn close(&mut self, handle: Handle)
        requires active { IsActive (dir_shown self.old).local }
        requires open { IsOpen (dir_shown self.old).local handle }
        ensures faultless { self.new.faults ≡ self.old.faults }
        ensures called { DirCall false (dir_shown self.old) (Request.Close handle) Reply.Done (dir_shown self.new) }
    {
        give_up(&mut self.folders, handle);
    }

    fn list_area(&mut self, alloc: Global, area: Area) -> Result<Names, DirError>
        requires active { IsActive (dir_shown self.old).local }
        ensures cause { IsErrOf result DirError.Failed → Rose self.old.faults self.new.faults }
        ensures counts { Counts DirError.Failed result self.old.faults self.new.faults }
        ensures refusals { IfErr result (λ e. may_refuse (Request.ListArea area) e ≡ true) }
        ensures ordered { IfOk result (λ names. IsStrictlySortedBy (slice_cmp nat_cmp) names) }
        ensures called { ListCall false (dir_shown self.old) (Request.ListArea area) (names_reply result) (dir_shown self.new) }
    {
        match host_files::list_area(&self.rt, alloc, self.root.as_str(), area) {
            Ok(names) => Ok(names),
            Err(error) => Err(counted(&mut self.faults, error)),
        }
    }

    fn list_in(&mut self, alloc: Global, spot: Spot, path: &str) -> Result<Items, DirError>
        requires active { IsActive (dir_shown self.old).local }
        requires path { is_path path.now ≡ true }
        ensures cause { IsErrOf result DirError.Failed → Rose self.old.faults self.new.faults }
        ensures counts { Counts DirError.Failed result self.old.faults self.new.faults }
        ensures dots { has_dots path.now ≡ true → result ≡ Err DirError.Missing }
        ensures refusals { IfErr result (λ e. may_refuse (Request.ListIn (record { spot = spot; path = path.now })) e ≡ true) }
        ensures ordered { IfOk result (λ items. IsStrictlySortedBy (slice_cmp nat_cmp) (item_names items)) }
        ensures called { ListCall false (dir_shown self.old) (Request.ListIn (record { spot = spot; path = path.now })) (items_reply result) (dir_shown self.new) }
    {
        match host_files::list_inside(
            &self.rt,
            alloc,
            self.root.as_str(),
            &mut self.reached,
            &mut self.started,
            &spot,
            path,
        ) {
            Ok(items) => Ok(items),
            Err(error) => Err(counted(&mut self.faults, error)),
        }
    }

    fn make_dir_in(&mut self, alloc: Global, spot: Spot, path: &str) -> Result<(), DirError>
        requires active { IsActive (dir_shown self.old).local }
        requires path { is_path path.now ≡ true }
        ensures cause { IsErrOf result DirError.Failed → Rose self.old.faults self.new.faults }
        ensures counts { Counts DirError.Failed result self.old.faults self.new.faults }
        ensures dots { has_dots path.now ≡ true → result ≡ Err DirError.Missing }
        ensures below { OnOk result (path.now ≢ []) }
        ensures refusals { IfErr result (λ e. may_refuse (Request.MakeDirIn (record { spot = spot; path = path.now })) e ≡ true) }
        ensures called { DirCall false (dir_shown self.old) (Request.MakeDirIn (record { spot = spot; path = path.now })) (done_reply result) (dir_shown self.new) }
    {
        match host_files::make_dir(
            &self.rt,
            alloc,
            self.root.as_str(),
            &mut self.reached,
            &spot,
            path,
        ) {
            Ok(()) => Ok(()),
            Err(error) => Err(counted(&mut self.faults, error)),
        }
    }

    fn make_file_in(&mut self, alloc: Global, spot: Spot, path: &str) -> Result<(), DirError>
        requires active { IsActive (dir_shown self.old).local }
        requires path { is_path path.now ≡ true }
        ensures cause { IsErrOf result DirError.Failed → Rose self.old.faults self.new.faults }
        ensures counts { Counts DirError.Failed result self.old.faults self.new.faults }
        ensures dots { has_dots path.now ≡ true → result ≡ Err DirError.Missing }
        ensures below { OnOk result (path.now ≢ []) }
        ensures refusals { IfErr result (λ e. may_refuse (Request.MakeFileIn (record { spot = spot; path = path.now })) e ≡ true) }
        ensures called { DirCall false (dir_shown self.old) (Request.MakeFileIn (record { spot = spot; path = path.now })) (done_reply result) (dir_shown self.new) }
    {
        match host_files::make_file(
            &self.rt,
            alloc,
            self.root.as_str(),
            &mut self.reached,
            &spot,
            path,
        ) {
            Ok(()) => Ok(()),
            Err(error) => Err(counted(&mut self.faults, error)),
        }
    }

    fn append_in(
        &mut self,
        alloc: Global,
        spot: Spot,
        path: &str,
        piece: &[u8],
    ) -> Result<(), DirError>
        requires active { IsActive (dir_shown self.old).local }
        requires path { is_path path.now ≡ true }
        ensures cause { IsErrOf result DirError.Failed → Rose self.old.faults self.new.faults }
        ensures counts { Counts DirError.Failed result self.old.faults self.new.faults }
        ensures dots { has_dots path.now ≡ true → result ≡ Err DirError.Missing }
        ensures below { OnOk result (path.now ≢ []) }
        ensures refusals { IfErr result (λ e. may_refuse (Request.AppendIn (record { spot = spot; path = path.now }) piece.now) e ≡ true) }
        ensures called { AppendCall false (dir_shown self.old) (Request.AppendIn (record { spot = spot; path = path.now }) piece.now) result (dir_shown self.new) }
    {
        match host_files::append(
            &self.rt,
            alloc,
            self.root.as_str(),
            &mut self.reached,
            &spot,
            path,
            piece,
        ) {
            Ok(()) => Ok(()),
            Err(error) => Err(counted(&mut self.faults, error)),
        }
    }

    fn read_in(
        &mut self,
        alloc: Global,
        spot: Spot,
        path: &str,
        at: u64,
        room: &mut [u8],
    ) -> Result<usize, DirError>
        requires active { IsActive (dir_shown self.old).local }
        requires path { is_path path.now ≡ true }
        ensures cause { IsErrOf result DirError.Failed → Rose self.old.faults self.new.faults }
        ensures counts { Counts DirError.Failed result self.old.faults self.new.faults }
        ensures dots { has_dots path.now ≡ true → result ≡ Err DirError.Missing }
        ensures below { OnOk result (path.now ≢ []) }
        ensures refusals { IfErr result (λ e. may_refuse (Request.ReadIn (record { spot = spot; path = path.now }) at (length room.old)) e ≡ true) }
        ensures filled { KeepsUnreadRoom room.old result room.new }
        ensures called { DirCall false (dir_shown self.old) (Request.ReadIn (record { spot = spot; path = path.now }) at (length room.old)) (read_reply room.new result) (dir_shown self.new) }
    {
        match host_files::read(
            &self.rt,
            alloc,
            self.root.as_str(),
            &mut self.reached,
            &spot,
            path,
            at,
            room,
        ) {
            Ok(count) => Ok(count),
            Err(error) => Err(counted(&mut self.faults, error)),
        }
    }

    fn sync_in(&mut self, alloc: Global, spot: Spot, path: &str) -> Result<(), DirError>
        requires active { IsActive (dir_shown self.old).local }
        requires path { is_path path.now ≡ true }
        ensures cause { IsErrOf result DirError.Failed → Rose self.old.faults self.new.faults }
        ensures counts { Counts DirError.Failed result self.old.faults self.new.faults }
        ensures dots { has_dots path.now ≡ true → result ≡ Err DirError.Missing }
        ensures refusals { IfErr result (λ e. may_refuse (Request.SyncIn (record { spot = spot; path = path.now })) e ≡ true) }
        ensures called { DirCall false (dir_shown self.old) (Request.SyncIn (record { spot = spot; path = path.now })) (done_reply result) (dir_shown self.new) }
    {
        match host_files::sync(
            &self.rt,
            alloc,
            self.root.as_str(),
            &mut self.reached,
            &spot,
            path,
        ) {
            Ok(()) => Ok(()),
            Err(error) => Err(counted(&mut self.faults, error)),
        }
    }

    fn sync_area(&mut self, alloc: Global, area: Area) -> Result<(), DirError>
        requires active { IsActive (dir_shown self.old).local }
        ensures cause { IsErrOf result DirError.Failed → Rose self.old.faults self.new.faults }
        ensures counts { Counts DirError.Failed result self.old.faults self.new.faults }
        ensures refusals { IfErr result (λ e. may_refuse (Request.SyncArea area) e ≡ true) }
        ensures called { DirCall false (dir_shown self.old) (Request.SyncArea area) (done_reply result) (dir_shown self.new) }
    {
        match host_files::sync_area(&self.rt, alloc, self.root.as_str(), area) {
            Ok(()) => Ok(()),
            Err(error) => Err(counted(&mut self.faults, error)),
        }
    }

    fn remove_file_in(&mut self, alloc: Global, spot: Spot, path: &str) -> Result<(), DirError>
        requires active { IsActive (dir_shown self.old).local }
        requires path { is_path path.now ≡ true }
        ensures cause { IsErrOf result DirError.Failed → Rose self.old.faults self.new.faults }
        ensures counts { Counts DirError.Failed result self.old.faults self.new.faults }
        ensures dots { has_dots path.now ≡ true → result ≡ Err DirError.Missing }
        ensures below { OnOk result (path.now ≢ []) }
        ensures refusals { IfErr result (λ e. may_refuse (Request.RemoveFileIn (record { spot = spot; path = path.now })) e ≡ true) }
        ensures called { DirCall false (dir_shown self.old) (Request.RemoveFileIn (record { spot = spot; path = path.now })) (done_reply result) (dir_shown self.new) }
    {
        match host_files::remove_file(
            &self.rt,
            alloc,
            self.root.as_str(),
            &mut self.reached,
            &spot,
            path,
        ) {
            Ok(()) => Ok(()),
            Err(error) => Err(counted(&mut self.faults, error)),
        }
    }

    fn remove_dir_in(&mut self, alloc: Global, spot: Spot, path: &str) -> Result<(), DirError>
        requires active { IsActive (dir_shown self.old).local }
        requires path { is_path path.now ≡ true }
        ensures cause { IsErrOf result DirError.Failed → Rose self.old.faults self.new.faults }
        ensures counts { Counts DirError.Failed result self.old.faults self.new.faults }
        ensures dots { has_dots path.now ≡ true → result ≡ Err DirError.Missing }
        ensures below { OnOk result (path.now ≢ []) }
        ensures refusals { IfErr result (λ e. may_refuse (Request.RemoveDirIn (record { spot = spot; path = path.now })) e ≡ true) }
        ensures called { DirCall false (dir_shown self.old) (Request.RemoveDirIn (record { spot = spot; path = path.now })) (done_reply result) (dir_shown self.new) }
    {
        match host_files::remove_dir(
            &self.rt,
            alloc,
            self.root.as_str(),
            &mut self.reached,
            &spot,
            path,
        ) {
            Ok(()) => Ok(()),
            Err(error) => Err(counted(&mut self.faults, error)),
        }
    }

    fn remove_folder(&mut self, alloc: Global, spot: Spot) -> Result<(), DirError>
        requires active { IsActive (dir_shown self.old).local }
        ensures cause { IsErrOf result DirError.Failed → Rose self.old.faults self.new.faults }
        ensures counts { Counts DirError.Failed result self.old.faults self.new.faults }
        ensures refusals { IfErr result (λ e. may_refuse (Request.RemoveFolder spot) e ≡ true) }
        ensures called { DirCall false (dir_shown self.old) (Request.RemoveFolder spot) (done_reply result) (dir_shown self.new) }
    {
        match host_files::remove_folder(&self.rt, alloc, self.root.as_str(), &spot) {
            Ok(()) => Ok(()),
            Err(error) => Err(counted(&mut self.faults, error)),
        }
    }

    fn finish(&mut self)
        requires active { IsActive (dir_shown self.old).local }
        ensures faultless { self.new.faults ≡ self.old.faults }
        ensures called { DirCall false (dir_shown self.old) Request.Finish Reply.Done (dir_shown self.new) }
    {
        self.finished = true;
        self.folders.clear();
    }
}
