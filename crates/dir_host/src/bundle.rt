// The files of the host are a `Bundle`.
ghost use Rattle.std.specs.Prelude.{◌≡◌, ◌≢◌, ◌≤◌, [], codes};
ghost use Rattle.dir_model.specs.Causes.{Rose};
ghost use Rattle.dir_host.specs.Counts.{CountsRefusal};

use dir_trait::{Bundle, BundleAction, BundleError, BundleItems};
use host_files::{OpenedFile, list_bundle, read_file, read_target};
use std::alloc::Global;
use std::fs::File;
use std::rt::Files;

/// The files of the host. A path is any of the host's, seen from the current folder. Symbolic links are
/// followed in the path that was named, and none behind it: what lies there behind a link is `Missing`. A
/// read from a file's start opens it, and the next reads at that path go on in it, whatever stands there by
/// then. Each failure of the system is counted once.
#[derive(Drop)]
pub struct HostBundle<R: Files<File = File> + AllocGlobal + Clone + Drop> {
    rt: R,
    named: String,
    opened: Option<OpenedFile>,
    faults: u64,
}

impl<R: Files<File = File> + AllocGlobal + Clone + Drop> HostBundle<R> {
    /// All files that the system has, of which the user named this path. The bundle hasn't failed.
    pub fn new(rt: R, named: String) -> HostBundle<R>
        ensures { (⟦<HostBundle<R> as Bundle>⟧.shown result).faults ≡ 0 }
    {
        HostBundle {
            rt,
            named,
            opened: None,
            faults: 0,
        }
    }
}

/// Counts a failure, and hands the refusal on.
fn counted(faults: &mut u64, error: BundleError) -> BundleError
    ensures same { result ≡ error }
    ensures kept { faults.old ≤ faults.new }
    ensures cause { result ≡ BundleError.Failed → Rose faults.old faults.new }
    ensures counts { CountsRefusal BundleError.Failed result faults.old faults.new }
{
    if error == BundleError::Failed {
        *faults = faults.saturating_add(1);
    }
    error
}

/// The path, where the empty one is the current folder's.
fn path_or_here(path: &str) -> &str
    ensures here { path.now ≡ [] → result.now ≡ codes "." }
    ensures same { path.now ≢ [] → result.now ≡ path.now }
{
    if path.is_empty() { "." } else { path }
}

impl<R: Files<File = File> + AllocGlobal + Clone + Drop> Bundle for HostBundle<R> {
    ghost use Rattle.std.specs.Prelude.{◌≡◌, ◌≤◌, length, false, IfOk, IsErrOf};
    ghost use Rattle.dir_model.specs.Causes.{Rose};
    ghost use Rattle.dir_trait.specs.Bundles.{bytes_given, IsBundleListing, BundleCall, request_at};
    ghost use Rattle.dir_host.specs.Counts.{Counts};
    ghost use Rattle.dir_host.specs.Shown.{bundle_shown};

    ghost observed = { false };

    ghost shown = { λ b. bundle_shown b };

    fn faults(&self) -> u64 {
        self.faults
    }

    fn read(
        &mut self,
        alloc: Global,
        path: &str,
        at: u64,
        room: &mut [u8],
    ) -> Result<usize, BundleError>
        ensures cause { IsErrOf result BundleError.Failed → Rose self.old.faults self.new.faults }
        ensures counts { Counts BundleError.Failed result self.old.faults self.new.faults }
        ensures most { IfOk result (λ n. n ≤ length room.old) }
        ensures called { BundleCall false (bundle_shown self.old) (request_at BundleAction.Read path.now) (bytes_given result) (bundle_shown self.new) }
    {
        match read_file(
            &self.rt,
            alloc,
            &mut self.opened,
            path,
            self.named.as_str(),
            at,
            room,
        ) {
            Ok(count) => Ok(count),
            Err(error) => Err(counted(&mut self.faults, error)),
        }
    }

    fn read_link(
        &mut self,
        _alloc: Global,
        path: &str,
        room: &mut [u8],
    ) -> Result<usize, BundleError>
        ensures cause { IsErrOf result BundleError.Failed → Rose self.old.faults self.new.faults }
        ensures counts { Counts BundleError.Failed result self.old.faults self.new.faults }
        ensures most { IfOk result (λ n. n ≤ length room.old) }
        ensures called { BundleCall false (bundle_shown self.old) (request_at BundleAction.ReadLink path.now) (bytes_given result) (bundle_shown self.new) }
    {
        match read_target(&self.rt, path, self.named.as_str(), room) {
            Ok(count) => Ok(count),
            Err(error) => Err(counted(&mut self.faults, error)),
        }
    }

    fn list(&mut self, alloc: Global, path: &str) -> Result<BundleItems, BundleError>
        ensures cause { IsErrOf result BundleError.Failed → Rose self.old.faults self.new.faults }
        ensures counts { Counts BundleError.Failed result self.old.faults self.new.faults }
        ensures ordered { IfOk result IsBundleListing }
        ensures called { BundleCall false (bundle_shown self.old) (request_at BundleAction.List path.now) 0 (bundle_shown self.new) }
    {
        match list_bundle(
            &self.rt,
            alloc,
            path_or_here(path),
            path_or_here(self.named.as_str()),
        ) {
            Ok(items) => Ok(items),
            Err(error) => Err(counted(&mut self.faults, error)),
        }
    }
}
