// What starts the programs of apps.
ghost use Rattle.std.specs.Prelude.{◌≡◌, ◌≤◌, Bool, true, false, IfOk, IsErrOf};
ghost use Rattle.dir_model.specs.Causes.{Rose};
ghost use Rattle.spawner.specs.Calls.{ready_reply, start_reply, wait_reply, has_started, Tells};
ghost use Rattle.spawner.specs.Conditions.{MayStart, MayWait};

use crate::call::{Child, RootPlace, SpawnError, SpawnRequest};
use crate::words::Words;
use dir_trait::Dir;
use std::alloc::Global;

/// What makes an app's root ready, starts programs in it, and waits for them. The directory is lent for
/// the conditions alone: where it is observed, its process made the app's `started-` mark and then synced
/// the pod's folder, and it runs the pod.
pub trait Spawner {
    ghost use Rattle.spawner.specs.Calls.{SpawnerAt};

    /// Whether its calls are observed. A spawner of the host observes none.
    ghost observed: { Bool };

    /// What it shows at a moment: its faults, and where that is observed its calls and how each program
    /// ends.
    ghost shown: { Self → SpawnerAt };

    /// How often the spawner failed so far. The count never falls.
    fn faults(&self) -> u64
        ensures { result ≡ (shown self.now).faults };

    /// Makes the links of a listing and sets its modes below an app's root, whose directories and files
    /// stand there. What stands as the listing has it stays, so that a second call finds nothing to do.
    fn ready<D: Dir>(
        &mut self,
        alloc: Global,
        dir: &D,
        root: &RootPlace,
        listing: &[u8],
    ) -> Result<(), SpawnError>
        requires may { D.observed ≡ true → MayStart (D.shown dir.now) root.now }
        ensures kept { (shown self.old).faults ≤ (shown self.new).faults }
        ensures cause { IsErrOf result SpawnError.Failed → Rose (shown self.old).faults (shown self.new).faults }
        ensures recorded { observed ≡ true → Tells (shown self.old) (SpawnRequest.Ready root.now listing.now) (ready_reply result) (shown self.new) };

    /// Starts the program that the first word names in an app's root, with these words, this
    /// environment alone, and this working directory in the root. The child is one that no earlier start
    /// answered.
    fn start<D: Dir>(
        &mut self,
        alloc: Global,
        dir: &D,
        root: &RootPlace,
        argv: &Words,
        env: &Words,
        cwd: &str,
    ) -> Result<Child, SpawnError>
        requires may { D.observed ≡ true → MayStart (D.shown dir.now) root.now }
        ensures kept { (shown self.old).faults ≤ (shown self.new).faults }
        ensures cause { IsErrOf result SpawnError.Failed → Rose (shown self.old).faults (shown self.new).faults }
        ensures recorded { observed ≡ true → Tells (shown self.old) (SpawnRequest.Start root.now argv.now env.now cwd.now) (start_reply result) (shown self.new) }
        ensures fresh { IfOk result (λ child. observed ≡ true → has_started child (shown self.old).calls ≡ false) };

    /// Waits until a program has ended, and answers its status.
    fn wait<D: Dir>(&mut self, alloc: Global, dir: &D, child: Child) -> Result<u8, SpawnError>
        requires may { D.observed ≡ true → observed ≡ true → MayWait (D.shown dir.now) (shown self.old).calls child }
        ensures kept { (shown self.old).faults ≤ (shown self.new).faults }
        ensures cause { IsErrOf result SpawnError.Failed → Rose (shown self.old).faults (shown self.new).faults }
        ensures recorded { observed ≡ true → Tells (shown self.old) (SpawnRequest.Wait child) (wait_reply result) (shown self.new) }
        ensures status { IfOk result (λ status. observed ≡ true → status ≡ (shown self.old).status child.number) };
}
