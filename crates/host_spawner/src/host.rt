// The programs of a system are a `Spawner`.
ghost use Rattle.std.specs.Prelude.{◌≡◌, true, IfOk, OnOk, OnErr};
ghost use Rattle.host_spawner.specs.Children.{IsAdded};
ghost use Rattle.host_spawner.specs.Programs.{Starts};

use crate::children::{start_child, wait_for};
use crate::commands::command_of;
use crate::layout::make_ready;
use crate::place::path_of_root;
use crate::refusals::{counted, short};
use crate::system::{HostSystem, System};
use dir_trait::Dir;
use spawner::{Child, RootPlace, SpawnError, Spawner, Words};
use std::alloc::Global;
use std::fs::File;
use std::process;
use std::rt::{Files, Processes};

/// The programs of a system, started in the roots of a data folder. A program has the standard streams of
/// this process. Each failure of the system is counted once.
#[derive(Drop)]
pub struct SystemSpawner<S: System + Drop> {
    system: S,
    base: String,
    faults: u64,
    children: Vec<process::Child<S::Process>>,
}

/// The programs of a host.
pub type HostSpawner<R> = SystemSpawner<HostSystem<R>>;

impl<R: Files<File = File> + Processes + AllocGlobal + Clone + Drop> SystemSpawner<HostSystem<R>> {
    /// What starts programs in the data folder at this absolute path. It hasn't failed.
    pub fn new(alloc: Global, rt: R, base: String) -> HostSpawner<R>
        ensures { (⟦<HostSpawner<R> as Spawner>⟧.shown result).faults ≡ 0 }
    {
        SystemSpawner {
            system: HostSystem::new(rt),
            base,
            faults: 0,
            children: Vec::new(alloc),
        }
    }
}

/// Starts a program in an app's root.
fn launch<S: System>(
    system: &mut S,
    alloc: Global,
    base: &str,
    children: &mut Vec<process::Child<S::Process>>,
    root: &RootPlace,
    argv: &Words,
    env: &Words,
    cwd: &str,
) -> Result<Child, SpawnError>
    ensures kept { IfOk result (λ child. IsAdded children.old.items child.number children.new.items) }
    ensures started { OnOk result (S.observed ≡ true → Starts base.now root.now argv.now env.now cwd.now (S.facts system.old) (S.facts system.new)) }
    ensures none { OnErr result (children.new.items ≡ children.old.items) }
    ensures nothing { OnErr result (S.observed ≡ true → S.facts system.new ≡ S.facts system.old) }
{
    let path = path_of_root(alloc, base, root).map_err(short)?;
    let command = command_of(alloc, path.as_str(), argv, env, cwd)?;
    start_child(system, children, command)
}

impl<S: System + Drop> Spawner for SystemSpawner<S> {
    ghost use Rattle.std.specs.Prelude.{◌≡◌, ◌≤◌, true, false, [], string_bytes, vec_len, IfOk, OnOk, OnErr, IsErrOf};
    ghost use Rattle.dir_model.specs.Causes.{Rose};
    ghost use Rattle.dir_host.specs.Counts.{Counts};
    ghost use Rattle.host_spawner.specs.Children.{ChildHasEnded, AreOthersSame};
    ghost use Rattle.host_spawner.specs.Layout.{IsRootReady};
    ghost use Rattle.spawner.specs.Conditions.{MayStart};

    ghost observed = { false };

    ghost shown = { λ s. record { faults = s.faults; calls = []; status = λ _. 0 } };

    fn faults(&self) -> u64 {
        self.faults
    }

    fn ready<D: Dir>(
        &mut self,
        alloc: Global,
        _dir: &D,
        root: &RootPlace,
        listing: &[u8],
    ) -> Result<(), SpawnError>
        requires may { D.observed ≡ true → MayStart (D.shown _dir.now) root.now }
        ensures kept { self.old.faults ≤ self.new.faults }
        ensures cause { IsErrOf result SpawnError.Failed → Rose self.old.faults self.new.faults }
        ensures counts { Counts SpawnError.Failed result self.old.faults self.new.faults }
        ensures ready { OnOk result (S.observed ≡ true → IsRootReady listing.now (string_bytes self.old.base) root.now (S.facts self.old.system) (S.facts self.new.system)) }
        ensures base { self.new.base ≡ self.old.base }
    {
        match make_ready(&mut self.system, alloc, self.base.as_str(), root, listing) {
            Ok(()) => Ok(()),
            Err(error) => Err(counted(&mut self.faults, error)),
        }
    }

    fn start<D: Dir>(
        &mut self,
        alloc: Global,
        _dir: &D,
        root: &RootPlace,
        argv: &Words,
        env: &Words,
        cwd: &str,
    ) -> Result<Child, SpawnError>
        requires may { D.observed ≡ true → MayStart (D.shown _dir.now) root.now }
        ensures kept { self.old.faults ≤ self.new.faults }
        ensures cause { IsErrOf result SpawnError.Failed → Rose self.old.faults self.new.faults }
        ensures counts { Counts SpawnError.Failed result self.old.faults self.new.faults }
        ensures held { IfOk result (λ child. IsAdded self.old.children.items child.number self.new.children.items) }
        ensures started { OnOk result (S.observed ≡ true → Starts (string_bytes self.old.base) root.now argv.now env.now cwd.now (S.facts self.old.system) (S.facts self.new.system)) }
        ensures none { OnErr result (self.new.children.items ≡ self.old.children.items) }
        ensures nothing { OnErr result (S.observed ≡ true → S.facts self.new.system ≡ S.facts self.old.system) }
        ensures base { self.new.base ≡ self.old.base }
    {
        match launch(
            &mut self.system,
            alloc,
            self.base.as_str(),
            &mut self.children,
            root,
            argv,
            env,
            cwd,
        ) {
            Ok(child) => Ok(child),
            Err(error) => Err(counted(&mut self.faults, error)),
        }
    }

    fn wait<D: Dir>(&mut self, _alloc: Global, _dir: &D, child: Child) -> Result<u8, SpawnError>
        ensures kept { self.old.faults ≤ self.new.faults }
        ensures cause { IsErrOf result SpawnError.Failed → Rose self.old.faults self.new.faults }
        ensures counts { Counts SpawnError.Failed result self.old.faults self.new.faults }
        ensures held { vec_len self.new.children ≡ vec_len self.old.children }
        ensures ended { IfOk result (λ status. ChildHasEnded self.new.children.items child.number status) }
        ensures others { AreOthersSame child.number self.old.children.items self.new.children.items }
        ensures base { self.new.base ≡ self.old.base }
    {
        match wait_for(&mut self.children, child) {
            Ok(status) => Ok(status),
            Err(error) => Err(counted(&mut self.faults, error)),
        }
    }
}
