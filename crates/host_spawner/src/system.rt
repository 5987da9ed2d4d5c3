// What a system is asked for the programs of apps: one call of std each.
ghost use Rattle.std.specs.Prelude.{◌≡◌, ℕ, List, Bool, true};
ghost use Rattle.std.specs.Path.{path_buf_bytes};
ghost use Rattle.host_spawner.specs.Facts.{start_of, SpawnFact, stands, links, has_mode, starts, TellsSpawnFact};

use crate::standing::{Standing, standing_of};
use std::fs::{File, Permissions};
use std::os::unix::fs::{PermissionsExt, symlink};
use std::path::PathBuf;
use std::process::{Child, Command, OpenProcess};
use std::rt::{Files, Processes};
use std::{fs, io};

/// A system with files and programs. Each success is one fact that it tells.
pub trait System {
    ghost use Rattle.host_spawner.specs.Facts.{SpawnFact};

    /// Whether its answers are observed. A host observes none.
    ghost observed: { Bool };

    /// What it told so far, the oldest first.
    ghost facts: { Self → List SpawnFact };

    /// A program that was started.
    type Process: OpenProcess + Drop;

    /// Looks at what stands at a path. A link isn't followed.
    fn look(&mut self, path: &str) -> io::Result<Standing>
        ensures recorded { observed ≡ true → TellsSpawnFact (facts self.old) (λ standing. stands path.now standing) result (facts self.new) };

    /// Makes a link at a path.
    fn link(&mut self, path: &str, target: &str) -> io::Result<()>
        ensures recorded { observed ≡ true → TellsSpawnFact (facts self.old) (λ _. links path.now target.now) result (facts self.new) };

    /// Reads where the link points to that stands at a path.
    fn target(&mut self, path: &str) -> io::Result<PathBuf>
        ensures recorded { observed ≡ true → TellsSpawnFact (facts self.old) (λ target. links path.now (path_buf_bytes target)) result (facts self.new) };

    /// Sets the mode of what stands at a path.
    fn set_mode(&mut self, path: &str, mode: u32) -> io::Result<()>
        ensures recorded { observed ≡ true → TellsSpawnFact (facts self.old) (λ _. has_mode path.now mode) result (facts self.new) };

    /// Starts a program.
    fn start(&mut self, command: Command) -> io::Result<Child<Self::Process>>
        ensures recorded { observed ≡ true → TellsSpawnFact (facts self.old) (λ _. starts (start_of command)) result (facts self.new) };
}

/// A host.
#[derive(Drop)]
pub struct HostSystem<R: Files<File = File> + Processes + AllocGlobal + Clone + Drop> {
    rt: R,
}

impl<R: Files<File = File> + Processes + AllocGlobal + Clone + Drop> HostSystem<R> {
    /// The host that this runs on.
    pub fn new(rt: R) -> HostSystem<R> {
        HostSystem { rt }
    }
}

impl<R: Files<File = File> + Processes + AllocGlobal + Clone + Drop> System for HostSystem<R> {
    ghost use Rattle.std.specs.Prelude.{false, []};

    ghost observed = { false };

    ghost facts = { λ _. [] };

    type Process = R::Started;

    fn look(&mut self, path: &str) -> io::Result<Standing> {
        let found = fs::symlink_metadata(&self.rt, path)?;
        Ok(standing_of(&found))
    }

    fn link(&mut self, path: &str, target: &str) -> io::Result<()> {
        symlink(&self.rt, target, path)
    }

    fn target(&mut self, path: &str) -> io::Result<PathBuf> {
        fs::read_link(&self.rt, path)
    }

    fn set_mode(&mut self, path: &str, mode: u32) -> io::Result<()> {
        fs::set_permissions(&self.rt, path, Permissions::from_mode(mode))
    }

    fn start(&mut self, command: Command) -> io::Result<Child<R::Started>> {
        let mut command = command;
        command.spawn(&self.rt)
    }
}
