// What a program is given when it starts.
ghost use Rattle.std.specs.Prelude.{◌≡◌, ◌/◌, IfOk, IsErrOf};
ghost use Rattle.uuid.specs.Parts.{with_version, with_variant};
ghost use Rattle.dir_model.specs.Local.{nothing_local};
ghost use Rattle.std.specs.Time.{system_time_nanos};
ghost use Rattle.dir_host.specs.Setup.{IsDrawnOf};

use crate::dir::HostDir;
use crate::setup::{SetupError, find_root};
use dir_trait::{Dir, Draw, PodId};
use host_files::{AREAS, make_area_at, make_root, path_of_area};
use std::fs::File;
use std::io::{ErrorKind, Read};
use std::rt::{Clock, Env, Files};
use std::time::{SystemTime, UNIX_EPOCH};
use uuid::{Builder, Variant, Version};

/// What a command is run with: the moment in seconds, random bytes, and the data folder.
#[derive(Drop)]
pub struct Outside<R: Files<File = File> + AllocGlobal + Clone + Drop> {
    pub now: u64,
    pub draw: Draw,
    pub dir: HostDir<R>,
}

/// Makes the data folder and its areas, where they are missing.
fn make_areas<R: Files + AllocGlobal>(rt: &R, root: &str) -> Result<(), SetupError>
    ensures { IsErrOf result SetupError.Usage → ⊥ }
{
    make_root(rt, root)?;
    for area in AREAS {
        let path = path_of_area(rt.alloc(), root, area)?;
        make_area_at(rt, path.as_str(), root, area)?;
    }
    Ok(())
}

/// The whole seconds since 1970.
fn seconds_of(now: SystemTime) -> u64
    ensures { result ≡ system_time_nanos now / 1_000_000_000 }
{
    match now.duration_since(UNIX_EPOCH) {
        Ok(since) => since.as_secs(),
        Err(_) => 0,
    }
}

/// The seconds since 1970, or 0 where the clock stands before.
fn read_clock<R: Clock>(rt: &R) -> Result<u64, SetupError>
    ensures { IsErrOf result SetupError.Usage → ⊥ }
{
    match SystemTime::now(rt) {
        Ok(now) => Ok(seconds_of(now)),
        Err(error) if error.kind() == ErrorKind::InvalidData => Ok(0),
        Err(error) => Err(SetupError::from(error)),
    }
}

/// A pod's identity of random bytes: a UUID of version 4, by RFC 9562.
fn pod_of(random: [u8; 16]) -> PodId
    ensures { result.bytes ≡ with_version (with_variant random Variant.RFC4122) Version.Random }
{
    PodId {
        bytes: Builder::from_random_bytes(random).into_uuid().into_bytes(),
    }
}

/// The next 96 bytes of a source: an identity, a token and a key.
fn draw_from<S: Read>(source: &mut S) -> Result<Draw, SetupError>
    ensures words { IsErrOf result SetupError.Usage → ⊥ }
    ensures drawn { IfOk result (λ draw. IsDrawnOf (S.remaining source.old) (S.remaining source.new) draw) }
{
    let mut identity = [0; 16];
    source.read_exact(&mut identity)?;
    let mut token = [0; 16];
    source.read_exact(&mut token)?;
    let mut key = [0; 64];
    source.read_exact(&mut key)?;
    Ok(Draw {
        uuid: pod_of(identity),
        token,
        key,
    })
}

/// Draws of the system's random source.
fn draw_random<R: Files>(rt: &R) -> Result<Draw, SetupError>
    ensures { IsErrOf result SetupError.Usage → ⊥ }
{
    let mut source = File::open(rt, "/dev/urandom")?;
    draw_from(&mut source)
}

/// Finds the data folder and makes its missing areas, reads the clock and draws random bytes. The
/// directory is that of a process with this number, which hasn't begun.
pub fn assemble<R: Files<File = File> + Env + Clock + AllocGlobal + Clone + Drop>(
    rt: R,
    process: u32,
) -> Result<Outside<R>, SetupError>
    ensures words { IsErrOf result SetupError.Usage → ⊥ }
    ensures local { IfOk result (λ outside. (⟦<HostDir<R> as Dir>⟧.shown outside.dir).local ≡ nothing_local) }
    ensures process { IfOk result (λ outside. (⟦<HostDir<R> as Dir>⟧.shown outside.dir).process ≡ process) }
    ensures faults { IfOk result (λ outside. (⟦<HostDir<R> as Dir>⟧.shown outside.dir).faults ≡ 0) }
{
    let root = find_root(&rt)?;
    make_areas(&rt, root.as_str())?;
    let now = read_clock(&rt)?;
    let draw = draw_random(&rt)?;
    let dir = HostDir::new(rt.alloc(), rt, root, process);
    Ok(Outside { now, draw, dir })
}
