// What this process has open for locks, the newest last: folders, files `pod`, areas.
ghost use Rattle.std.specs.Prelude.{◌≡◌, ◌^◌, ◌-◌, ◌++◌, ◌∷◌, [], map, filter, find, not, false, None, IfSome, IfOk, IfErr, OnErr};
ghost use Rattle.std.specs.List.{list_any};
ghost use Rattle.std.specs.Option.{option_copied};
ghost use Rattle.dir_model.specs.Local.{is_handle_of, is_open_among, held_in};
ghost use Rattle.dir_model.specs.Locks.{target_of};
ghost use Rattle.dir_host.specs.OpenFolders.{holdings_of, AreOpenBelow};

use dir_trait::{DirError, Handle, Holding, Mode, Spot, Target, Which};
use std::fs::File;

/// An open folder, a file `pod` or an area. Its lock is given up where it is dropped.
#[derive(Drop)]
pub struct OpenFolder {
    pub holding: Holding,
    pub folder: File,
}

fn is_open(folders: &[OpenFolder], handle: Handle) -> bool
    ensures { result ≡ list_any (λ f. is_handle_of handle f.holding) folders.now }
{
    folders
        .iter()
        .any(|f| f.holding.handle.number == handle.number)
}

/// The handle with the least number that isn't open. None where each below the greatest is.
#[tactic(auto, using(crate::proofs::Holdings::holdings_any))]
fn unused_handle(folders: &[OpenFolder]) -> Option<Handle>
    ensures unused { IfSome result (λ handle. is_open_among handle (holdings_of folders.now) ≡ false) }
    ensures least { IfSome result (λ handle. AreOpenBelow handle.number folders.now) }
    ensures full { result ≡ None → AreOpenBelow (2 ^ 32 - 1) folders.now }
{
    'numbers: for number in 0..u32::MAX {
        let handle = Handle { number };
        if !is_open(folders, handle) {
            return Some(handle);
        }
    }
    None
}

/// The folder that is open under a handle.
pub fn folder_of<'a>(folders: &'a [OpenFolder], handle: Handle) -> Option<&'a OpenFolder>
    ensures { option_copied result ≡ find (λ f. is_handle_of handle f.holding) folders.now }
{
    folders
        .iter()
        .find(|f| f.holding.handle.number == handle.number)
}

/// What is opened for a lock of the folder at a location.
pub fn target_of(spot: &Spot, which: Which) -> Target
    ensures { result ≡ target_of spot.now which }
{
    match which {
        Which::Own => Target::Own(*spot),
        Which::Claim => Target::Claim(*spot),
    }
}

/// Keeps what was opened under a new handle. Where memory is short it is closed again.
pub fn keep(folders: &mut Vec<OpenFolder>, folder: File, target: Target) -> Result<Handle, DirError>
    ensures unopened { IfOk result (λ handle. is_open_among handle (holdings_of folders.old.items) ≡ false) }
    ensures kept { IfOk result (λ handle. holdings_of folders.new.items
        ≡ holdings_of folders.old.items ++ record { handle = handle; target = target; lock = None } ∷ []) }
    ensures only { IfErr result (λ e. e ≡ DirError.NoMemory) }
    ensures refused { OnErr result (holdings_of folders.new.items ≡ holdings_of folders.old.items) }
{
    let Some(handle) = unused_handle(folders) else {
        return Err(DirError::NoMemory);
    };
    let holding = Holding {
        handle,
        target,
        lock: None,
    };
    match folders.push(OpenFolder { holding, folder }) {
        Ok(()) => Ok(handle),
        Err(_) => Err(DirError::NoMemory),
    }
}

fn held_by(holding: Holding, handle: Handle, mode: Mode) -> Holding
    ensures { result ≡ held_in handle mode holding }
{
    if holding.handle.number == handle.number {
        Holding {
            handle: holding.handle,
            target: holding.target,
            lock: Some(mode),
        }
    } else {
        holding
    }
}

/// The handle holds its lock.
pub fn set_lock(folders: &mut [OpenFolder], handle: Handle, mode: Mode)
    ensures { holdings_of folders.new ≡ map (held_in handle mode) (holdings_of folders.old) }
{
    for open in folders.iter_mut() {
        open.holding = held_by(open.holding, handle, mode);
    }
}

/// The handle is given up, and its lock. Takes no memory.
pub fn give_up(folders: &mut Vec<OpenFolder>, handle: Handle)
    ensures { holdings_of folders.new.items ≡ filter (λ h. not (is_handle_of handle h)) (holdings_of folders.old.items) }
{
    folders.retain(|f| f.holding.handle.number != handle.number);
}
