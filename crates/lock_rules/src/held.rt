// Open handles, and what they hold.
ghost use Rattle.std.specs.Prelude.{◌≡◌};
ghost use Rattle.std.specs.List.{list_any};
ghost use Rattle.dir_model.specs.Local.{is_own_of};
ghost use Rattle.dir_model.specs.Locks.{is_exclusive, target_of};
ghost use Rattle.dir_rules.specs.Standing.{is_claim_of, is_gate_of, area_of, is_shared, is_own_held, is_claim_held, is_gate_shared, is_gate_exclusive, is_handle_held, gives_up, gives_up_cover, is_own_in_prepared};
ghost use Rattle.dir_rules.specs.LockRules.{is_same_target, is_second, is_alone, is_removal_target, is_removal_held};

use dir_model::{Area, Handle, Mode, Name, Spot, Target, Which};
use dir_rules::Held;
use marks::{is_garbage, is_in, is_of, same_spot};

fn is_exclusive(lock: &Option<Mode>) -> bool
    ensures { result ≡ is_exclusive lock.now }
{
    match lock {
        None => false,
        Some(Mode::Shared) => false,
        Some(Mode::Exclusive) => true,
    }
}

fn is_shared(lock: &Option<Mode>) -> bool
    ensures { result ≡ is_shared lock.now }
{
    match lock {
        None => false,
        Some(Mode::Shared) => true,
        Some(Mode::Exclusive) => false,
    }
}

fn is_own_of(name: &Name, target: &Target) -> bool
    ensures { result ≡ is_own_of name.now target.now }
{
    match target {
        Target::Own(spot) => is_of(name, spot),
        _ => false,
    }
}

fn is_claim_of(name: &Name, target: &Target) -> bool
    ensures { result ≡ is_claim_of name.now target.now }
{
    match target {
        Target::Claim(spot) => is_of(name, spot),
        _ => false,
    }
}

fn is_gate_of(area: Area, target: &Target) -> bool
    ensures { result ≡ is_gate_of area target.now }
{
    match target {
        Target::Gate(here) => is_in(area, *here),
        _ => false,
    }
}

/// Where a handle was opened.
pub fn area_of(target: &Target) -> Area
    ensures { result ≡ area_of target.now }
{
    match target {
        Target::Own(spot) => spot.area,
        Target::Claim(spot) => spot.area,
        Target::Gate(area) => *area,
    }
}

/// What a handle is opened for.
pub fn target_of(spot: &Spot, which: Which) -> Target
    ensures { result ≡ target_of spot.now which }
{
    match which {
        Which::Own => Target::Own(*spot),
        Which::Claim => Target::Claim(*spot),
    }
}

/// Whether a pod's own lock is opened in prepared.
pub fn is_own_in_prepared(spot: &Spot, which: Which) -> bool
    ensures { result ≡ is_own_in_prepared spot.now which }
{
    match which {
        Which::Own => is_in(Area::Prepared, spot.area),
        Which::Claim => false,
    }
}

/// Whether the pod's own lock is held exclusively.
pub fn is_own_held(name: &Name, held: &Held) -> bool
    ensures { result ≡ is_own_held name.now held.now }
{
    is_own_of(name, &held.target) && is_exclusive(&held.lock)
}

/// Whether the pod's activation lock is held exclusively.
pub fn is_claim_held(name: &Name, held: &Held) -> bool
    ensures { result ≡ is_claim_held name.now held.now }
{
    is_claim_of(name, &held.target) && is_exclusive(&held.lock)
}

/// Whether the area's lock is held shared.
pub fn is_gate_shared(area: Area, held: &Held) -> bool
    ensures { result ≡ is_gate_shared area held.now }
{
    is_gate_of(area, &held.target) && is_shared(&held.lock)
}

/// Whether the area's lock is held exclusively.
pub fn is_gate_exclusive(area: Area, held: &Held) -> bool
    ensures { result ≡ is_gate_exclusive area held.now }
{
    is_gate_of(area, &held.target) && is_exclusive(&held.lock)
}

/// Whether it is this handle.
pub fn is_number(handle: Handle, held: &Held) -> bool
    ensures { result ≡ is_handle_held handle held.now }
{
    held.handle.number == handle.number
}

// The lock that a removal at this spot needs: the pod's own by an open there, or the lock of removed.
fn is_removal_target(spot: &Spot, target: &Target) -> bool
    ensures { result ≡ is_removal_target spot.now target.now }
{
    match target {
        Target::Own(here) => is_garbage(spot.area) && same_spot(here, spot),
        Target::Claim(_) => false,
        Target::Gate(gate) => is_in(Area::Removed, spot.area) && is_in(Area::Removed, *gate),
    }
}

/// Whether the lock is held that a removal at this spot needs.
pub fn is_removal_held(spot: &Spot, held: &Held) -> bool
    ensures { result ≡ is_removal_held spot.now held.now }
{
    is_exclusive(&held.lock) && is_removal_target(spot, &held.target)
}

/// Whether the area's lock, held shared, is given up with this handle.
pub fn gives_up_shared_gate(area: Area, handle: Handle, holdings: &[Held]) -> bool
    ensures { result ≡ gives_up (is_gate_shared area) handle holdings.now }
{
    holdings.iter().any(|held| is_gate_shared(area, held) && is_number(handle, held))
}

/// Whether the area's lock, held exclusively, is given up with this handle.
pub fn gives_up_exclusive_gate(area: Area, handle: Handle, holdings: &[Held]) -> bool
    ensures { result ≡ gives_up (is_gate_exclusive area) handle holdings.now }
{
    holdings.iter().any(|held| is_gate_exclusive(area, held) && is_number(handle, held))
}

/// Whether the pod's activation lock is given up with this handle.
pub fn gives_up_claim(name: &Name, handle: Handle, holdings: &[Held]) -> bool
    ensures { result ≡ gives_up (is_claim_held name.now) handle holdings.now }
{
    holdings.iter().any(|held| is_claim_held(name, held) && is_number(handle, held))
}

/// Whether the lock that a removal at this spot needs is given up with this handle.
pub fn gives_up_removal(spot: &Spot, handle: Handle, holdings: &[Held]) -> bool
    ensures { result ≡ gives_up (is_removal_held spot.now) handle holdings.now }
{
    holdings.iter().any(|held| is_removal_held(spot, held) && is_number(handle, held))
}

/// Whether what covers a handle on a pod's own lock is given up with this handle.
pub fn gives_up_cover(handle: Handle, holdings: &[Held], target: &Target) -> bool
    ensures { result ≡ gives_up_cover handle holdings.now target.now }
{
    match target {
        Target::Own(spot) => gives_up_claim(&spot.name, handle, holdings),
        _ => false,
    }
}

fn is_same_target(a: &Target, b: &Target) -> bool
    ensures { result ≡ is_same_target a.now b.now }
{
    match a {
        Target::Own(spot) => is_own_of(&spot.name, b),
        Target::Claim(spot) => is_claim_of(&spot.name, b),
        Target::Gate(area) => is_gate_of(*area, b),
    }
}

fn is_second(held: &Held, other: &Held) -> bool
    ensures { result ≡ is_second held.now other.now }
{
    is_same_target(&held.target, &other.target) && !is_number(held.handle, other)
}

fn has_second(held: &Held, holdings: &[Held]) -> bool
    ensures { result ≡ list_any (is_second held.now) holdings.now }
{
    holdings.iter().any(|other| is_second(held, other))
}

/// Whether no other handle is open on the lock of this one.
pub fn is_alone(held: &Held, holdings: &[Held]) -> bool
    ensures { result ≡ is_alone held.now holdings.now }
{
    !has_second(held, holdings)
}
