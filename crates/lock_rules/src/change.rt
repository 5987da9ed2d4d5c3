// How the lists change.
ghost use Rattle.std.specs.Prelude.{◌≡◌, ◌++◌, ◌&&◌, not, cond, map, filter, [], OnOk};
ghost use Rattle.dir_model.specs.Areas.{is_stage};
ghost use Rattle.dir_model.specs.Local.{is_own_of};
ghost use Rattle.dir_rules.specs.Standing.{is_claim_held, is_handle_held, held_with_mode, uncover, gives_up, uncovered_by_close, own_spot, prepared_name, and_move};

use crate::held::{gives_up_claim, gives_up_cover, is_number};
use dir_model::{Area, Handle, Mode, Name, NoMemory, Spot, Target};
use dir_rules::Held;
use marks::{is_in, is_of, is_stage, push_front};

fn held_in(held: Held, handle: Handle, mode: Mode) -> Held
    ensures { result ≡ held_with_mode handle mode held }
{
    if is_number(handle, &held) {
        Held {
            handle: held.handle,
            target: held.target,
            lock: Some(mode),
            covered: held.covered,
        }
    } else {
        held
    }
}

/// The handle holds its lock in this mode.
pub fn lock_held(holdings: &mut [Held], handle: Handle, mode: Mode)
    ensures { holdings.new ≡ map (held_with_mode handle mode) holdings.old }
{
    for held in holdings.iter_mut() {
        *held = held_in(*held, handle, mode);
    }
}

// Whether it is a handle on the own lock of the pod that stood there.
fn is_moved_with(held: &Held, from: &Spot) -> bool
    ensures { result ≡ (is_stage from.now.area && is_own_of from.now.name held.now.target) }
{
    match &held.target {
        Target::Own(spot) => is_stage(from.area) && is_of(&from.name, spot),
        _ => false,
    }
}

fn uncover(held: Held, from: &Spot) -> Held
    ensures { result ≡ uncover from.now held }
{
    let covered = !is_moved_with(&held, from) && held.covered;
    Held {
        handle: held.handle,
        target: held.target,
        lock: held.lock,
        covered,
    }
}

/// The pod that stood there was moved.
pub fn uncover_all(holdings: &mut [Held], from: &Spot)
    ensures { holdings.new ≡ map (uncover from.now) holdings.old }
{
    for held in holdings.iter_mut() {
        *held = uncover(*held, from);
    }
}

fn recover(held: Held, handle: Handle, before: &[Held]) -> Held
    ensures { result ≡ uncovered_by_close handle before.now held }
{
    let covered = !gives_up_cover(handle, before, &held.target) && held.covered;
    Held {
        handle: held.handle,
        target: held.target,
        lock: held.lock,
        covered,
    }
}

/// What covers a handle is given up with this one.
pub fn recover_all(holdings: &mut [Held], handle: Handle, before: &[Held])
    ensures { holdings.new ≡ map (uncovered_by_close handle before.now) holdings.old }
{
    for held in holdings.iter_mut() {
        *held = recover(*held, handle, before);
    }
}

/// The handle is closed.
pub fn drop_held(holdings: &mut Vec<Held>, handle: Handle)
    ensures { holdings.new.items ≡ filter (λ h. not (is_handle_held handle h)) holdings.old.items }
{
    holdings.retain(|held| !is_number(handle, held))
}

/// The pods whose activation lock is given up with this handle are no longer cleared.
pub fn drop_cleared(seen_unowned_under_claim: &mut Vec<Name>, handle: Handle, before: &[Held])
    ensures { seen_unowned_under_claim.new.items ≡ filter (λ u. not (gives_up (is_claim_held u) handle before.now)) seen_unowned_under_claim.old.items }
{
    seen_unowned_under_claim.retain(|name| !gives_up_claim(name, handle, before))
}

/// Where a pod's own lock was opened is noted. Refused only where memory ran out.
pub fn note_place(seen_unowned: &mut Vec<Spot>, target: &Target) -> Result<(), NoMemory>
    ensures { OnOk result (seen_unowned.new.items ≡ own_spot target.now ++ seen_unowned.old.items) }
{
    match target {
        Target::Own(spot) if is_stage(spot.area) => push_front(seen_unowned, *spot),
        _ => Ok(()),
    }
}

fn note_name(seen_unowned_under_claim: &mut Vec<Name>, target: &Target) -> Result<(), NoMemory>
    ensures { OnOk result (seen_unowned_under_claim.new.items ≡ prepared_name target.now ++ seen_unowned_under_claim.old.items) }
{
    match target {
        Target::Own(spot) if is_in(Area::Prepared, spot.area) => push_front(
            seen_unowned_under_claim,
            spot.name,
        ),
        _ => Ok(()),
    }
}

/// A pod in prepared is cleared by a covered handle. Refused only where memory ran out.
pub fn note_cleared(seen_unowned_under_claim: &mut Vec<Name>, held: &Held) -> Result<(), NoMemory>
    ensures { OnOk result (seen_unowned_under_claim.new.items ≡ cond held.now.covered (prepared_name held.now.target) [] ++ seen_unowned_under_claim.old.items) }
{
    if held.covered {
        return note_name(seen_unowned_under_claim, &held.target);
    }
    Ok(())
}

/// Where a move of a pod led is noted. Refused only where memory ran out.
pub fn note_move(moves: &mut Vec<Spot>, to: &Spot) -> Result<(), NoMemory>
    ensures { OnOk result (moves.new.items ≡ and_move to.now moves.old.items) }
{
    if is_stage(to.area) {
        return push_front(moves, *to);
    }
    Ok(())
}
