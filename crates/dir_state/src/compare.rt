// When two things are the same, what handles stand for, and which locks conflict.
ghost use Rattle.std.specs.Prelude.{◌≡◌};
ghost use Rattle.dir_model.specs.Areas.{rank};
ghost use Rattle.dir_model.specs.Locks.{target_of, is_handle, opposes, is_same_folder, is_same_lock};
ghost use Rattle.dir_model.specs.Listings.{kind_number};
ghost use Rattle.dir_model.specs.State.{spot_eq, is_at};
ghost use Rattle.dir_model.specs.Trace.{moved, removed, locked};

use dir_model::{Area, Handle, ItemKind, Mode, Opening, Spot, Target, Which};

/// An area's number.
pub fn area_rank(area: Area) -> u8
    ensures { result ≡ rank area }
{
    match area {
        Area::Embryo => 0,
        Area::Prepare => 1,
        Area::Prepared => 2,
        Area::Run => 3,
        Area::ExitedGarbage => 4,
        Area::Garbage => 5,
        Area::Incoming => 6,
        Area::Images => 7,
        Area::Trees => 8,
        Area::Removed => 9,
    }
}

/// Whether the two are one location.
pub fn same_spot(a: &Spot, b: &Spot) -> bool
    ensures { result ≡ spot_eq a.now b.now }
{
    area_rank(a.area) == area_rank(b.area) && a.name == b.name
}

/// Whether a folder that is here stands at the location.
pub fn is_here(spot: &Spot, place: &Option<Spot>) -> bool
    ensures { result ≡ is_at spot.now place.now }
{
    match place {
        None => false,
        Some(here) => same_spot(here, spot),
    }
}

/// Where a folder is after a move.
pub fn moved_place(place: Option<Spot>, from: &Spot, to: &Spot) -> Option<Spot>
    ensures { result ≡ moved from.now to.now place }
{
    if is_here(from, &place) {
        Some(*to)
    } else {
        place
    }
}

/// Whether it is this handle of this process.
pub fn is_this(process: u32, handle: Handle, opening: &Opening) -> bool
    ensures { result ≡ is_handle process handle opening.now }
{
    opening.process == process && opening.handle.number == handle.number
}

fn is_same_folder(a: Option<usize>, b: Option<usize>) -> bool
    ensures { result ≡ is_same_folder a b }
{
    match (a, b) {
        (Some(a), Some(b)) => b == a,
        _ => false,
    }
}

/// Whether two handles stand for one lock.
pub fn is_same_lock(a: &Opening, b: &Opening) -> bool
    ensures { result ≡ is_same_lock a.now b.now }
{
    match (a.target, b.target) {
        (Target::Own(_), Target::Own(_)) => is_same_folder(a.folder, b.folder),
        (Target::Claim(_), Target::Claim(_)) => is_same_folder(a.folder, b.folder),
        (Target::Gate(area), Target::Gate(gate)) => area_rank(area) == area_rank(gate),
        _ => false,
    }
}

/// Whether a lock in this mode can't be had while another handle holds that.
pub fn is_opposed(mode: Mode, lock: &Option<Mode>) -> bool
    ensures { result ≡ opposes mode lock.now }
{
    match (mode, lock) {
        (_, None) => false,
        (Mode::Shared, Some(Mode::Shared)) => false,
        (Mode::Shared, Some(Mode::Exclusive)) => true,
        (Mode::Exclusive, Some(_)) => true,
    }
}

/// The opening after a lock was taken by a handle.
pub fn locked_opening(opening: Opening, process: u32, handle: Handle, mode: Mode) -> Opening
    ensures { result ≡ locked process handle mode opening }
{
    if is_this(process, handle, &opening) {
        Opening {
            process: opening.process,
            handle: opening.handle,
            target: opening.target,
            folder: opening.folder,
            lock: Some(mode),
        }
    } else {
        opening
    }
}

/// Where a folder is after a removal at a location.
pub fn removed_place(place: Option<Spot>, spot: &Spot) -> Option<Spot>
    ensures { result ≡ removed spot.now place }
{
    if is_here(spot, &place) { None } else { place }
}

/// What a handle is opened for.
pub fn target_of(spot: &Spot, which: Which) -> Target
    ensures { result ≡ target_of spot.now which }
{
    match which {
        Which::Own => Target::Own(*spot),
        Which::Claim => Target::Claim(*spot),
    }
}

/// A kind's number.
pub fn kind_number(kind: ItemKind) -> u8
    ensures { result ≡ kind_number kind }
{
    match kind {
        ItemKind::Dir => 0,
        ItemKind::File => 1,
        ItemKind::Other => 2,
    }
}
