// Areas and locations.
ghost use Rattle.std.specs.Prelude.{◌≡◌};
ghost use Rattle.dir_model.specs.Areas.{rank, is_stage};
ghost use Rattle.dir_model.specs.State.{spot_eq};
ghost use Rattle.dir_rules.specs.Standing.{is_in, is_garbage, is_spot_of_pod};
ghost use Rattle.dir_rules.specs.Seen.{inner_eq};

use dir_model::{Area, Inner, Name, Spot};

fn area_rank(area: Area) -> u8
    ensures { result ≡ rank area }
{
    match area {
        Area::Embryo => 0,
        Area::Prepare => 1,
        Area::Prepared => 2,
        Area::Run => 3,
        Area::ExitedGarbage => 4,
        Area::Garbage => 5,
        Area::Incoming => 6,
        Area::Images => 7,
        Area::Trees => 8,
        Area::Removed => 9,
    }
}

/// Whether the two are one area.
pub fn is_in(area: Area, here: Area) -> bool
    ensures { result ≡ is_in area here }
{
    area_rank(area) == area_rank(here)
}

/// Whether it is one of the six stages of a pod's life.
pub fn is_stage(area: Area) -> bool
    ensures { result ≡ is_stage area }
{
    match area {
        Area::Embryo => true,
        Area::Prepare => true,
        Area::Prepared => true,
        Area::Run => true,
        Area::ExitedGarbage => true,
        Area::Garbage => true,
        _ => false,
    }
}

/// Whether pods are removed there.
pub fn is_garbage(area: Area) -> bool
    ensures { result ≡ is_garbage area }
{
    matches!(area, Area::ExitedGarbage | Area::Garbage)
}

/// Whether it is a place of the pod with this name.
pub fn is_of(name: &Name, spot: &Spot) -> bool
    ensures { result ≡ is_spot_of_pod name.now spot.now }
{
    is_stage(spot.area) && spot.name == *name
}

/// Whether the two are one location.
pub fn same_spot(a: &Spot, b: &Spot) -> bool
    ensures { result ≡ spot_eq a.now b.now }
{
    area_rank(a.area) == area_rank(b.area) && a.name == b.name
}

/// Whether the two are one path.
pub fn same_inner(a: &Inner, b: &Inner) -> bool
    ensures { result ≡ inner_eq a.now b.now }
{
    same_spot(&a.spot, &b.spot) && a.path.as_slice() == b.path.as_slice()
}
