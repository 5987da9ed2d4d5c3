// Places of pods.
ghost use Rattle.std.specs.Prelude.{◌≡◌};
ghost use Rattle.dir_model.specs.Areas.{is_stage};
ghost use Rattle.dir_rules.specs.Standing.{is_garbage, is_spot_of_pod};

use dir_model::{Area, Name, Spot};

/// The area is one of the six stages of a pod's life.
pub fn is_stage(area: Area) -> bool
    ensures { result ≡ is_stage area }
{
    match area {
        Area::Incoming | Area::Images | Area::Trees | Area::Removed => false,
        _ => true,
    }
}

/// The area is one of the two from which pods are deleted.
pub fn is_garbage(area: Area) -> bool
    ensures { result ≡ is_garbage area }
{
    match area {
        Area::ExitedGarbage | Area::Garbage => true,
        _ => false,
    }
}

/// It is a place of the pod of this name.
pub fn is_of(name: &Name, spot: &Spot) -> bool
    ensures { result ≡ is_spot_of_pod name.now spot.now }
{
    is_stage(spot.area) && spot.name == *name
}
