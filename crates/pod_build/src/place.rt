// From where a pod is moved.
ghost use Rattle.std.specs.Prelude.{◌≡◌};
ghost use Rattle.pod_build.specs.MakingRequests.{area_before};

use dir_trait::Area;

/// From which area the maker moves the pod to this one. It leaves embryo once.
pub(crate) fn area_before(to: Area) -> Area
    ensures { result ≡ area_before to }
{
    match to {
        Area::Prepare => Area::Embryo,
        _ => Area::Prepare,
    }
}
