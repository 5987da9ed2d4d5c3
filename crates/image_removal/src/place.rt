// Where folders stand that are to go.
ghost use Rattle.std.specs.Prelude.{◌≡◌};
ghost use Rattle.image_removal.specs.Requests.{incoming_spot, removed_spot, away_spot};
ghost use Rattle.image_removal.specs.Passes.{is_uuid};

use dir_trait::{Area, Name, PodId, Spot};

/// The folder of this name in incoming.
pub(crate) fn incoming_spot(name: Name) -> Spot
    ensures { result ≡ incoming_spot name }
{
    Spot {
        area: Area::Incoming,
        name,
    }
}

/// The folder of this name in removed.
pub(crate) fn removed_spot(name: Name) -> Spot
    ensures { result ≡ removed_spot name }
{
    Spot {
        area: Area::Removed,
        name,
    }
}

/// Where the process with this draw puts an image away.
pub(crate) fn away_spot(draw: PodId) -> Spot
    ensures { result ≡ away_spot draw }
{
    removed_spot(draw.name())
}

/// Whether the name is a uuid's text. Folders with other names aren't this store's.
pub(crate) fn is_uuid(name: &Name) -> bool
    ensures { result ≡ is_uuid name.now }
{
    PodId::parse(name.as_str()).is_some()
}
