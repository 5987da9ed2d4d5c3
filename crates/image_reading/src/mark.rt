// The marks that say when an image was imported.
ghost use Rattle.std.specs.Prelude.{◌≡◌, [], MatchOption};
ghost use Rattle.image_reading.specs.Marks.{imported_moment, imported_moments, IsGreatest};

use dir_trait::Item;
use marks::{later, moment_of};

/// The moment of a mark. None where the name is no mark, or its digits stand for more than a number of 64
/// bits.
fn imported_moment(name: &[u8]) -> Option<u64>
    ensures { result ≡ imported_moment name.now }
{
    moment_of(b"imported-", name)
}

/// The greatest moment of the marks among the items.
pub(crate) fn greatest_moment(items: &[Item]) -> Option<u64>
    ensures { MatchOption result (imported_moments items.now ≡ []) (IsGreatest (imported_moments items.now)) }
{
    let mut best = None;
    'items: for item in items {
        best = later(best, imported_moment(item.name.as_str().as_bytes()));
    }
    best
}
