// The listing of walked lines.
ghost use Rattle.std.specs.Prelude.{◌≡◌, ℕ, List, IfOk};
ghost use Rattle.path_map.specs.Entries.{entry_at};
ghost use Rattle.tree_digest.specs.Listings.{entries_of, lines_of, AreListable};
ghost use Rattle.bundle_image.specs.Lines.{AreFewLines};
ghost use Rattle.bundle_image.specs.Work.{AreLaid};

use ac_types::NoMemory;
use path_map::PathMap;
use std::alloc::Global;
use tree_digest::{Listing, ListingError, ListingLine};

fn map_of(alloc: Global, lines: &[ListingLine]) -> Result<PathMap, NoMemory>
    requires { AreLaid lines.now }
    ensures entries { IfOk result (λ map. (q : List ℕ) → entry_at map q ≡ entry_at (entries_of lines.now) q) }
    ensures listable { IfOk result (λ map. AreListable (entry_at map)) }
    ensures few { IfOk result (λ map. AreFewLines (lines_of map)) }
{
    let mut map = PathMap::new(alloc);
    for line in lines {
        map = map.overlay(alloc, line.path.copy()?, line.entry.copy()?)?;
    }
    // The clause of `iter` says that its paths rise.
    let _entries = map.iter();
    Ok(map)
}

/// The listing of the same entries. Refused only where memory ran out.
pub(crate) fn listing_of(alloc: Global, lines: &[ListingLine]) -> Result<Listing, NoMemory>
    requires { AreLaid lines.now }
    ensures { IfOk result (λ listing. (q : List ℕ) → entry_at (entries_of listing) q ≡ entry_at (entries_of lines.now) q) }
{
    let map = map_of(alloc, lines)?;
    match Listing::of_map(alloc, &map) {
        Ok(listing) => Ok(listing),
        Err(ListingError::NoMemory) => Err(NoMemory),
        Err(_) => unreachable!(),
    }
}
