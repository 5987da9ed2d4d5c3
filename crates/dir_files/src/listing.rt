// Listings, and what they tell of the time that they took.
ghost use Rattle.std.specs.Prelude.{◌≡◌, true, IfErr, IfOk, IsErrOf};
ghost use Rattle.std.specs.Ordering.{nat_cmp};
ghost use Rattle.std.specs.Cmp.Lexicographic.{slice_cmp};
ghost use Rattle.std.specs.List.Sorted.{IsStrictlySortedBy};
ghost use Rattle.dir_trait.specs.Causes.{Rose};
ghost use Rattle.dir_trait.specs.Paths.{is_path};
ghost use Rattle.dir_trait.specs.Listings.{item_names};
ghost use Rattle.dir_trait.specs.Replies.{names_reply, items_reply, may_refuse};
ghost use Rattle.dir_trait.specs.Local.{IsActive};
ghost use Rattle.dir_trait.specs.DirCalls.{ListCall};
ghost use Rattle.dir_files.specs.Listed.{ShowsAreaBetween, ShowsDirectoryBetween};

use dir_trait::{Area, Dir, DirError, Items, Names, Request, Spot};
use std::alloc::Global;

/// The names of the folders in an area, in byte order: each that stands there from the beginning of the
/// listing to its end, and only such as stood there at a moment between. `Failed` where the directory
/// failed.
pub fn names_of<D: Dir>(alloc: Global, dir: &mut D, area: Area) -> Result<Names, DirError>
    requires active { IsActive (D.shown dir.old).local }
    ensures cause { IsErrOf result DirError.Failed → Rose (D.shown dir.old).faults (D.shown dir.new).faults }
    ensures refusals { IfErr result (λ e. may_refuse (Request.ListArea area) e ≡ true) }
    ensures ordered { IfOk result (λ names. IsStrictlySortedBy (slice_cmp nat_cmp) names) }
    ensures called { ListCall D.observed (D.shown dir.old) (Request.ListArea area) (names_reply result) (D.shown dir.new) }
    ensures shows { IfOk result (λ names. D.observed ≡ true → ShowsAreaBetween (D.shown dir.old) (D.shown dir.new) area names) }
{
    dir.list_area(alloc, area)
}

/// What stands in a directory of a folder, in byte order of the names, as for an area: of the folder that
/// stands at the location when the listing begins, wherever it is moved. At and below the root of a
/// started app anything may be shown. `Missing` where no directory stood at the path when the listing
/// began, `Failed` where the directory failed.
pub fn items_of<D: Dir>(
    alloc: Global,
    dir: &mut D,
    spot: Spot,
    path: &str,
) -> Result<Items, DirError>
    requires active { IsActive (D.shown dir.old).local }
    requires path { is_path path.now ≡ true }
    ensures cause { IsErrOf result DirError.Failed → Rose (D.shown dir.old).faults (D.shown dir.new).faults }
    ensures refusals { IfErr result (λ e. may_refuse (Request.ListIn (record { spot = spot; path = path.now })) e ≡ true) }
    ensures ordered { IfOk result (λ items. IsStrictlySortedBy (slice_cmp nat_cmp) (item_names items)) }
    ensures called { ListCall D.observed (D.shown dir.old) (Request.ListIn (record { spot = spot; path = path.now })) (items_reply result) (D.shown dir.new) }
    ensures shows { IfOk result (λ items. D.observed ≡ true
        → ShowsDirectoryBetween (D.shown dir.old) (D.shown dir.new) (record { spot = spot; path = path.now }) items) }
{
    dir.list_in(alloc, spot, path)
}
