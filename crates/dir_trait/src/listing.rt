// Listings of directories.
ghost use Rattle.std.specs.Prelude.{◌≡◌, map, IfOk};
ghost use Rattle.std.specs.Ordering.{nat_cmp};
ghost use Rattle.std.specs.Cmp.Lexicographic.{slice_cmp};
ghost use Rattle.std.specs.BTreeMap.{IsOrdered};
ghost use Rattle.dir_trait.specs.Bundles.{bundle_item_of, IsBundleListing};

use crate::bundle::{BundleItem, BundleItems, BundleKind};
use dir_model::{FileName, NoMemory, Sequence};
use std::alloc::{AllocError, Global};
use std::collections::BTreeMap;

fn items_of(
    alloc: Global,
    kinds: &BTreeMap<FileName, BundleKind>,
) -> Result<Vec<BundleItem>, AllocError>
    ensures items { IfOk result (λ items. items.items ≡ map bundle_item_of kinds.now.entries) }
    ensures ordered { IsOrdered (slice_cmp nat_cmp) kinds.now }
{
    kinds
        .iter()
        .map(|(name, kind)| BundleItem {
            name: *name,
            kind: *kind,
        })
        .collect(alloc)
}

/// The items of names with their kinds. Refused only where memory ran out.
pub fn listing_of(
    alloc: Global,
    kinds: &BTreeMap<FileName, BundleKind>,
) -> Result<BundleItems, NoMemory>
    ensures items { IfOk result (λ items. items ≡ map bundle_item_of kinds.now.entries) }
    ensures ordered { IfOk result IsBundleListing }
{
    let items = items_of(alloc, kinds)?;
    Ok(Sequence::from_vec(items))
}
