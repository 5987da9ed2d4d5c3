// The pods among names of folders: each once, and their uuids rise.
ghost use Rattle.std.specs.Prelude.{◌≡◌, ℕ, List, IfOk, IfErr};
ghost use Rattle.std.specs.Ordering.{nat_cmp};
ghost use Rattle.std.specs.Cmp.Lexicographic.{slice_cmp};
ghost use Rattle.std.specs.List.{filter_map};
ghost use Rattle.std.specs.List.Sorted.{IsStrictlySortedBy};
ghost use Rattle.std.specs.BTreeSet.{IsOrdered};
ghost use Rattle.dir_model.specs.Listings.{has_name};
ghost use Rattle.dir_model.specs.Pods.{pod_of_text};
ghost use Rattle.pod_lookup.specs.Pods.{pods_named};

use dir_trait::{Name, PodId};
use phase_read::LookError;
use std::alloc::Global;
use std::collections::BTreeSet;

// Each name once, in byte order.
fn gathered(alloc: Global, names: &[Name]) -> Result<BTreeSet<Name>, LookError>
    ensures has { IfOk result (λ sorted. (name : List ℕ) → has_name sorted.keys name ≡ has_name names.now name) }
    ensures ordered { IfOk result (λ sorted. IsOrdered (slice_cmp nat_cmp) sorted) }
    ensures memory { IfErr result (λ e. e ≡ LookError.NoMemory) }
{
    let mut sorted = BTreeSet::new(alloc);
    'names: for name in names {
        match sorted.insert(*name) {
            Ok(_) => {}
            Err(_) => return Err(LookError::NoMemory),
        }
    }
    Ok(sorted)
}

fn sorted_names(alloc: Global, names: &[Name]) -> Result<Vec<Name>, LookError>
    ensures has { IfOk result (λ sorted. (name : List ℕ) → has_name sorted.items name ≡ has_name names.now name) }
    ensures ordered { IfOk result (λ sorted. IsStrictlySortedBy (slice_cmp nat_cmp) sorted.items) }
    ensures memory { IfErr result (λ e. e ≡ LookError.NoMemory) }
{
    let sorted = gathered(alloc, names)?;
    match sorted.iter().copied().collect(alloc) {
        Ok(list) => Ok(list),
        Err(_) => Err(LookError::NoMemory),
    }
}

// The pods of which these are the names.
fn parsed(alloc: Global, names: &[Name]) -> Result<Vec<PodId>, LookError>
    ensures pods { IfOk result (λ pods. pods.items ≡ filter_map pod_of_text names.now) }
    ensures memory { IfErr result (λ e. e ≡ LookError.NoMemory) }
{
    let mut pods = Vec::new(alloc);
    'names: for name in names {
        if let Some(pod) = PodId::parse(name.as_str()) {
            match pods.push(pod) {
                Ok(()) => {}
                Err(_) => return Err(LookError::NoMemory),
            }
        }
    }
    Ok(pods)
}

/// The pods among names of folders, each once, and their uuids rise. A name that isn't a uuid is passed
/// over. Refused only where memory ran out.
pub(crate) fn pods_among(alloc: Global, names: &[Name]) -> Result<Vec<PodId>, LookError>
    ensures among { IfOk result (λ pods. pods.items ≡ pods_named names.now) }
    ensures memory { IfErr result (λ e. e ≡ LookError.NoMemory) }
{
    let sorted = sorted_names(alloc, names)?;
    parsed(alloc, &sorted)
}
