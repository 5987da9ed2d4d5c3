//! The best of the images that a reference or a dependency matches.

ghost use Rattle.std.specs.Prelude.{◌≡◌, ◌<◌, ◌↔◌, ◌&&◌, None, [], length, IfSome};
ghost use Rattle.std.specs.List.{filter};
ghost use Rattle.dep_match.specs.Selection.{best_match, matches, matches_dependency, outranks, IsPlaceOf};
ghost use Rattle.dep_match.specs.Steps.{accepts, outranks_place};

use crate::stored::Stored;
use crate::wanted::{Wanted, accepts};
use ac_types::ImageRef;
use manifests::Dependency;

/// The place of the image that a reference names: of those that match it the one with the
/// greatest moment, of several such that with the greatest key, of several such the first in the
/// list; `None` exactly where none matches. An image matches a name with labels when it has the
/// name and each of the labels with its value, and digits when its ID begins with them. Takes no
/// memory.
pub fn best(list: &[Stored], wanted: &ImageRef) -> Option<usize>
    ensures place { result ≡ best_match (matches wanted.now) list.now }
    ensures within { IfSome result (λ place. place < length list.now) }
    ensures matches { IfSome result (IsPlaceOf (matches wanted.now) list.now) }
    ensures none { (result ≡ None) ↔ (filter (matches wanted.now) list.now ≡ []) }
{
    best_of(list, &Wanted::Reference(wanted))
}

/// The place of the image that a dependency names, chosen as by `best`; where the dependency
/// gives an ID, an image matches only if it has that one. Takes no memory.
pub fn best_dependency(list: &[Stored], wanted: &Dependency) -> Option<usize>
    ensures place { result ≡ best_match (matches_dependency wanted.now) list.now }
    ensures within { IfSome result (λ place. place < length list.now) }
    ensures matches { IfSome result (IsPlaceOf (matches_dependency wanted.now) list.now) }
    ensures none { (result ≡ None) ↔ (filter (matches_dependency wanted.now) list.now ≡ []) }
{
    best_of(list, &Wanted::Dependent(wanted))
}

fn best_of(list: &[Stored], wanted: &Wanted) -> Option<usize>
    ensures place { result ≡ best_match (accepts wanted.now) list.now }
    ensures within { IfSome result (λ place. place < length list.now) }
    ensures matches { IfSome result (IsPlaceOf (accepts wanted.now) list.now) }
    ensures none { (result ≡ None) ↔ (filter (accepts wanted.now) list.now ≡ []) }
{
    let mut best = None;
    for (i, image) in list.iter().enumerate() {
        if is_better(list, image, best, wanted) {
            best = Some(i);
        }
    }
    best
}

/// Whether the image is looked for, and outranks the one at that place, where there is one.
fn is_better(list: &[Stored], image: &Stored, best: Option<usize>, wanted: &Wanted) -> bool
    requires { IfSome best (λ place. place < length list.now) }
    ensures { result ≡ (accepts wanted.now image.now && outranks_place list.now best image.now) }
{
    accepts(wanted, image) && outranks_place(list, best, image)
}

fn outranks_place(list: &[Stored], best: Option<usize>, image: &Stored) -> bool
    requires { IfSome best (λ place. place < length list.now) }
    ensures { result ≡ outranks_place list.now best image.now }
{
    match best {
        Some(place) => outranks(image, &list[place]),
        None => true,
    }
}

fn outranks(image: &Stored, other: &Stored) -> bool
    ensures { result ≡ outranks image.now other.now }
{
    image
        .moment
        .cmp(&other.moment)
        .then(image.key.cmp(&other.key))
        .is_gt()
}
