// The laws of images that stand together, each the contract of a function.
ghost use Rattle.standing_images.specs.Laws.{StoresStand, QuietStores, OneStore, StoresBefore, DamagesBefore, OneDamage, DamagedIsNone};

use dir_model::History;

/// What a process reads of the store, while it has the area lock of images shared and asks for nothing but
/// reads and listings of images, stood there together just after one of its own events. It is all that
/// stood there when its listing of the area had begun. Where nobody else steps meanwhile, it is the store
/// as the state before had it.
pub fn images(history: &History)
    ensures stand { StoresStand history.now.items }
    ensures quiet { QuietStores history.now.items }
{
    let _events = history.as_slice();
}

/// After a trace one list of images is the store, by what is seen of them: their keys, IDs and moments, and
/// what their manifests show.
pub fn one_store(history: &History)
    ensures { OneStore history.now.items }
{
    let _events = history.as_slice();
}

/// While the images stay as they are, what a process reads of the store is so of the state before: the store
/// itself, or the first part that isn't whole of those that it read.
pub fn unchanged(history: &History)
    ensures store { StoresBefore history.now.items }
    ensures damage { DamagesBefore history.now.items }
{
    let _events = history.as_slice();
}

/// After a trace one path is that of the first damage: of the first image that isn't whole, in the byte order of
/// the keys' texts, the first of its manifest, its ID and its mark that is missing or has no reading. Where there
/// is one, no list of images is the store.
pub fn one_damage(history: &History)
    ensures one { OneDamage history.now.items }
    ensures none { DamagedIsNone history.now.items }
{
    let _events = history.as_slice();
}
