// Lists that grow at their front.
ghost use Rattle.std.specs.Prelude.{◌≡◌, ◌∷◌, OnOk};
ghost use Rattle.dir_model.specs.Paths.{is_empty};

use dir_model::NoMemory;

/// Whether there is nothing in the list.
pub fn is_empty<T>(items: &[T]) -> bool
    ensures { result ≡ is_empty items.now }
{
    match items {
        [] => true,
        [_, ..] => false,
    }
}

/// Puts an item before all others. Refused only where memory ran out.
pub fn push_front<T: Drop>(items: &mut Vec<T>, item: T) -> Result<(), NoMemory>
    ensures { OnOk result (items.new.items ≡ item ∷ items.old.items) }
{
    items.insert(0, item)?;
    Ok(())
}
