// Paths made of two texts.
ghost use Rattle.std.specs.Prelude.{◌≡◌, ◌++◌, IfOk};
ghost use Rattle.dir_trait.specs.Bundles.{child_path};

use ac_types::{NoMemory, Text};
use std::alloc::Global;

/// A text and what follows it.
pub(crate) fn joined(alloc: Global, front: &str, rest: &str) -> Result<Text, NoMemory>
    ensures { IfOk result (λ text. text ≡ front.now ++ rest.now) }
{
    let mut text = String::from_str(alloc, front)?;
    text.push_str(rest)?;
    Ok(Text::from_string(text))
}

/// The path of a name in a directory of the bundle.
pub(crate) fn child(alloc: Global, directory: &str, name: &str) -> Result<Text, NoMemory>
    ensures { IfOk result (λ path. path ≡ child_path directory.now name.now) }
{
    if directory.is_empty() {
        return Text::of(alloc, name);
    }
    let front = joined(alloc, directory, "/")?;
    joined(alloc, front.as_str(), name)
}
