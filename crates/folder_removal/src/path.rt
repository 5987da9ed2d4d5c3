// Paths inside a folder, put together name by name.
ghost use Rattle.std.specs.Prelude.{◌≡◌, true, string_bytes, IfOk};
ghost use Rattle.dir_trait.specs.Paths.{is_path};
ghost use Rattle.dir_trait.specs.Names.{IsFileName};
ghost use Rattle.dir_rules.specs.Marks.{path_in};

use dir_trait::FileName;
use std::alloc::{AllocError, Global};
use std::marker::Model;

/// A path inside a folder: file names parted by `/`. Contracts see its bytes.
#[derive(Drop)]
pub struct ItemPath {
    text: String,
}

impl Model for ItemPath {
    ghost use Rattle.std.specs.Prelude.{◌≡◌, ℕ, List, true, string_bytes};
    ghost use Rattle.dir_trait.specs.Paths.{is_path};

    ghost Value = { List ℕ };

    ghost view = { λ p. string_bytes p.text };

    ghost invariant = { λ p. is_path (string_bytes p.text) ≡ true };
}

impl ItemPath {
    /// The path's bytes.
    pub fn as_str(&self) -> &str
        ensures text { result.now ≡ self.now }
        ensures path { is_path self.now ≡ true }
    {
        self.text.as_str()
    }
}

fn joined(alloc: Global, directory: &str, name: &str) -> Result<String, AllocError>
    ensures { IfOk result (λ text. string_bytes text ≡ path_in directory.now name.now) }
{
    if directory.is_empty() {
        return String::from_str(alloc, name);
    }
    let mut text = String::from_str(alloc, directory)?;
    text.push_str("/")?;
    text.push_str(name)?;
    Ok(text)
}

/// A directory's path and a name in it. Refused only where memory ran out.
pub fn join(alloc: Global, directory: &str, name: &FileName) -> Result<ItemPath, AllocError>
    requires { is_path directory.now ≡ true }
    ensures name { IsFileName name.now }
    ensures path { IfOk result (λ path. path ≡ path_in directory.now name.now) }
{
    let text = joined(alloc, directory, name.as_str())?;
    Ok(ItemPath { text })
}
