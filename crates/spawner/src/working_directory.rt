// Where a program starts.
ghost use Rattle.std.specs.Prelude.{◌≡◌, IfOk};

use dir_trait::NoMemory;
use std::alloc::Global;
use std::marker::Model;

/// The directory in which a program starts, seen from its app's root. Contracts see the bytes of its
/// path.
#[derive(Drop)]
pub struct WorkingDirectory {
    path: String,
}

impl Model for WorkingDirectory {
    ghost use Rattle.std.specs.Prelude.{ℕ, List, string_bytes};

    ghost Value = { List ℕ };

    ghost view = { λ d. string_bytes d.path };
}

impl WorkingDirectory {
    /// The directory at a path. Refused only where memory ran out.
    pub fn of(alloc: Global, path: &str) -> Result<WorkingDirectory, NoMemory>
        ensures { IfOk result (λ directory. directory ≡ path.now) }
    {
        Ok(WorkingDirectory {
            path: String::from_str(alloc, path)?,
        })
    }

    /// Its path.
    pub fn as_str(&self) -> &str
        ensures { result.now ≡ self.now }
    {
        self.path.as_str()
    }
}
