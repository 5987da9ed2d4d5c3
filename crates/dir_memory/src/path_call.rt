// Calls about a path inside a folder whose Ok carries nothing.
ghost use Rattle.std.specs.Prelude.{◌≡◌};
ghost use Rattle.dir_memory.specs.PathCalls.{path_request};

use dir_model::{Inner, Request};

/// What is done at the path.
#[derive(Clone, Copy)]
pub enum PathCall {
    MakeDir,
    MakeFile,
    Sync,
    RemoveFile,
    RemoveDir,
}

impl PathCall {
    /// The request for it.
    pub fn request(self, inner: Inner) -> Request
        ensures { result ≡ path_request self inner }
    {
        match self {
            PathCall::MakeDir => Request::MakeDirIn(inner),
            PathCall::MakeFile => Request::MakeFileIn(inner),
            PathCall::Sync => Request::SyncIn(inner),
            PathCall::RemoveFile => Request::RemoveFileIn(inner),
            PathCall::RemoveDir => Request::RemoveDirIn(inner),
        }
    }
}
