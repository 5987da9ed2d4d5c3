//! The check of a file's bytes.

ghost use Rattle.std.specs.Prelude.{◌≡◌, ◌↔◌, ◌++◌, ℕ, List, [], length, IsTrue};
ghost use Rattle.sha2.specs.Sha512.{sha512};
ghost use Rattle.tree_digest.specs.FileChecks.{HasTaken, less_by};

use sha2::{Digest, Sha512};

/// Whether bytes that come in pieces are those of a file of a size and SHA-512.
#[derive(Drop)]
pub struct FileCheck {
    hasher: Sha512,
    left: Option<u64>,
    sha: [u8; 64],
}

impl FileCheck {
    /// A check of a size and a SHA-512, before the first piece.
    pub fn new(size: u64, sha: [u8; 64]) -> FileCheck
        ensures { HasTaken result size sha [] }
    {
        FileCheck {
            hasher: Sha512::new(),
            left: Some(size),
            sha,
        }
    }

    /// Takes the next piece.
    pub fn piece(&mut self, piece: &[u8])
        ensures { (size : ℕ) (sha message : List ℕ)
            → HasTaken self.old size sha message → HasTaken self.new size sha (message ++ piece.now) }
    {
        self.hasher.update(piece);
        self.left = less(self.left, piece.len());
    }

    /// Whether the pieces have that length and SHA-512, however they were cut.
    pub fn matches(self) -> bool
        ensures { (size : ℕ) (sha message : List ℕ) → HasTaken self size sha message
            → (IsTrue result ↔ ((length message ≡ size) × (sha512 message ≡ sha))) }
    {
        let digest = self.hasher.finalize();
        same(&digest, &self.sha) && self.left == Some(0)
    }
}

/// How much is left after a piece.
fn less(left: Option<u64>, length: usize) -> Option<u64>
    ensures { result ≡ less_by left length }
{
    left?.checked_sub(length as u64)
}

fn same(left: &[u8], right: &[u8]) -> bool
    ensures { IsTrue result ↔ (left.now ≡ right.now) }
{
    left == right
}
