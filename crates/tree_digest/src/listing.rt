//! Listings.

ghost use Rattle.std.specs.Prelude.{◌≡◌, ◌⊎◌, IfOk, IfErr};
ghost use Rattle.tree_digest.specs.Digests.{tree_digest, image_digest};
ghost use Rattle.tree_digest.specs.Listings.{listing_text, IsListing, Fails};

use crate::line::ListingLine;
use crate::listing_error::ListingError;
use crate::read_lines::{limit_fault, read_lines};
use crate::write_line::write_line;
use ac_types::{ImageId, NoMemory, TryCopy, lower_hex};
use sha2::{Digest, Sha512};
use std::alloc::Global;
use std::marker::Model;

/// A listing of a tree. Contracts see its lines.
#[derive(Drop)]
pub struct Listing {
    alloc: Global,
    lines: Vec<ListingLine>,
}

impl Model for Listing {
    ghost use Rattle.std.specs.Prelude.{List};
    ghost use Rattle.tree_digest.specs.declared.line.ListingLine.{ListingLine};
    ghost use Rattle.tree_digest.specs.Listings.{IsListing};

    ghost Value = { List ListingLine };

    ghost view = { λ l. l.lines.items };

    ghost invariant = { λ l. IsListing l.lines.items };
}

impl Listing {
    /// The listing of some lines.
    pub(crate) fn new(alloc: Global, lines: Vec<ListingLine>) -> Listing
        requires { IsListing lines.items }
        ensures { result ≡ lines.items }
    {
        Listing { alloc, lines }
    }

    /// The listing that a text is. Else the first of these is answered: `TooMany` for
    /// more than 65,536 lines, a last one without an end counted, or 33,554,432 bytes; at
    /// the first line with a fault `BadLine`, `FileTooLong`, `NotSorted`, `NoParent`.
    pub fn read(alloc: Global, bytes: &[u8]) -> Result<Listing, ListingError>
        ensures ok { IfOk result (λ listing. bytes.now ≡ listing_text listing) }
        ensures kind { IfOk result IsListing }
        ensures fault { IfErr result (λ e. (e ≡ ListingError.NoMemory) ⊎ Fails bytes.now e) }
    {
        if let Some(error) = limit_fault(bytes) {
            return Err(error);
        }
        match read_lines(alloc, bytes) {
            Ok(lines) => Ok(Listing::new(alloc, lines)),
            Err(error) => Err(error),
        }
    }

    /// The lines.
    pub fn as_slice(&self) -> &[ListingLine]
        ensures lines { result.now ≡ self.now }
        ensures kind { IsListing self.now }
    {
        self.lines.as_slice()
    }

    /// Its text.
    pub fn write(&self, alloc: Global) -> Result<Vec<u8>, NoMemory>
        ensures { IfOk result (λ text. text.items ≡ listing_text self.now) }
    {
        let lines = self.as_slice();
        let mut out = Vec::new(alloc);
        for line in lines {
            write_line(alloc, &mut out, line)?;
        }
        Ok(out)
    }

    /// The SHA-512 of its text.
    pub fn digest(&self, alloc: Global) -> Result<[u8; 64], NoMemory>
        ensures { IfOk result (λ digest. digest ≡ tree_digest self.now) }
    {
        let text = self.write(alloc)?;
        Ok(Sha512::digest(&text))
    }

    /// The digest of the image with that ID, that text of its manifest and this listing:
    /// the SHA-512 of the ID's text, a line end, the SHA-512 of the manifest's bytes in
    /// lower-case hex digits, a line end, and the listing's text.
    pub fn image_digest(
        &self,
        alloc: Global,
        id: ImageId,
        manifest: &[u8],
    ) -> Result<[u8; 64], NoMemory>
        ensures { IfOk result (λ digest. digest ≡ image_digest id manifest.now self.now) }
    {
        let name = id.text(alloc)?;
        let text = self.write(alloc)?;
        let mut hasher = Sha512::new();
        hasher.update(name.as_str().as_bytes());
        hasher.update(b"\n");
        hasher.update(&lower_hex(&Sha512::digest(manifest)));
        hasher.update(b"\n");
        hasher.update(&text);
        Ok(hasher.finalize())
    }

    /// An equal listing.
    pub fn copy(&self) -> Result<Listing, NoMemory>
        ensures { IfOk result (λ copy. copy ≡ self.now) }
    {
        let mut lines = Vec::new(self.alloc);
        for line in &self.lines {
            lines.push(line.copy()?)?;
        }
        Ok(Listing {
            alloc: self.alloc,
            lines,
        })
    }
}

impl TryCopy for Listing {
    fn try_copy(&self) -> Result<Listing, NoMemory> {
        self.copy()
    }
}
