//! The laws of listings, each the contract of a function: that reading and writing undo each
//! other, that no two listings have one text and no text two first faults, and what beginnings are.
#![tactic(auto)]

ghost use Rattle.std.specs.Prelude.{◌≡◌, ℕ, List, ◌++◌, IfOk};
ghost use Rattle.tree_digest.specs.declared.line.ListingLine.{ListingLine};
ghost use Rattle.tree_digest.specs.declared.listing_error.ListingError.{ListingError as Refusal};
ghost use Rattle.tree_digest.specs.declared.listing_error.ListingError.TheVariants.{BadLine};
ghost use Rattle.tree_digest.specs.Listings.{listing_text, line_count, IsListing, Fails};
ghost use Rattle.listing_laws.specs.Beginnings.{IsEnded};

use ac_types::NoMemory;
use std::alloc::Global;
use tree_digest::{Listing, ListingError};

/// No two listings have one text.
pub fn one_text(left: &Listing, right: &Listing)
    ensures { listing_text left.now ≡ listing_text right.now → left.now ≡ right.now }
{
    // The clauses of `as_slice` say that they are listings.
    let _left = left.as_slice();
    let _right = right.as_slice();
}

/// What reading the text of a listing gives: that listing.
pub fn read_again(alloc: Global, listing: &Listing) -> Result<Listing, NoMemory>
    ensures { IfOk result (λ read. read ≡ listing.now) }
{
    let _lines = listing.as_slice();
    let text = listing.write(alloc)?;
    match Listing::read(alloc, &text) {
        Ok(read) => Ok(read),
        Err(error) => match error {
            ListingError::NoMemory => Err(NoMemory),
            _ => unreachable!(),
        },
    }
}

/// A text has at most one first fault, and the text of a listing has none.
pub fn first_fault(text: &[u8])
    ensures once { (error other : Refusal) → Fails text.now error → Fails text.now other → error ≡ other }
    ensures never { (lines : List ListingLine) (error : Refusal) → IsListing lines
        → text.now ≡ listing_text lines → ¬ Fails text.now error }
{
    let _text = text;
}

/// A beginning of a listing's text that is empty or ends with a line end is a listing's text; any
/// other is refused at its last line, which is of no form.
pub fn beginnings(listing: &Listing)
    ensures ended { (front back : List ℕ) → listing_text listing.now ≡ front ++ back → IsEnded front
        → (whole : List ListingLine) × IsListing whole × (front ≡ listing_text whole) }
    ensures broken { (front back : List ℕ) → listing_text listing.now ≡ front ++ back → ¬ IsEnded front
        → Fails front (BadLine (line_count front)) }
{
    let _lines = listing.as_slice();
}
