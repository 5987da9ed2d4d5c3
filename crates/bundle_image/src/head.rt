// The files beside the root: the manifest, the ID and the listing.
ghost use Rattle.std.specs.Prelude.{◌≡◌, ◌⊎◌, ◌<◌, ◌≤◌, true, None, length, take, IfOk, IfErr, IsErrOf, MatchResult, IsSomeAnd};
ghost use Rattle.dir_model.specs.Causes.{Rose};
ghost use Rattle.dir_trait.specs.Bundles.{directory_prefix};
ghost use Rattle.bundle_image.specs.Reads.{ReadsWithin};
ghost use Rattle.bundle_image.specs.Refusals.{IsBundleFailure};
ghost use Rattle.bundle_image.specs.Heads as form;
ghost use Rattle.bundle_image.specs.Heads.{bundle_file_at, IsBundleManifestOf, IsManifestFault, IsIdFile, IsIdFault, BundleGivesManifest, FailsManifest, BundleGivesId, FailsId, BundleGivesTree, FailsTree};

use crate::place::child;
use crate::read_file;
use crate::refusal::{BundleRefusal, bundle_refusal, listing_refusal, short_of_memory};
use ac_types::{BadId, ImageId, MOST_OF_ID, ReadError, Text};
use dir_trait::{Bundle, BundleError};
use manifests::{ImageManifest, MOST_OF_MANIFEST, read_image};
use std::alloc::Global;
use std::str;
use tree_digest::Listing;
use tree_digest::refusals::MOST_OF_LISTING;

// How long an ID's text is.
const ID_LENGTH: usize = 135;

/// A manifest, and the bytes that it was read from.
#[derive(Drop)]
pub(crate) struct ReadManifest {
    pub(crate) manifest: ImageManifest,
    pub(crate) bytes: Vec<u8>,
}

/// The bytes of a file of the bundle, or its first `most`.
fn read_part<B: Bundle>(
    alloc: Global,
    bundle: &mut B,
    path: &str,
    name: &str,
    most: usize,
) -> Result<Vec<u8>, BundleError>
    requires { 0 < most }
    ensures reads { ReadsWithin B.observed (directory_prefix path.now) (B.shown bundle.old) (B.shown bundle.new) }
    ensures cause { IsErrOf result BundleError.Failed → Rose (B.shown bundle.old).faults (B.shown bundle.new).faults }
    ensures missing { IsErrOf result BundleError.Missing → B.observed ≡ true → bundle_file_at (B.shown bundle.old).tree path.now name.now ≡ None }
    ensures read { IfOk result (λ bytes. B.observed ≡ true → IsSomeAnd (bundle_file_at (B.shown bundle.old).tree path.now name.now) (λ file. bytes.items ≡ take most file)) }
{
    let at = child(alloc, path, name).map_err(short_of_memory)?;
    read_file(alloc, bundle, at.as_str(), most)
}

/// The refusal where a file of the bundle is missing.
fn no_file(alloc: Global, name: &str) -> BundleRefusal
    ensures { (result ≡ BundleRefusal.NoFile name.now) ⊎ (result ≡ BundleRefusal.NoMemory) }
{
    match Text::of(alloc, name) {
        Ok(name) => BundleRefusal::NoFile(name),
        Err(_) => BundleRefusal::NoMemory,
    }
}

fn manifest_of(alloc: Global, bytes: Vec<u8>) -> Result<ReadManifest, BundleRefusal>
    ensures ok { IfOk result (λ read. (read.bytes.items ≡ bytes.items) × IsBundleManifestOf bytes.items read.manifest) }
    ensures fault { IfErr result (λ r. (r ≡ BundleRefusal.NoMemory) ⊎ IsManifestFault bytes.items r) }
{
    match read_image(alloc, &bytes) {
        Ok(manifest) => Ok(ReadManifest { manifest, bytes }),
        Err(ReadError::Bad(fault)) => Err(BundleRefusal::Manifest(fault)),
        Err(ReadError::NoMemory) => Err(BundleRefusal::NoMemory),
    }
}

/// The file `manifest`. `NoFile` where there is none, and its first fault where it is no image manifest.
pub(crate) fn read_manifest<B: Bundle>(
    alloc: Global,
    bundle: &mut B,
    path: &str,
) -> Result<ReadManifest, BundleRefusal>
    ensures reads { ReadsWithin B.observed (directory_prefix path.now) (B.shown bundle.old) (B.shown bundle.new) }
    ensures cause { IsErrOf result BundleRefusal.BundleFault → Rose (B.shown bundle.old).faults (B.shown bundle.new).faults }
    ensures ok { IfOk result (λ read. B.observed ≡ true → BundleGivesManifest (B.shown bundle.old).tree path.now read.manifest read.bytes.items) }
    ensures fault { IfErr result (λ r. B.observed ≡ true → IsBundleFailure r ⊎ FailsManifest (B.shown bundle.old).tree path.now r) }
{
    match read_part(alloc, bundle, path, "manifest", MOST_OF_MANIFEST) {
        Ok(bytes) => manifest_of(alloc, bytes),
        Err(error) => Err(bundle_refusal(error, no_file(alloc, "manifest"))),
    }
}

/// Where an ID's text ends: before a line end behind it.
fn text_end(bytes: &[u8]) -> usize
    ensures end { result ≡ form.text_end bytes.now }
    ensures inside { result ≤ length bytes.now }
{
    if bytes.len() == 136 && bytes[ID_LENGTH] == b'\n' {
        ID_LENGTH
    } else {
        bytes.len()
    }
}

/// An ID's text without the line end behind it.
fn trimmed(bytes: &[u8]) -> &[u8]
    ensures { result.now ≡ form.without_end bytes.now }
{
    let end = text_end(bytes);
    &bytes[..end]
}

fn id_of(bytes: &[u8]) -> Result<ImageId, BundleRefusal>
    ensures { MatchResult result (λ id. IsIdFile bytes.now id.bytes) (IsIdFault bytes.now) }
{
    let Ok(text) = str::from_utf8(trimmed(bytes)) else {
        return Err(BundleRefusal::Id(BadId));
    };
    match ImageId::parse(text) {
        Ok(id) => Ok(id),
        Err(bad) => Err(BundleRefusal::Id(bad)),
    }
}

/// The file `id`: an ID, and at most one line end. `NoFile` where there is none, `Id` where it is another
/// text.
pub(crate) fn read_id<B: Bundle>(
    alloc: Global,
    bundle: &mut B,
    path: &str,
) -> Result<ImageId, BundleRefusal>
    ensures reads { ReadsWithin B.observed (directory_prefix path.now) (B.shown bundle.old) (B.shown bundle.new) }
    ensures cause { IsErrOf result BundleRefusal.BundleFault → Rose (B.shown bundle.old).faults (B.shown bundle.new).faults }
    ensures ok { IfOk result (λ id. B.observed ≡ true → BundleGivesId (B.shown bundle.old).tree path.now id.bytes) }
    ensures fault { IfErr result (λ r. B.observed ≡ true → IsBundleFailure r ⊎ FailsId (B.shown bundle.old).tree path.now r) }
{
    match read_part(alloc, bundle, path, "id", MOST_OF_ID) {
        Ok(bytes) => id_of(&bytes),
        Err(error) => Err(bundle_refusal(error, no_file(alloc, "id"))),
    }
}

/// The listing in the file `tree`, if there is one; else its first fault.
pub(crate) fn read_tree<B: Bundle>(
    alloc: Global,
    bundle: &mut B,
    path: &str,
) -> Result<Option<Listing>, BundleRefusal>
    ensures reads { ReadsWithin B.observed (directory_prefix path.now) (B.shown bundle.old) (B.shown bundle.new) }
    ensures cause { IsErrOf result BundleRefusal.BundleFault → Rose (B.shown bundle.old).faults (B.shown bundle.new).faults }
    ensures ok { IfOk result (λ found. B.observed ≡ true → BundleGivesTree (B.shown bundle.old).tree path.now found) }
    ensures fault { IfErr result (λ r. B.observed ≡ true → IsBundleFailure r ⊎ FailsTree (B.shown bundle.old).tree path.now r) }
{
    match read_part(alloc, bundle, path, "tree", MOST_OF_LISTING) {
        Ok(bytes) => match Listing::read(alloc, &bytes) {
            Ok(listing) => Ok(Some(listing)),
            Err(error) => Err(listing_refusal(error)),
        },
        Err(BundleError::Missing) => Ok(None),
        Err(BundleError::Failed) => Err(BundleRefusal::BundleFault),
        Err(BundleError::NoMemory) => Err(BundleRefusal::NoMemory),
    }
}
