// What an image bundle says.
ghost use Rattle.std.specs.Prelude.{◌≡◌, ◌⊎◌, ℕ, List, codes, true, false, IfOk, IfErr, IsErrOf};
ghost use Rattle.dir_model.specs.Causes.{Rose};
ghost use Rattle.dir_trait.specs.Bundles.{directory_prefix, child_path};
ghost use Rattle.path_map.specs.Entries.{entry_at};
ghost use Rattle.tree_digest.specs.Listings.{entries_of};
ghost use Rattle.bundle_image.specs.Heads.{BundleGivesId};
ghost use Rattle.bundle_image.specs.Work.{AreLaid};
ghost use Rattle.bundle_image.specs.Reads.{ReadsWithin};
ghost use Rattle.bundle_image.specs.Walks.{IsWalked, IsFirstFault};
ghost use Rattle.bundle_image.specs.Refusals.{IsBundleFailure};
ghost use Rattle.bundle_image.specs.Images.{root_nodes, FindsListing, FailsListing, IsBundleImage, FailsBehind, FailsBundle};

use crate::entry::ROOTFS;
use crate::head::{ReadManifest, read_id, read_manifest, read_tree};
use crate::lines::Lines;
use crate::listing::listing_of;
use crate::place::child;
use crate::refusal::{BundleRefusal, out_of_memory};
use crate::walk::walk;
use ac_types::{ImageId, Text};
use dir_trait::{Bundle, Bytes};
use manifests::ImageManifest;
use std::alloc::Global;
use tree_digest::Listing;

/// What an image bundle says.
#[derive(Drop)]
pub struct BundleImage {
    pub manifest: ImageManifest,
    /// The manifest's bytes as they were read.
    pub bytes: Bytes,
    pub id: ImageId,
    pub listing: Listing,
    /// Whether the bundle has the listing; otherwise it was made by a walk of `rootfs`.
    pub listed: bool,
}

/// A listing, and whether the bundle has it.
#[derive(Drop)]
struct Found {
    listing: Listing,
    listed: bool,
}

fn root_of(alloc: Global, path: &str) -> Result<Text, BundleRefusal>
    ensures root { IfOk result (λ root. root ≡ child_path path.now (codes "rootfs")) }
    ensures fault { IfErr result (λ r. r ≡ BundleRefusal.NoMemory) }
{
    match child(alloc, path, ROOTFS) {
        Ok(root) => Ok(root),
        Err(error) => Err(out_of_memory(error)),
    }
}

fn made(alloc: Global, lines: Lines) -> Result<Found, BundleRefusal>
    requires { AreLaid lines }
    ensures listing { IfOk result (λ found. (q : List ℕ) → entry_at (entries_of found.listing) q ≡ entry_at (entries_of lines) q) }
    ensures unlisted { IfOk result (λ found. found.listed ≡ false) }
    ensures fault { IfErr result (λ r. r ≡ BundleRefusal.NoMemory) }
{
    let lines = lines.into_vec();
    match listing_of(alloc, &lines) {
        Ok(listing) => Ok(Found {
            listing,
            listed: false,
        }),
        Err(error) => Err(out_of_memory(error)),
    }
}

fn walked<B: Bundle>(alloc: Global, bundle: &mut B, path: &str) -> Result<Found, BundleRefusal>
    ensures reads { ReadsWithin B.observed (directory_prefix path.now) (B.shown bundle.old) (B.shown bundle.new) }
    ensures cause { IsErrOf result BundleRefusal.BundleFault → Rose (B.shown bundle.old).faults (B.shown bundle.new).faults }
    ensures ok { IfOk result (λ found. B.observed ≡ true → IsWalked (root_nodes (B.shown bundle.old).tree path.now) found.listing) }
    ensures unlisted { IfOk result (λ found. found.listed ≡ false) }
    ensures fault { IfErr result (λ r. B.observed ≡ true → IsBundleFailure r ⊎ IsFirstFault (root_nodes (B.shown bundle.old).tree path.now) r) }
{
    let root = root_of(alloc, path)?;
    match walk(alloc, bundle, root.as_str()) {
        Ok(lines) => made(alloc, lines),
        Err(refusal) => Err(refusal),
    }
}

fn find_listing<B: Bundle>(
    alloc: Global,
    bundle: &mut B,
    path: &str,
) -> Result<Found, BundleRefusal>
    ensures reads { ReadsWithin B.observed (directory_prefix path.now) (B.shown bundle.old) (B.shown bundle.new) }
    ensures cause { IsErrOf result BundleRefusal.BundleFault → Rose (B.shown bundle.old).faults (B.shown bundle.new).faults }
    ensures ok { IfOk result (λ found. B.observed ≡ true → FindsListing (B.shown bundle.old).tree path.now found.listing found.listed) }
    ensures fault { IfErr result (λ r. B.observed ≡ true → IsBundleFailure r ⊎ FailsListing (B.shown bundle.old).tree path.now r) }
{
    match read_tree(alloc, bundle, path)? {
        Some(listing) => Ok(Found {
            listing,
            listed: true,
        }),
        None => walked(alloc, bundle, path),
    }
}

fn image_of<B: Bundle>(
    alloc: Global,
    bundle: &mut B,
    path: &str,
    read: ReadManifest,
    id: ImageId,
) -> Result<BundleImage, BundleRefusal>
    ensures reads { ReadsWithin B.observed (directory_prefix path.now) (B.shown bundle.old) (B.shown bundle.new) }
    ensures cause { IsErrOf result BundleRefusal.BundleFault → Rose (B.shown bundle.old).faults (B.shown bundle.new).faults }
    ensures head { IfOk result (λ image. (image.manifest ≡ read.manifest) × (image.bytes ≡ read.bytes.items) × (image.id ≡ id)) }
    ensures ok { IfOk result (λ image. B.observed ≡ true → FindsListing (B.shown bundle.old).tree path.now image.listing image.listed) }
    ensures fault { IfErr result (λ r. B.observed ≡ true → IsBundleFailure r ⊎ FailsListing (B.shown bundle.old).tree path.now r) }
{
    let found = find_listing(alloc, bundle, path)?;
    Ok(BundleImage {
        manifest: read.manifest,
        bytes: Bytes::from_vec(read.bytes),
        id,
        listing: found.listing,
        listed: found.listed,
    })
}

fn behind<B: Bundle>(
    alloc: Global,
    bundle: &mut B,
    path: &str,
    read: ReadManifest,
) -> Result<BundleImage, BundleRefusal>
    ensures reads { ReadsWithin B.observed (directory_prefix path.now) (B.shown bundle.old) (B.shown bundle.new) }
    ensures cause { IsErrOf result BundleRefusal.BundleFault → Rose (B.shown bundle.old).faults (B.shown bundle.new).faults }
    ensures head { IfOk result (λ image. (image.manifest ≡ read.manifest) × (image.bytes ≡ read.bytes.items)) }
    ensures id { IfOk result (λ image. B.observed ≡ true → BundleGivesId (B.shown bundle.old).tree path.now image.id.bytes) }
    ensures listing { IfOk result (λ image. B.observed ≡ true → FindsListing (B.shown bundle.old).tree path.now image.listing image.listed) }
    ensures fault { IfErr result (λ r. B.observed ≡ true → IsBundleFailure r ⊎ FailsBehind (B.shown bundle.old).tree path.now r) }
{
    match read_id(alloc, bundle, path) {
        Ok(id) => image_of(alloc, bundle, path, read, id),
        Err(refusal) => Err(refusal),
    }
}

/// What the bundle at a path says: its manifest with the bytes that it was read from, its ID and its
/// listing, that of its file `tree` or else one of what stands below `rootfs`. Refused in this order:
/// `NoFile` for `manifest`, `Manifest` with its first fault; `NoFile` for `id`, `Id`; `Listing` with the
/// first fault of `tree` or the first limit that the walk passes, `BadKind` for what isn't carried.
/// `BundleFault` where the bundle failed, `NoMemory` where memory ran out.
pub fn read_bundle<B: Bundle>(
    alloc: Global,
    bundle: &mut B,
    path: &str,
) -> Result<BundleImage, BundleRefusal>
    ensures reads { ReadsWithin B.observed (directory_prefix path.now) (B.shown bundle.old) (B.shown bundle.new) }
    ensures cause { IsErrOf result BundleRefusal.BundleFault → Rose (B.shown bundle.old).faults (B.shown bundle.new).faults }
    ensures ok { IfOk result (λ image. B.observed ≡ true → IsBundleImage (B.shown bundle.old).tree path.now image) }
    ensures fault { IfErr result (λ r. B.observed ≡ true → IsBundleFailure r ⊎ FailsBundle (B.shown bundle.old).tree path.now r) }
{
    match read_manifest(alloc, bundle, path) {
        Ok(read) => behind(alloc, bundle, path, read),
        Err(refusal) => Err(refusal),
    }
}
