// The target of a link.
ghost use Rattle.std.specs.Prelude.{◌≡◌, ◌↔◌, true, None, length, IsTrue, IfOk, IsErrOf, IsSomeAnd};
ghost use Rattle.dir_model.specs.Causes.{Rose};
ghost use Rattle.dir_trait.specs.Bundles.{link_target};
ghost use Rattle.tree_digest.specs.Fields.{IsTarget};
ghost use Rattle.bundle_image.specs.Links.{IsTargetOf, IsSound};
ghost use Rattle.bundle_image.specs.Reads.{ReadsWithin};

use crate::refusal::{no_memory, short_of_memory};
use ac_types::{NoMemory, Text};
use dir_trait::{Bundle, BundleError};
use std::alloc::Global;
use std::str;
use tree_digest::refusals::MAX_TARGET;

/// Whether a text has 1 to 4,095 bytes without NUL.
fn is_target(text: &str) -> bool
    ensures { IsTrue result ↔ IsTarget text.now }
{
    let bytes = text.as_bytes();
    !bytes.is_empty() && bytes.len() <= MAX_TARGET && !bytes.contains(&0)
}

/// The target that some bytes are; none where they are no target.
fn target_of(alloc: Global, bytes: &[u8]) -> Result<Option<Text>, NoMemory>
    ensures { IfOk result (IsTargetOf bytes.now) }
{
    let Ok(text) = str::from_utf8(bytes) else {
        return Ok(None);
    };
    if !is_target(text) {
        return Ok(None);
    }
    Ok(Some(Text::of(alloc, text)?))
}

/// The target of the link at a path, read into a room of one byte more than a target may have.
fn target_in<B: Bundle>(
    alloc: Global,
    bundle: &mut B,
    path: &str,
    room: &mut [u8],
) -> Result<Option<Text>, BundleError>
    requires { length room.old ≡ 4096 }
    ensures reads { ReadsWithin B.observed path.now (B.shown bundle.old) (B.shown bundle.new) }
    ensures cause { IsErrOf result BundleError.Failed → Rose (B.shown bundle.old).faults (B.shown bundle.new).faults }
    ensures missing { IsErrOf result BundleError.Missing → B.observed ≡ true → link_target ((B.shown bundle.old).tree path.now) ≡ None }
    ensures sound { IfOk result IsSound }
    ensures target { IfOk result (λ found. B.observed ≡ true → IsSomeAnd (link_target ((B.shown bundle.old).tree path.now)) (λ target. IsTargetOf target found)) }
{
    let count = bundle.read_link(alloc, path, room)?;
    match target_of(alloc, &room[..count]) {
        Ok(found) => Ok(found),
        Err(error) => Err(short_of_memory(error)),
    }
}

/// The target of the link at a path; none where it is empty, longer than 4,095 bytes, no UTF-8 or has a
/// NUL. `Missing` where no link stands there, `Failed` where the bundle failed, `NoMemory` where memory
/// ran out.
pub(crate) fn read_target<B: Bundle>(
    alloc: Global,
    bundle: &mut B,
    path: &str,
) -> Result<Option<Text>, BundleError>
    ensures reads { ReadsWithin B.observed path.now (B.shown bundle.old) (B.shown bundle.new) }
    ensures cause { IsErrOf result BundleError.Failed → Rose (B.shown bundle.old).faults (B.shown bundle.new).faults }
    ensures missing { IsErrOf result BundleError.Missing → B.observed ≡ true → link_target ((B.shown bundle.old).tree path.now) ≡ None }
    ensures sound { IfOk result IsSound }
    ensures target { IfOk result (λ found. B.observed ≡ true → IsSomeAnd (link_target ((B.shown bundle.old).tree path.now)) (λ target. IsTargetOf target found)) }
{
    let mut room = vec![in alloc; 0; MAX_TARGET + 1].map_err(no_memory)?;
    target_in(alloc, bundle, path, &mut room)
}
