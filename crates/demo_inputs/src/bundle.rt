// The bundles of the demo's images.
ghost use Rattle.std.specs.Prelude.{◌≡◌, IfOk};
ghost use Rattle.demo_inputs.specs.Bundles.{image_bundle};

use crate::manifest::{content, id_text, manifest_text, own_place};
use dir_memory::MemoryBundle;
use dir_model::NoMemory;
use std::alloc::Global;

/// The bundle of an image, at the path `b`: its manifest, its ID and the two files of its root. Refused only where memory
/// ran out.
pub fn image_bundle(alloc: Global, image: u32) -> Result<MemoryBundle, NoMemory>
    ensures { IfOk result (λ bundle. bundle ≡ image_bundle image) }
{
    let manifest = manifest_text(alloc, image)?;
    let id = id_text(alloc, image)?;
    let content = content(alloc, image)?;
    let place = own_place(alloc, image)?;
    let bundle = MemoryBundle::new(alloc);
    let bundle = bundle.file(alloc, "b/manifest", manifest.as_slice())?;
    let bundle = bundle.file(alloc, "b/id", id.as_slice())?;
    let bundle = bundle.file(alloc, "b/rootfs/common", content.as_slice())?;
    bundle.file(alloc, place.as_str(), content.as_slice())
}
