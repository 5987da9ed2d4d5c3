// The manifests of the images of a pod's apps, as the pod keeps them.
ghost use Rattle.std.specs.Prelude.{◌≡◌, ◌∷◌, ◌++◌, [], true, length, map, option_map, All, IfOk, IfSome, IfErr, IsErrOf, string_bytes};
ghost use Rattle.dir_model.specs.Causes.{Rose};
ghost use Rattle.dir_model.specs.Local.{IsActive};
ghost use Rattle.metadata_reply.specs.Views.{HasReading, image_bytes};
ghost use Rattle.pod_files.specs.Looks.{OnlyReadsPod};
ghost use Rattle.metadata.specs.PodViews.{image_path};
ghost use Rattle.metadata.specs.Images.{names, IsImageFromBytes, TellsImage, TellsAppImages, IfReads};

use crate::error::{MetaError, read_fault};
use ac_types::{AcName, NoMemory, ReadError};
use dir_model::Bytes;
use dir_trait::{Dir, PodId};
use manifests::{MOST_OF_MANIFEST, RuntimeApp, read_image};
use metadata_reply::ImageBytes;
use pod_files::read_part;
use std::alloc::Global;

// Where the manifest of an app's image stands in the pod's folder.
fn image_path(alloc: Global, app: &str) -> Result<String, NoMemory>
    ensures { IfOk result (λ path. string_bytes path ≡ image_path app.now) }
{
    let mut path = String::from_str(alloc, "appsinfo/")?;
    path.push_str(app)?;
    path.push_str("/manifest")?;
    Ok(path)
}

// The image of which the bytes are the manifest.
fn image_of(alloc: Global, bytes: Vec<u8>) -> Result<Option<ImageBytes>, MetaError>
    ensures image { IfOk result (IsImageFromBytes bytes.items) }
    ensures memory { IfErr result (λ e. e ≡ MetaError.NoMemory) }
{
    match read_image(alloc, &bytes) {
        Ok(_) => Ok(Some(ImageBytes {
            bytes: Bytes::from_vec(bytes),
        })),
        Err(ReadError::Bad(_)) => Ok(None),
        Err(ReadError::NoMemory) => Err(MetaError::NoMemory),
    }
}

// The image of the app, whose manifest stands at this path.
fn image_at<D: Dir>(
    alloc: Global,
    dir: &mut D,
    pod: PodId,
    app: &AcName,
    path: &str,
) -> Result<Option<ImageBytes>, MetaError>
    requires active { IsActive (D.shown dir.old).local }
    requires path { path.now ≡ image_path app.now }
    ensures only { OnlyReadsPod D.observed pod (D.shown dir.old) (D.shown dir.new) }
    ensures cause { IsErrOf result MetaError.DirFault → Rose (D.shown dir.old).faults (D.shown dir.new).faults }
    ensures link { IsErrOf result MetaError.LinkFault → ⊥ }
    ensures reads { IfOk result IfReads }
    ensures tells { IfOk result (λ found. D.observed ≡ true → TellsImage pod app.now found (D.shown dir.old) (D.shown dir.new)) }
{
    let _name = app.as_str();
    match read_part(alloc, dir, pod, path, MOST_OF_MANIFEST) {
        Ok(Some(bytes)) => image_of(alloc, bytes),
        Ok(None) => Ok(None),
        Err(error) => Err(read_fault(error)),
    }
}

// The image of the app; none where its manifest is missing or has no reading.
fn read_image_bytes<D: Dir>(
    alloc: Global,
    dir: &mut D,
    pod: PodId,
    app: &AcName,
) -> Result<Option<ImageBytes>, MetaError>
    requires active { IsActive (D.shown dir.old).local }
    ensures only { OnlyReadsPod D.observed pod (D.shown dir.old) (D.shown dir.new) }
    ensures cause { IsErrOf result MetaError.DirFault → Rose (D.shown dir.old).faults (D.shown dir.new).faults }
    ensures link { IsErrOf result MetaError.LinkFault → ⊥ }
    ensures reads { IfOk result IfReads }
    ensures tells { IfOk result (λ found. D.observed ≡ true → TellsImage pod app.now found (D.shown dir.old) (D.shown dir.new)) }
{
    match image_path(alloc, app.as_str()) {
        Ok(path) => image_at(alloc, dir, pod, app, path.as_str()),
        Err(_) => Err(MetaError::NoMemory),
    }
}

fn push(images: &mut Vec<ImageBytes>, image: ImageBytes) -> Result<(), MetaError>
    ensures items { IfOk result (λ done. images.new.items ≡ images.old.items ++ image ∷ []) }
    ensures memory { IfErr result (λ e. e ≡ MetaError.NoMemory) }
{
    match images.push(image) {
        Ok(()) => Ok(()),
        Err(_) => Err(MetaError::NoMemory),
    }
}

/// The images of the apps, in their order; none where the manifest of one of them is missing or has no
/// reading. `DirFault` where the directory failed, `NoMemory` where memory ran out.
pub(crate) fn read_images<D: Dir>(
    alloc: Global,
    dir: &mut D,
    pod: PodId,
    apps: &[RuntimeApp],
) -> Result<Option<Vec<ImageBytes>>, MetaError>
    requires active { IsActive (D.shown dir.old).local }
    ensures only { OnlyReadsPod D.observed pod (D.shown dir.old) (D.shown dir.new) }
    ensures cause { IsErrOf result MetaError.DirFault → Rose (D.shown dir.old).faults (D.shown dir.new).faults }
    ensures link { IsErrOf result MetaError.LinkFault → ⊥ }
    ensures each { IfOk result (λ found. IfSome found (λ images. length images.items ≡ length apps.now)) }
    ensures readable { IfOk result (λ found. IfSome found (λ images. All HasReading (map image_bytes images.items))) }
    ensures tells { IfOk result (λ found. D.observed ≡ true
        → TellsAppImages pod (names apps.now) (option_map (λ images. images.items) found) (D.shown dir.old) (D.shown dir.new)) }
{
    let mut images = Vec::new(alloc);
    'apps: for app in apps {
        match read_image_bytes(alloc, dir, pod, &app.name) {
            Ok(Some(image)) => push(&mut images, image)?,
            Ok(None) => return Ok(None),
            Err(error) => return Err(error),
        }
    }
    Ok(Some(images))
}
