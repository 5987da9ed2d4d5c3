//! Why some images have no pod manifest.

ghost use Rattle.std.specs.Prelude.{◌≡◌, ◌<◌, ◌++◌, ◌∷◌, [], ℕ, List, None, MatchResult, OnOk, length};
ghost use Rattle.std.specs.List.{All};
ghost use Rattle.ac_types.specs.SeenTexts.{HasSeen};
ghost use Rattle.pod_manifest.specs.Wishes.{AreWishes};
ghost use Rattle.pod_manifest.specs.Generation.{first_fault, image_fault, mount_fault, name_of, picked, IsRefusal};

use crate::app_names::app_name;
use crate::gen_error::GenError;
use crate::mounts::has_volume;
use crate::options::Options;
use ac_types::SeenTexts;
use dep_match::Stored;
use std::alloc::Global;

/// The first of the images at some places of a list that can't be an app of the pod: it has no
/// app, or one that runs no program, or an earlier app has the name of its app.
pub(crate) fn check_images(alloc: Global, list: &[Stored], picks: &[usize]) -> Result<(), GenError>
    requires { All (λ i. i < length list.now) picks.now }
    ensures { MatchResult result (λ _. first_fault [] (picked list.now picks.now) ≡ None)
        (IsRefusal (first_fault [] (picked list.now picks.now))) }
{
    let mut seen = SeenTexts::new(alloc);
    for pick in picks {
        check_image(alloc, &list[*pick], &mut seen)?;
    }
    Ok(())
}

fn check_image(alloc: Global, image: &Stored, seen: &mut SeenTexts) -> Result<(), GenError>
    ensures fault { (names : List (List ℕ)) → HasSeen seen.old names
        → MatchResult result (λ _. image_fault names image.now ≡ None) (IsRefusal (image_fault names image.now)) }
    ensures seen { OnOk result ((names : List (List ℕ)) → HasSeen seen.old names → HasSeen seen.new (names ++ name_of image.now ∷ [])) }
{
    let manifest = &image.manifest;
    let Some(app) = &manifest.app else {
        return Err(GenError::NoApp(manifest.name.copy()?));
    };
    let name = app_name(alloc, &manifest.name)?;
    if app.exec.is_empty() {
        return Err(GenError::NoExec(name));
    }
    if seen.add(alloc, name.as_str())? {
        Ok(())
    } else {
        Err(GenError::AppTwice(name))
    }
}

/// The first mount that was asked for of a volume that was not.
pub(crate) fn check_mounts(options: &Options) -> Result<(), GenError>
    ensures fault { MatchResult result (λ _. mount_fault options.now ≡ None) (IsRefusal (mount_fault options.now)) }
    ensures kind { AreWishes options.now }
{
    let volumes = options.volumes();
    let mounts = options.mounts();
    for mount in mounts {
        if !has_volume(volumes, mount.volume.as_str()) {
            return Err(GenError::NoVolume(mount.volume.copy()?));
        }
    }
    Ok(())
}
