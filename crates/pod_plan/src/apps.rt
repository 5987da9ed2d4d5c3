// The apps of a pod, with what their files are made from.
ghost use Rattle.std.specs.Prelude.{◌≡◌, ◌<◌, ◌++◌, ◌∷◌, [], IfOk, length};
ghost use Rattle.std.specs.List.{All};
ghost use Rattle.pod_plan.specs.Plans.{app_with_root, apps_with};

use crate::PodApp;
use crate::app_root::Root;
use ac_types::NoMemory;
use dir_trait::Bytes;
use manifests::RuntimeApp;
use std::alloc::Global;

/// Adds an app, with its image's manifest and its root.
fn add_app(
    alloc: Global,
    apps: &mut Vec<PodApp>,
    named: &RuntimeApp,
    manifest: &Bytes,
    root: Root,
) -> Result<(), NoMemory>
    ensures { IfOk result (λ done. apps.new.items ≡ apps.old.items ++ app_with_root named.now manifest.now root ∷ []) }
{
    let name = named.name.copy()?;
    let manifest = Bytes::from_vec(Vec::from_slice(alloc, manifest.as_slice())?);
    let Root { rendering, listing } = root;
    apps.push(PodApp {
        name,
        manifest,
        rendering,
        listing,
    })?;
    Ok(())
}

/// The apps of the images that were picked, each with its image's manifest and its root.
pub(crate) fn apps_with(
    alloc: Global,
    manifests: &[Bytes],
    picks: &[usize],
    named: &[RuntimeApp],
    roots: Vec<Root>,
) -> Result<Vec<PodApp>, NoMemory>
    requires within { All (λ i. i < length manifests.now) picks.now }
    requires named { length named.now ≡ length picks.now }
    requires roots { length roots.items ≡ length picks.now }
    ensures { IfOk result (λ apps. apps.items ≡ apps_with manifests.now picks.now named.now roots.items) }
{
    let mut left = roots.into_iter();
    let mut apps = Vec::new(alloc);
    'picks: for (place, pick) in picks.iter().enumerate() {
        let Some(root) = left.next() else {
            unreachable!();
        };
        add_app(alloc, &mut apps, &named[place], &manifests[*pick], root)?;
    }
    Ok(apps)
}
