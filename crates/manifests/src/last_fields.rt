//! The fields behind the app's section, of images and of apps. Each group is read into one value,
//! so that a fault there drops the section at one place alone.
ghost use Rattle.serde_json.specs.View.{view};
ghost use Rattle.ac_types.specs.Outcomes.{Gives};
ghost use Rattle.manifests.specs.LastFields.{last_app_fields, last_image_fields};

use crate::mount::Mounts;
use crate::whitelist::whitelist_field;
use ac_types::{ReadError, flag_field};
use app_section::list_of;
use manifest_parts::{Annotations, Dependencies};
use path_map::ListedPaths;
use serde_json::Value;
use std::alloc::Global;

/// The last fields of an image manifest.
#[derive(Drop)]
pub(crate) struct LastImageFields {
    pub dependencies: Dependencies,
    pub path_whitelist: ListedPaths,
    pub annotations: Annotations,
}

/// The last fields of an app of a pod.
#[derive(Drop)]
pub(crate) struct LastAppFields {
    pub read_only_root_fs: bool,
    pub mounts: Mounts,
    pub annotations: Annotations,
}

#[tactic(auto, unfolding(crate::specs::LastFields::last_image_fields))]
pub(crate) fn read_last_image_fields(
    alloc: Global,
    value: &Value,
) -> Result<LastImageFields, ReadError>
    ensures { Gives (last_image_fields (view value.now)) result }
{
    let dependencies = list_of(alloc, value, "$", "dependencies")?;
    let path_whitelist = whitelist_field(alloc, value, "$", "pathWhitelist")?;
    let annotations = list_of(alloc, value, "$", "annotations")?;
    Ok(LastImageFields {
        dependencies,
        path_whitelist,
        annotations,
    })
}

#[tactic(auto, unfolding(crate::specs::LastFields::last_app_fields))]
pub(crate) fn read_last_app_fields(
    alloc: Global,
    value: &Value,
    at: &str,
) -> Result<LastAppFields, ReadError>
    ensures { Gives (last_app_fields at.now (view value.now)) result }
{
    let read_only_root_fs = flag_field(alloc, value, at, "readOnlyRootFS")?;
    let mounts = list_of(alloc, value, at, "mounts")?;
    let annotations = list_of(alloc, value, at, "annotations")?;
    Ok(LastAppFields {
        read_only_root_fs,
        mounts,
        annotations,
    })
}
