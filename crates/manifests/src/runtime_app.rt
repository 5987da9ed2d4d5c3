//! Apps of a pod.
ghost use Rattle.std.specs.Prelude.{◌≡◌, ◌++◌, ◌∷◌, [], ℕ, List, IfOk, codes, map, option_map};
ghost use Rattle.serde_json.specs.View.{view};
ghost use Rattle.ac_types.specs.FieldForms.{required};
ghost use Rattle.ac_types.specs.Outcomes.{Answers, Gives};
ghost use Rattle.ac_types.specs.SeenTexts.{HasSeen};
ghost use Rattle.app_section.specs.AppData.{app_data};
ghost use Rattle.manifests.specs.PodData.{runtime_app_data};
ghost use Rattle.manifests.specs.RuntimeAppForm.{app_name, named_app};
ghost use Rattle.manifest_parts.specs.RuntimeImageForm.{runtime_image};

use crate::app_field::optional_app;
use crate::last_fields::read_last_app_fields;
use crate::mount::Mounts;
use ac_types::{
    AcName, FaultKind, NoMemory, ReadError, SeenTexts, Sequence, ShownCopy, field_fault,
    field_path, object_value, required_field, required_name,
};
use app_section::App;
use manifest_parts::{Annotations, DistinctElement, RuntimeImage, read_runtime_image};
use serde_json::Value;
use std::alloc::Global;

/// An app of a pod.
#[derive(Drop)]
pub struct RuntimeApp {
    pub name: AcName,
    pub image: RuntimeImage,
    /// How it is run.
    pub app: Option<App>,
    pub read_only_root_fs: bool,
    pub mounts: Mounts,
    pub annotations: Annotations,
}

/// A list of a pod's apps. Contracts see its elements.
pub type RuntimeApps = Sequence<RuntimeApp>;

impl RuntimeApp {
    /// An equal app.
    pub fn copy(&self) -> Result<RuntimeApp, NoMemory>
        ensures { IfOk result (λ copy. runtime_app_data copy ≡ runtime_app_data self.now) }
    {
        // The section is copied last, so that no failure has to drop its copy.
        Ok(RuntimeApp {
            name: self.name.copy()?,
            read_only_root_fs: self.read_only_root_fs,
            mounts: self.mounts.copy()?,
            annotations: self.annotations.copy()?,
            image: self.image.copy()?,
            app: self.app.copy()?,
        })
    }
}

impl ShownCopy for RuntimeApp {
    ghost use Rattle.manifests.specs.PodData.{RuntimeAppData, runtime_app_data};

    ghost Shown = { RuntimeAppData };

    ghost shown = { runtime_app_data };

    fn copy(&self) -> Result<RuntimeApp, NoMemory> {
        RuntimeApp::copy(self)
    }
}

impl DistinctElement for RuntimeApp {
    ghost use Rattle.manifests.specs.PodData.{RuntimeAppData, runtime_app_data};
    ghost use Rattle.manifests.specs.RuntimeAppForm.{runtime_app};

    ghost Shown = { RuntimeAppData };

    ghost shown = { runtime_app_data };

    ghost form = { runtime_app };

    ghost name_of = { λ a. a.name };

    #[tactic(auto, unfolding(crate::specs::RuntimeAppForm::runtime_app))]
    fn read(
        alloc: Global,
        value: &Value,
        at: &str,
        seen: &mut SeenTexts,
    ) -> Result<RuntimeApp, ReadError> {
        match read_app_name(alloc, value, at, seen) {
            Ok(name) => read_named_app(alloc, value, at, name),
            Err(error) => Err(error),
        }
    }
}

/// The app's name: `AppTwice` at `name` where it came before.
#[tactic(auto, unfolding(crate::specs::RuntimeAppForm::app_name))]
fn read_app_name(
    alloc: Global,
    value: &Value,
    at: &str,
    seen: &mut SeenTexts,
) -> Result<AcName, ReadError>
    ensures answers { (names : List (List ℕ)) → HasSeen seen.old names → Gives (app_name names at.now (view value.now)) result }
    ensures seen { IfOk result (λ name. (names : List (List ℕ)) → HasSeen seen.old names → HasSeen seen.new (names ++ name ∷ [])) }
{
    object_value(alloc, value, at)?;
    let name = required_name(alloc, value, at, "name")?;
    if seen.add(alloc, name.as_str())? {
        Ok(name)
    } else {
        Err(field_fault(alloc, at, "name", FaultKind::AppTwice))
    }
}

/// The fields that follow the name.
#[tactic(auto, unfolding(crate::specs::RuntimeAppForm::named_app))]
fn read_named_app(
    alloc: Global,
    value: &Value,
    at: &str,
    name: AcName,
) -> Result<RuntimeApp, ReadError>
    ensures app { Answers runtime_app_data (named_app name at.now (view value.now)) result }
    ensures name { IfOk result (λ app. app.name ≡ name) }
{
    let image = image_field(alloc, value, at)?;
    let app = optional_app(alloc, value, at, "app")?;
    match read_last_app_fields(alloc, value, at) {
        Ok(last) => {
            Ok(RuntimeApp {
                name,
                image,
                app,
                read_only_root_fs: last.read_only_root_fs,
                mounts: last.mounts,
                annotations: last.annotations,
            })
        }
        Err(error) => Err(error),
    }
}

fn image_field(alloc: Global, value: &Value, at: &str) -> Result<RuntimeImage, ReadError>
    ensures { Gives (required runtime_image at.now (codes "image") (view value.now)) result }
{
    match required_field(alloc, value, at, "image") {
        Ok(found) => {
            let path = field_path(alloc, at, "image")?;
            read_runtime_image(alloc, found, path.as_str())
        }
        Err(error) => Err(error),
    }
}
