//! The type of image manifests.
ghost use Rattle.std.specs.Prelude.{◌≡◌, IfOk};
ghost use Rattle.manifests.specs.ImageData.{image_data};

use ac_types::{AcIdentifier, Labels, NoMemory, ShownCopy, Text};
use app_section::App;
use manifest_parts::{Annotations, Dependencies};
use path_map::ListedPaths;

/// What an image says of itself.
#[derive(Drop)]
pub struct ImageManifest {
    /// The version of App Container: a semantic version.
    pub ac_version: Text,
    pub name: AcIdentifier,
    pub labels: Labels,
    /// How the image is run, where it is to be run.
    pub app: Option<App>,
    pub dependencies: Dependencies,
    /// What is kept of the image's files; with no path, everything.
    pub path_whitelist: ListedPaths,
    pub annotations: Annotations,
}

impl ImageManifest {
    /// An equal manifest.
    pub fn copy(&self) -> Result<ImageManifest, NoMemory>
        ensures { IfOk result (λ copy. image_data copy ≡ image_data self.now) }
    {
        // The section is copied last, so that no failure has to drop its copy.
        Ok(ImageManifest {
            ac_version: self.ac_version.copy()?,
            name: self.name.copy()?,
            labels: self.labels.copy()?,
            dependencies: self.dependencies.copy()?,
            path_whitelist: self.path_whitelist.copy()?,
            annotations: self.annotations.copy()?,
            app: self.app.copy()?,
        })
    }
}

impl ShownCopy for ImageManifest {
    ghost use Rattle.manifests.specs.ImageData.{ImageData, image_data};

    ghost Shown = { ImageData };

    ghost shown = { image_data };

    fn copy(&self) -> Result<ImageManifest, NoMemory> {
        ImageManifest::copy(self)
    }
}
