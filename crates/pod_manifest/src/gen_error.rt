//! Why there is no pod manifest of some images.

ghost use Rattle.std.specs.Prelude.{◌≡◌, Some, IfOk};
ghost use Rattle.pod_manifest.specs.RefusalNumbers.{gen_error_number};
ghost use Rattle.pod_manifest.specs.declared.gen_error.GenError.TheVariants.{NoMemory};
ghost use Rattle.pod_manifest.specs.ErrorTexts.{gen_error_text};

use crate::refusals::{APP_TWICE, NO_APP, NO_EXEC, NO_VOLUME, TOO_MANY_APPS};
use ac_types::{AcIdentifier, AcName, TryCopy, memory};
use std::error::Error;
use std::fmt;

/// Why there is no pod manifest of some images.
#[derive(Drop)]
pub enum GenError {
    /// There are more than 64 apps.
    TooManyApps,
    /// The image of this name has no app.
    NoApp(AcIdentifier),
    /// The app of this name runs no program.
    NoExec(AcName),
    /// An earlier app has this name.
    AppTwice(AcName),
    /// A mount was asked for of a volume of this name, which was not asked for.
    NoVolume(AcName),
    /// Memory ran out.
    NoMemory,
}

impl GenError {
    /// The number by which the refusal is printed; want of memory has none.
    pub fn number(&self) -> Option<u8>
        ensures { result ≡ gen_error_number self.now }
    {
        match self {
            GenError::TooManyApps => Some(TOO_MANY_APPS),
            GenError::NoApp(_) => Some(NO_APP),
            GenError::NoExec(_) => Some(NO_EXEC),
            GenError::AppTwice(_) => Some(APP_TWICE),
            GenError::NoVolume(_) => Some(NO_VOLUME),
            GenError::NoMemory => None,
        }
    }

    /// An equal error.
    pub fn copy(&self) -> Result<GenError, memory::NoMemory>
        ensures { IfOk result (λ copy. copy ≡ self.now) }
    {
        match self {
            GenError::TooManyApps => Ok(GenError::TooManyApps),
            GenError::NoApp(image) => Ok(GenError::NoApp(image.copy()?)),
            GenError::NoExec(app) => Ok(GenError::NoExec(app.copy()?)),
            GenError::AppTwice(app) => Ok(GenError::AppTwice(app.copy()?)),
            GenError::NoVolume(volume) => Ok(GenError::NoVolume(volume.copy()?)),
            GenError::NoMemory => Ok(GenError::NoMemory),
        }
    }
}

impl TryCopy for GenError {
    fn try_copy(&self) -> Result<GenError, memory::NoMemory> {
        self.copy()
    }
}

impl fmt::Display for GenError {
    ghost output = { λ error. Some (gen_error_text error) };

    fn fmt<W: fmt::Write>(&self, f: &mut fmt::Formatter<W>) -> fmt::Result {
        match self {
            GenError::TooManyApps => write!(f, "there are too many apps"),
            GenError::NoApp(image) => write!(f, "no app in the image {}", image.as_str()),
            GenError::NoExec(app) => write!(f, "no program in the app {}", app.as_str()),
            GenError::AppTwice(app) => write!(f, "an earlier app is named {}", app.as_str()),
            GenError::NoVolume(volume) => write!(f, "no volume is named {}", volume.as_str()),
            GenError::NoMemory => write!(f, "out of memory"),
        }
    }
}

impl From<memory::NoMemory> for GenError {
    ghost from_gives = { λ _ e. e ≡ NoMemory };

    fn from(_error: memory::NoMemory) -> GenError {
        GenError::NoMemory
    }
}

impl fmt::Debug for GenError {
    fn fmt<W: fmt::Write>(&self, f: &mut fmt::Formatter<W>) -> fmt::Result {
        write!(f, "{self}")
    }
}

impl Error for GenError {}
