// The command `validate`.
ghost use Rattle.std.specs.Prelude.{◌≡◌, ◌≤◌, ◌⊎◌, true, IfOk, IfErr, IsErrOf, Err};
ghost use Rattle.dir_trait.specs.Causes.{Rose};
ghost use Rattle.manifests.specs.DocumentData.{any_manifest, document_data};
ghost use Rattle.commands.specs.Texts.{valid_text};
ghost use Rattle.command_outcomes.specs.Ends.{is_own_end};
ghost use Rattle.command_outcomes.specs.Moments.{bundle_at};
ghost use Rattle.commands.specs.Validate.{validate_refusal, manifest_outcome, reading_refusal, IsRefusalOf, ValidateSays, ReadsFileAlone};

use ac_types::{ReadError, Text};
use bundle_image::read_file;
use command_outcomes::{Output, Refusal};
use dir_trait::{Bundle, BundleError};
use manifests::{Document, MOST_OF_MANIFEST, read_document};
use std::alloc::{AllocError, Global};

fn valid_line(alloc: Global, document: &Document) -> Result<Output, AllocError>
    ensures { IfOk result (λ line. line ≡ valid_text (document_data document.now)) }
{
    let mut line = Output::new(alloc);
    match document {
        Document::Image(manifest) => {
            line.push("valid ImageManifest ")?;
            line.push(manifest.name.as_str())?;
        }
        Document::Pod(manifest) => {
            line.push("valid PodManifest ")?;
            line.push_number(alloc, manifest.apps.as_slice().len() as u64)?;
        }
    }
    line.push("\n")?;
    Ok(line)
}

fn fault_refusal(error: ReadError) -> Refusal
    ensures { result ≡ reading_refusal error }
{
    match error {
        ReadError::Bad(fault) => Refusal::BadManifest {
            path: fault.path,
            number: fault.kind.number(),
        },
        ReadError::NoMemory => Refusal::NoMemory,
    }
}

fn judge(alloc: Global, bytes: &[u8]) -> Result<Output, Refusal>
    ensures { (result ≡ manifest_outcome (any_manifest bytes.now)) ⊎ (result ≡ Err Refusal.NoMemory) }
{
    match read_document(alloc, bytes) {
        Ok(document) => match valid_line(alloc, &document) {
            Ok(line) => Ok(line),
            Err(_) => Err(Refusal::NoMemory),
        },
        Err(error) => Err(fault_refusal(error)),
    }
}

fn bundle_refusal(path: &Text, error: BundleError) -> Refusal
    ensures { IsRefusalOf path.now error result }
{
    match error {
        BundleError::Missing => match path.copy() {
            Ok(path) => Refusal::NoFile(path),
            Err(_) => Refusal::NoMemory,
        },
        BundleError::Failed => Refusal::BundleFault,
        BundleError::NoMemory => Refusal::NoMemory,
    }
}

/// The line that `validate` prints of a file of the bundle, which is asked for that file alone.
/// `BadManifest` with its first fault where it is no manifest of either kind, `NoFile` where no file stands
/// at the path, `BundleFault` where the bundle failed.
pub fn validate<B: Bundle>(alloc: Global, path: &Text, bundle: &mut B) -> Result<Output, Refusal>
    ensures faults { (B.shown bundle.old).faults ≤ (B.shown bundle.new).faults }
    ensures cause { IsErrOf result Refusal.BundleFault → Rose (B.shown bundle.old).faults (B.shown bundle.new).faults }
    ensures refusals { IfErr result (λ r. validate_refusal r ≡ true) }
    ensures reads { ReadsFileAlone path.now (bundle_at B.Bundle bundle.old) (bundle_at B.Bundle bundle.new) }
    ensures says { is_own_end result ≡ true → ValidateSays path.now (bundle_at B.Bundle bundle.old) result }
{
    match read_file(alloc, bundle, path.as_str(), MOST_OF_MANIFEST) {
        Ok(bytes) => judge(alloc, bytes.as_slice()),
        Err(error) => Err(bundle_refusal(path, error)),
    }
}
