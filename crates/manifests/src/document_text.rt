//! The bytes of a document.
ghost use Rattle.std.specs.Prelude.{IfOk};
ghost use Rattle.serde_json.specs.View.{view};
ghost use Rattle.manifests.specs.WrittenTexts.{IsTextOf};

use ac_types::NoMemory;
use serde_json::Value;
use std::alloc::Global;

/// The text of a JSON value, without spaces.
pub(crate) fn document_bytes(alloc: Global, value: &Value) -> Result<Vec<u8>, NoMemory>
    ensures { IfOk result (λ bytes. IsTextOf (view value.now) bytes.items) }
{
    Ok(value.to_vec(alloc)?)
}
