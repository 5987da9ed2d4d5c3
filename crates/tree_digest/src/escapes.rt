//! Escaped paths and targets.

ghost use Rattle.std.specs.Prelude.{◌≡◌, ◌≢◌, ◌++◌, ◌↔◌, ℕ, List, IsTrue, IfOk, IfErr, IfSome, IfNone, IsUtf8, OnOk, string_bytes};
ghost use Rattle.tree_digest.specs.Fields.{escaped, IsTarget};
ghost use Rattle.path_map.specs.Paths.{IsAbsPath};

use crate::refusals::MAX_TARGET;
use ac_types::{NoMemory, Text};
use path_map::{AbsPath, PathError};
use percent_encoding::{AsciiSet, CONTROLS, ascii_set, percent_decode, percent_encode};
use std::alloc::Global;

/// The bytes 0x00 to 0x20, 0x25 and 0x7f; those from 0x80 on are always escaped.
pub const ESCAPED: AsciiSet = ascii_set!(CONTROLS.add(b' ').add(b'%'));

/// Why a field was not read.
#[derive(Clone, Copy, Debug, PartialEq, Eq)]
pub(crate) enum FieldFault {
    Bad,
    NoMemory,
}

impl From<NoMemory> for FieldFault {
    ghost use Rattle.std.specs.Prelude.{◌≡◌};
    ghost use Rattle.tree_digest.specs.declared.escapes.FieldFault.TheVariants.{NoMemory as OutOfMemory};

    ghost from_gives = { λ _ e. e ≡ OutOfMemory };

    fn from(_error: NoMemory) -> FieldFault {
        FieldFault::NoMemory
    }
}

/// The text that a field escapes. Only the one escaping of a text is taken.
pub(crate) fn unescaped(alloc: Global, field: &[u8]) -> Result<Option<String>, NoMemory>
    ensures some { IfOk result (λ o. IfSome o (λ s. field.now ≡ escaped (string_bytes s))) }
    ensures none { IfOk result (λ o. IfNone o
        ((text : List ℕ) → IsUtf8 text → field.now ≢ escaped text)) }
{
    let mut bytes = Vec::new(alloc);
    percent_decode(field).append_to(&mut bytes)?;
    let mut again = String::new(alloc);
    percent_encode(&bytes, ESCAPED).append_to(&mut again)?;
    if !same(again.as_bytes(), field) {
        return Ok(None);
    }
    match String::from_utf8(bytes) {
        Ok(text) => Ok(Some(text)),
        Err(_) => Ok(None),
    }
}

/// Whether two texts have the same bytes.
pub(crate) fn same(left: &[u8], right: &[u8]) -> bool
    ensures { IsTrue result ↔ (left.now ≡ right.now) }
{
    left == right
}

/// The path that a field escapes.
pub(crate) fn read_path(alloc: Global, field: &[u8]) -> Result<AbsPath, FieldFault>
    ensures ok { IfOk result (λ path. (field.now ≡ escaped path) × IsAbsPath path) }
    ensures bad { result ≡ Err FieldFault.Bad → (path : List ℕ) → IsAbsPath path → field.now ≢ escaped path }
{
    let Some(text) = unescaped(alloc, field)? else {
        return Err(FieldFault::Bad);
    };
    match AbsPath::parse(alloc, text.as_str()) {
        Ok(path) => Ok(known(path)),
        Err(error) => Err(field_fault(error)),
    }
}

/// What the error of a path is for its field.
fn field_fault(error: PathError) -> FieldFault
    ensures { result ≡ FieldFault.Bad → error ≢ PathError.NoMemory }
{
    match error {
        PathError::NoMemory => FieldFault::NoMemory,
        _ => FieldFault::Bad,
    }
}

/// The path, which is one.
fn known(path: AbsPath) -> AbsPath
    ensures path { result ≡ path }
    ensures kind { IsAbsPath path }
{
    let _text = path.as_str();
    path
}

/// The target that a field escapes.
pub(crate) fn read_target(alloc: Global, field: &[u8]) -> Result<Text, FieldFault>
    ensures ok { IfOk result (λ target. (field.now ≡ escaped target) × IsTarget target) }
    ensures bad { result ≡ Err FieldFault.Bad → (target : List ℕ) → IsTarget target → field.now ≢ escaped target }
{
    let Some(text) = unescaped(alloc, field)? else {
        return Err(FieldFault::Bad);
    };
    if !is_target(text.as_str()) {
        return Err(FieldFault::Bad);
    }
    Ok(Text::of(alloc, text.as_str())?)
}

/// Whether a text may be a link's target: 1 to 4,095 bytes without NUL.
pub(crate) fn is_target(text: &str) -> bool
    ensures { IsTrue result ↔ IsTarget text.now }
{
    let bytes = text.as_bytes();
    !bytes.is_empty() && bytes.len() <= MAX_TARGET && !bytes.contains(&0)
}

/// Appends the escaping of a text.
pub(crate) fn write_escaped(alloc: Global, out: &mut Vec<u8>, text: &str) -> Result<(), NoMemory>
    ensures { OnOk result (out.new.items ≡ out.old.items ++ escaped text.now) }
{
    let mut field = String::new(alloc);
    percent_encode(text.as_bytes(), ESCAPED).append_to(&mut field)?;
    out.extend_from_slice(field.as_bytes())?;
    Ok(())
}
