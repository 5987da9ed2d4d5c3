//! Writing a line.

ghost use Rattle.std.specs.Prelude.{◌≡◌, ◌<◌, ◌++◌, ◌∷◌, [], ℕ, List, OnOk};
ghost use Rattle.hex.specs.Hex.{encode_lower};
ghost use Rattle.tree_digest.specs.Fields.{octal_text, decimal_text, escaped, field};
ghost use Rattle.tree_digest.specs.Lines.{line_text, entry_text, meta_text, mode_of};

use crate::escapes::write_escaped;
use crate::line::ListingLine;
use crate::numbers::{write_decimal, write_octal};
use ac_types::{NoMemory, lower_hex};
use path_map::{Entry, Meta};
use std::alloc::Global;

/// Appends a line.
pub(crate) fn write_line(
    alloc: Global,
    out: &mut Vec<u8>,
    line: &ListingLine,
) -> Result<(), NoMemory>
    requires { mode_of line.now.entry < 4096 }
    ensures { OnOk result (out.new.items ≡ out.old.items ++ line_text line.now) }
{
    write_entry(alloc, out, &line.entry)?;
    write_escaped(alloc, out, line.path.as_str())?;
    out.push(b'\n')?;
    Ok(())
}

/// Appends what a line says of an entry, with a space after it.
fn write_entry(alloc: Global, out: &mut Vec<u8>, entry: &Entry) -> Result<(), NoMemory>
    requires { mode_of entry.now < 4096 }
    ensures { OnOk result (out.new.items ≡ out.old.items ++ entry_text entry.now []) }
{
    match entry {
        Entry::Dir(meta) => write_meta(alloc, out, b'd', *meta),
        Entry::File { meta, size, sha } => {
            write_meta(alloc, out, b'f', *meta)?;
            write_size(alloc, out, *size)?;
            write_sha(out, sha)
        }
        Entry::Link { meta, target } => {
            write_meta(alloc, out, b'l', *meta)?;
            write_target(alloc, out, target.as_str())
        }
    }
}

/// Appends the letter of a kind, the mode and the owners, each with a space after it.
fn write_meta(alloc: Global, out: &mut Vec<u8>, kind: u8, meta: Meta) -> Result<(), NoMemory>
    requires { meta.mode < 4096 }
    ensures { OnOk result (out.new.items ≡ out.old.items ++ field (kind ∷ []) (meta_text meta [])) }
{
    out.push(kind)?;
    out.push(b' ')?;
    write_octal(out, meta.mode)?;
    out.push(b' ')?;
    write_owners(alloc, out, meta.uid, meta.gid)
}

/// Appends the owners, each with a space after it.
fn write_owners(alloc: Global, out: &mut Vec<u8>, uid: u32, gid: u32) -> Result<(), NoMemory>
    ensures { OnOk result
        (out.new.items ≡ out.old.items ++ field (decimal_text uid) (field (decimal_text gid) [])) }
{
    write_decimal(alloc, out, u64::from(uid))?;
    out.push(b' ')?;
    write_decimal(alloc, out, u64::from(gid))?;
    out.push(b' ')?;
    Ok(())
}

/// Appends a size and a space.
fn write_size(alloc: Global, out: &mut Vec<u8>, size: u64) -> Result<(), NoMemory>
    ensures { OnOk result (out.new.items ≡ out.old.items ++ field (decimal_text size) []) }
{
    write_decimal(alloc, out, size)?;
    out.push(b' ')?;
    Ok(())
}

/// Appends the hex digits of a SHA-512 and a space.
fn write_sha(out: &mut Vec<u8>, sha: &[u8; 64]) -> Result<(), NoMemory>
    ensures { OnOk result (out.new.items ≡ out.old.items ++ field (encode_lower sha.now) []) }
{
    out.extend_from_slice(&lower_hex(sha))?;
    out.push(b' ')?;
    Ok(())
}

/// Appends a target and a space.
fn write_target(alloc: Global, out: &mut Vec<u8>, target: &str) -> Result<(), NoMemory>
    ensures { OnOk result (out.new.items ≡ out.old.items ++ field (escaped target.now) []) }
{
    write_escaped(alloc, out, target)?;
    out.push(b' ')?;
    Ok(())
}
