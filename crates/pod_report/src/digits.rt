// The text of a status, as a status file has it.
ghost use Rattle.std.specs.Prelude.{◌≡◌, ℕ, Some, IfOk, IfErr, MatchOption, bytes_eq, string_bytes};
ghost use Rattle.pod_report.specs.Ends.{status_text, IsStatusText, IsNoStatus};

use crate::error::ReportError;
use std::alloc::{AllocError, Global};
use std::str;

fn status_text(alloc: Global, status: u8) -> Result<String, AllocError>
    ensures { IfOk result (λ text. string_bytes text ≡ status_text status) }
{
    let mut text = status.to_string(alloc)?;
    text.push_str("\n")?;
    Ok(text)
}

fn is_text_of(alloc: Global, status: u8, bytes: &[u8]) -> Result<bool, ReportError>
    ensures same { IfOk result (λ same. same ≡ bytes_eq bytes.now (status_text status)) }
    ensures memory { IfErr result (λ e. e ≡ ReportError.NoMemory) }
{
    match status_text(alloc, status) {
        Ok(text) => Ok(bytes == text.as_bytes()),
        Err(_) => Err(ReportError::NoMemory),
    }
}

// The number that stands before the last byte. It is the status of which the bytes are the text, if any.
fn number_in(bytes: &[u8]) -> Option<u8>
    ensures { (status : ℕ) → IsStatusText status bytes.now → result ≡ Some status }
{
    if bytes.is_empty() {
        return None;
    }
    match str::from_utf8(&bytes[..bytes.len() - 1]) {
        Ok(digits) => match digits.parse::<u8>() {
            Ok(number) => Some(number),
            Err(_) => None,
        },
        Err(_) => None,
    }
}

/// The status of which the bytes are the text.
pub(crate) fn status_in(alloc: Global, bytes: &[u8]) -> Result<Option<u8>, ReportError>
    ensures read { IfOk result (λ found. MatchOption found (IsNoStatus bytes.now) (λ status. IsStatusText status bytes.now)) }
    ensures memory { IfErr result (λ e. e ≡ ReportError.NoMemory) }
{
    match number_in(bytes) {
        Some(number) => match is_text_of(alloc, number, bytes) {
            Ok(true) => Ok(Some(number)),
            Ok(false) => Ok(None),
            Err(error) => Err(error),
        },
        None => Ok(None),
    }
}
