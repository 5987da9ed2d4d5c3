//! Variables of an environment.
ghost use Rattle.std.specs.Prelude.{◌≡◌, IfOk};
ghost use Rattle.std.specs.List.{list_all};
ghost use Rattle.app_section.specs.EnvForm.{is_env_name, is_first_byte, is_later_byte};
ghost use Rattle.app_section.specs.Places.{has_nul};

use ac_types::{
    FaultKind, FromElement, NoMemory, ReadError, Sequence, Text, TryCopy, field_fault, filled_text,
    object_value, required_text,
};
use serde_json::Value;
use std::alloc::Global;

/// A variable of an app's environment.
#[derive(Drop)]
pub struct EnvVar {
    /// A letter or `_`, and then letters, digits, `_`, `.` and `-`.
    pub name: Text,
    /// A text without NUL.
    pub value: Text,
}

/// A list of variables. Contracts see its elements.
pub type EnvVars = Sequence<EnvVar>;

impl EnvVar {
    /// An equal variable.
    pub fn copy(&self) -> Result<EnvVar, NoMemory>
        ensures { IfOk result (λ copy. copy ≡ self.now) }
    {
        Ok(EnvVar {
            name: self.name.copy()?,
            value: self.value.copy()?,
        })
    }
}

impl TryCopy for EnvVar {
    fn try_copy(&self) -> Result<EnvVar, NoMemory> {
        self.copy()
    }
}

impl FromElement for EnvVar {
    ghost use Rattle.app_section.specs.declared.env_var.EnvVar.{EnvVar};
    ghost use Rattle.app_section.specs.EnvForm.{env_var};

    ghost Shown = { EnvVar };

    ghost shown = { λ e. e };

    ghost form = { env_var };

    ghost name_of = { λ e. e.name };

    #[tactic(auto, unfolding(crate::specs::EnvForm::env_var))]
    fn read(alloc: Global, value: &Value, at: &str) -> Result<EnvVar, ReadError> {
        object_value(alloc, value, at)?;
        let name = filled_text(alloc, value, at, "name")?;
        if !is_env_name(name) {
            return Err(field_fault(alloc, at, "name", FaultKind::BadEnvName));
        }
        let text = required_text(alloc, value, at, "value")?;
        if has_nul(text) {
            return Err(field_fault(alloc, at, "value", FaultKind::BadEnvName));
        }
        Ok(EnvVar {
            name: Text::of(alloc, name)?,
            value: Text::of(alloc, text)?,
        })
    }
}

fn is_env_name(name: &str) -> bool
    ensures { result ≡ is_env_name name.now }
{
    match name.as_bytes().split_first() {
        Some((first, rest)) => is_first_byte(*first) && are_later_bytes(rest),
        None => false,
    }
}

fn are_later_bytes(bytes: &[u8]) -> bool
    ensures { result ≡ list_all is_later_byte bytes.now }
{
    bytes.iter().all(|b| is_later_byte(*b))
}

fn is_first_byte(byte: u8) -> bool
    ensures { result ≡ is_first_byte byte }
{
    byte.is_ascii_alphabetic() || byte == b'_'
}

fn is_later_byte(byte: u8) -> bool
    ensures { result ≡ is_later_byte byte }
{
    is_first_byte(byte) || byte.is_ascii_digit() || byte == b'.' || byte == b'-'
}

/// Whether the text holds a NUL.
pub(crate) fn has_nul(text: &str) -> bool
    ensures { result ≡ has_nul text.now }
{
    text.as_bytes().iter().any(|b| *b == 0)
}
