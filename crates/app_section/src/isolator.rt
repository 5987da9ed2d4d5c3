//! Isolators, whose value is JSON.
ghost use Rattle.std.specs.Prelude.{◌≡◌, IfOk};
ghost use Rattle.app_section.specs.AppData.{isolator_data};

use crate::whole_numbers::has_float;
use ac_types::{
    AcIdentifier, FaultKind, FromElement, NoMemory, ReadError, Sequence, ShownCopy, field_fault,
    object_value, required_field, required_identifier,
};
use serde_json::Value;
use std::alloc::Global;

/// A limit on what an app may use, in a form that its name stands for.
#[derive(Drop)]
pub struct Isolator {
    pub name: AcIdentifier,
    /// JSON of any kind but null, whose numbers are whole at each depth.
    pub value: Value,
}

/// A list of isolators. Contracts see its elements.
pub type Isolators = Sequence<Isolator>;

impl Isolator {
    /// An isolator of that name and with that JSON.
    pub fn copy(&self) -> Result<Isolator, NoMemory>
        ensures { IfOk result (λ copy. isolator_data copy ≡ isolator_data self.now) }
    {
        Ok(Isolator {
            name: self.name.copy()?,
            value: self.value.clone()?,
        })
    }
}

impl ShownCopy for Isolator {
    ghost use Rattle.app_section.specs.AppData.{IsolatorData, isolator_data};

    ghost Shown = { IsolatorData };

    ghost shown = { isolator_data };

    fn copy(&self) -> Result<Isolator, NoMemory> {
        Isolator::copy(self)
    }
}

impl FromElement for Isolator {
    ghost use Rattle.app_section.specs.AppData.{IsolatorData, isolator_data};
    ghost use Rattle.app_section.specs.IsolatorForm.{isolator};

    ghost Shown = { IsolatorData };

    ghost shown = { isolator_data };

    ghost form = { isolator };

    ghost name_of = { λ i. i.name };

    #[tactic(auto, unfolding(crate::specs::IsolatorForm::isolator))]
    fn read(alloc: Global, value: &Value, at: &str) -> Result<Isolator, ReadError> {
        object_value(alloc, value, at)?;
        let name = required_identifier(alloc, value, at, "name")?;
        let found = required_field(alloc, value, at, "value")?;
        if has_float(found) {
            return Err(field_fault(alloc, at, "value", FaultKind::Fraction));
        }
        Ok(Isolator {
            name,
            value: found.clone()?,
        })
    }
}
