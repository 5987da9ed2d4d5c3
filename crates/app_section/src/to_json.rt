//! What is written as a JSON value.
ghost use Rattle.std.specs.Prelude.{◌≡◌, map, IfOk};
ghost use Rattle.serde_json.specs.View.{view};

use ac_types::{NoMemory, Text};
use serde_json::Value;
use std::alloc::Global;

/// What is written as a JSON value.
pub trait ToJson {
    ghost use Rattle.serde_json.specs.Data.{Data};

    ghost json: { Self → Data };

    fn to_json(&self, alloc: Global) -> Result<Value, NoMemory>
        ensures { IfOk result (λ v. view v ≡ json self.now) };
}

/// The JSON of each of some values, in order.
pub fn json_of_each<T: ToJson>(alloc: Global, items: &[T]) -> Result<Vec<Value>, NoMemory>
    ensures { IfOk result (λ values. map view values.items ≡ map T.json items.now) }
{
    let mut values = Vec::with_capacity(alloc, items.len())?;
    for item in items {
        values.push(item.to_json(alloc)?)?;
    }
    Ok(values)
}

impl ToJson for Text {
    ghost use Rattle.serde_json.specs.Data.{string};

    ghost json = { λ t. string t };

    fn to_json(&self, alloc: Global) -> Result<Value, NoMemory> {
        Ok(Value::String(String::from_str(alloc, self.as_str())?))
    }
}

impl ToJson for u32 {
    ghost use Rattle.app_section.specs.AppObject.{whole_data};

    ghost json = { λ n. whole_data n };

    fn to_json(&self, _alloc: Global) -> Result<Value, NoMemory> {
        Ok(Value::from(*self))
    }
}
