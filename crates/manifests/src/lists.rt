//! Lists as they are written. The trait is this crate's own, since it is implemented for types of other crates.
ghost use Rattle.std.specs.Prelude.{◌≡◌, map, IfOk};
ghost use Rattle.serde_json.specs.View.{view};
ghost use Rattle.app_section.specs.Objects.{built, if_filled, put_field};

use ac_types::NoMemory;
use app_section::ObjectBuilder;
use serde_json::Value;
use std::alloc::Global;

/// An element of a list in a manifest, as it is written.
pub trait Written {
    ghost use Rattle.serde_json.specs.Data.{Data};

    ghost json: { Self → Data };

    fn written(&self, alloc: Global) -> Result<Value, NoMemory>
        ensures { IfOk result (λ v. view v ≡ json self.now) };
}

/// What is written for each element, in order.
pub fn each_written<T: Written>(alloc: Global, items: &[T]) -> Result<Vec<Value>, NoMemory>
    ensures { IfOk result (λ values. map view values.items ≡ map T.json items.now) }
{
    let mut values = Vec::with_capacity(alloc, items.len())?;
    for item in items {
        values.push(item.written(alloc)?)?;
    }
    Ok(values)
}

/// The object with a list more, where it is not empty.
pub fn with_list<T: Written>(
    alloc: Global,
    object: ObjectBuilder,
    name: &str,
    items: &[T],
) -> Result<ObjectBuilder, NoMemory>
    ensures { IfOk result (λ b. built b ≡ put_field name.now (if_filled T.json items.now) (built object)) }
{
    if items.is_empty() {
        return Ok(object);
    }
    let values = each_written(alloc, items)?;
    object.json(alloc, name, Value::Array(values))
}
