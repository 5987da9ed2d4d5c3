//! JSON objects, put together field by field.
ghost use Rattle.std.specs.Prelude.{◌≡◌, Some, IfOk};
ghost use Rattle.serde_json.specs.Data.{no_members, string, object};
ghost use Rattle.serde_json.specs.View.{view};
ghost use Rattle.app_section.specs.AppObject.{whole_data};

use crate::to_json::{ToJson, json_of_each};
use ac_types::NoMemory;
use serde_json::{Map, Value};
use std::alloc::Global;

/// A JSON object that is being built.
#[derive(Drop)]
pub struct ObjectBuilder {
    members: Map<String, Value>,
}

impl ObjectBuilder {
    ghost use Rattle.app_section.specs.Objects.{built, put_field, if_true, if_filled};

    /// No members yet.
    pub fn new(alloc: Global) -> ObjectBuilder
        ensures { built result ≡ no_members }
    {
        ObjectBuilder {
            members: Map::new(alloc),
        }
    }

    /// With a member more, of any kind.
    #[tactic(auto, unfolding(crate::specs::Objects::put_field))]
    pub fn json(self, alloc: Global, name: &str, value: Value) -> Result<ObjectBuilder, NoMemory>
        ensures { IfOk result (λ b. built b ≡ put_field name.now (Some (view value)) (built self)) }
    {
        let mut members = self.members;
        let key = String::from_str(alloc, name)?;
        drop(members.insert(key, value)?);
        Ok(ObjectBuilder { members })
    }

    /// With a text more.
    pub fn text(self, alloc: Global, name: &str, text: &str) -> Result<ObjectBuilder, NoMemory>
        ensures { IfOk result (λ b. built b ≡ put_field name.now (Some (string text.now)) (built self)) }
    {
        self.json(alloc, name, Value::String(String::from_str(alloc, text)?))
    }

    /// With a whole number more.
    pub fn number(self, alloc: Global, name: &str, number: u64) -> Result<ObjectBuilder, NoMemory>
        ensures { IfOk result (λ b. built b ≡ put_field name.now (Some (whole_data number)) (built self)) }
    {
        self.json(alloc, name, Value::from(number))
    }

    /// With a truth value more, where it is true.
    #[tactic(auto, unfolding(crate::specs::Objects::put_field))]
    pub fn flag(self, alloc: Global, name: &str, truth: bool) -> Result<ObjectBuilder, NoMemory>
        ensures { IfOk result (λ b. built b ≡ put_field name.now (if_true truth) (built self)) }
    {
        if truth {
            self.json(alloc, name, Value::Bool(true))
        } else {
            Ok(self)
        }
    }

    /// With a list more, where it is not empty.
    pub fn list<T: ToJson>(
        self,
        alloc: Global,
        name: &str,
        items: &[T],
    ) -> Result<ObjectBuilder, NoMemory>
        ensures { IfOk result (λ b. built b ≡ put_field name.now (if_filled T.json items.now) (built self)) }
    {
        if items.is_empty() {
            return Ok(self);
        }
        let values = json_of_each(alloc, items)?;
        self.json(alloc, name, Value::Array(values))
    }

    /// The object.
    pub fn finish(self) -> Value
        ensures { view result ≡ object (built self) }
    {
        Value::Object(self.members)
    }
}
