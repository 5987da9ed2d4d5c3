// The value that each variable's name has last.
ghost use Rattle.std.specs.Prelude.{◌≡◌, ℕ, List, Some, None, bytes_eq, cond, IfOk, OnOk};
ghost use Rattle.launch.specs.Environment.{last_value, is_variable_named};
ghost use Rattle.launch.specs.LastValues.{kept_value_at};

use ac_types::{NoMemory, Text};
use app_section::EnvVar;
use std::alloc::Global;
use std::collections::BTreeMap;

/// By name, the value of the last variable of that name, until it is taken.
#[derive(Drop)]
pub(crate) struct LastValues {
    values: BTreeMap<String, Text>,
}

impl LastValues {
    fn put(&mut self, alloc: Global, variable: &EnvVar) -> Result<(), NoMemory>
        ensures { OnOk result ((name : List ℕ) → kept_value_at self.new name ≡ cond (is_variable_named variable.now name) (Some variable.now.value) (kept_value_at self.old name)) }
    {
        let value = variable.value.copy()?;
        let name = String::from_str(alloc, variable.name.as_str())?;
        self.values.insert(name, value)?;
        Ok(())
    }

    /// The values of some variables. Refused only where memory ran out.
    pub(crate) fn of(alloc: Global, variables: &[EnvVar]) -> Result<LastValues, NoMemory>
        ensures { IfOk result (λ values. (name : List ℕ) → kept_value_at values name ≡ last_value name variables.now) }
    {
        let mut last = LastValues {
            values: BTreeMap::new(alloc),
        };
        'variables: for variable in variables {
            last.put(alloc, variable)?;
        }
        Ok(last)
    }

    /// The value of a name, which it has no longer then.
    pub(crate) fn take(&mut self, name: &str) -> Option<Text>
        ensures value { result ≡ kept_value_at self.old name.now }
        ensures rest { (other : List ℕ) → kept_value_at self.new other ≡ cond (bytes_eq name.now other) None (kept_value_at self.old other) }
    {
        self.values.remove(name)
    }
}
