// How the apps of the demo end.
ghost use Rattle.std.specs.Prelude.{◌≡◌, IfOk};
ghost use Rattle.demo_inputs.specs.Bundles.{app_spawner};

use dir_model::NoMemory;
use memory_spawner::MemorySpawner;
use std::alloc::Global;

/// A spawner whose first program ends with the rest of a pod's number by 2. Refused only where memory ran out.
pub fn app_spawner(alloc: Global, pod: u32) -> Result<MemorySpawner, NoMemory>
    ensures { IfOk result (λ spawner. spawner ≡ app_spawner pod) }
{
    let spawner = MemorySpawner::new(alloc);
    spawner.ends(alloc, 1, (pod % 2) as u8)
}
