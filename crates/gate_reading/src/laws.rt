// The laws of what reads and listings tell of images, each the contract of a function.
ghost use Rattle.lifecycle.specs.Executions.{IsConforming};
ghost use Rattle.gate_reading.specs.Files.{FilesStay, NoneComes};
ghost use Rattle.gate_reading.specs.Areas.{AreasTell};
ghost use Rattle.gate_reading.specs.Listings.{ListingsTell};

use dir_model::History;

/// A file of an image stays as it is, at each own step of a process that has the area lock of images
/// shared and gives up no handle; and where an image has no file, none comes. This is said of paths
/// outside the directory `stage1`, where a started app has its root.
pub fn files(history: &History)
    ensures stay { IsConforming history.now.items → FilesStay history.now.items }
    ensures missing { IsConforming history.now.items → NoneComes history.now.items }
{
    let _events = history.as_slice();
}

/// A listing of the area, made by such a process, shows each image that stood since it had the lock, and
/// only images that stand when it ends.
pub fn areas(history: &History)
    ensures { IsConforming history.now.items → AreasTell history.now.items }
{
    let _events = history.as_slice();
}

/// A listing of an image, made by such a process, shows exactly the names of what stood directly in the
/// image since it had the lock, each with its kind.
pub fn listings(history: &History)
    ensures { IsConforming history.now.items → ListingsTell history.now.items }
{
    let _events = history.as_slice();
}
