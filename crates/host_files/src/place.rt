// Where things stand in the data folder.
ghost use Rattle.std.specs.Prelude.{◌≡◌, ◌++◌, codes, string_bytes, IfOk, OnOk};
ghost use Rattle.host_files.specs.Places.{area_place, area_path, folder_path, inner_path, has_dots, rest_path};

use dir_trait::{Area, Spot};
use std::alloc::{AllocError, Global};

/// All areas.
pub const AREAS: [Area; 10] = [
    Area::Embryo,
    Area::Prepare,
    Area::Prepared,
    Area::Run,
    Area::ExitedGarbage,
    Area::Garbage,
    Area::Incoming,
    Area::Images,
    Area::Trees,
    Area::Removed,
];

/// Where an area stands, seen from the data folder.
pub fn place_of_area(area: Area) -> &'static str
    ensures { result.now ≡ area_place area }
{
    match area {
        Area::Embryo => "pods/embryo",
        Area::Prepare => "pods/prepare",
        Area::Prepared => "pods/prepared",
        Area::Run => "pods/run",
        Area::ExitedGarbage => "pods/exited-garbage",
        Area::Garbage => "pods/garbage",
        Area::Incoming => "store/incoming",
        Area::Images => "store/images",
        Area::Trees => "store/trees",
        Area::Removed => "store/removed",
    }
}

// Room for the longest area and name.
const MOST: usize = 96;

fn push_part(path: &mut String, part: &str) -> Result<(), AllocError>
    ensures { OnOk result (string_bytes path.new ≡ string_bytes path.old ++ codes "/" ++ part.now) }
{
    path.push_str("/")?;
    path.push_str(part)
}

/// A path and a part below it.
pub fn join(alloc: Global, path: &str, part: &str) -> Result<String, AllocError>
    ensures { IfOk result (λ joined. string_bytes joined ≡ path.now ++ codes "/" ++ part.now) }
{
    let mut joined = String::from_str(alloc, path)?;
    push_part(&mut joined, part)?;
    Ok(joined)
}

/// The path of an area.
pub fn path_of_area(alloc: Global, root: &str, area: Area) -> Result<String, AllocError>
    ensures { IfOk result (λ path. string_bytes path ≡ area_path root.now area) }
{
    join(alloc, root, place_of_area(area))
}

// The path of the folder at a location, with room for so many bytes below it.
fn folder_with_room(
    alloc: Global,
    root: &str,
    spot: &Spot,
    room: usize,
) -> Result<String, AllocError>
    ensures { IfOk result (λ path. string_bytes path ≡ folder_path root.now spot.now) }
{
    let size = root.len().saturating_add(room).saturating_add(MOST);
    let mut path = String::with_capacity(alloc, size)?;
    path.push_str(root)?;
    push_part(&mut path, place_of_area(spot.area))?;
    push_part(&mut path, spot.name.as_str())?;
    Ok(path)
}

/// The path of the folder at a location. Its last part is a name, so it is neither `.` nor `..`.
pub fn path_of_folder(alloc: Global, root: &str, spot: &Spot) -> Result<String, AllocError>
    ensures { IfOk result (λ path. string_bytes path ≡ folder_path root.now spot.now) }
{
    folder_with_room(alloc, root, spot, 0)
}

/// The path of what stands behind a path in a folder. The empty path is the folder's own. There is room for a
/// name below it.
pub fn path_inside(
    alloc: Global,
    root: &str,
    spot: &Spot,
    inner: &str,
) -> Result<String, AllocError>
    ensures { IfOk result (λ path. string_bytes path ≡ inner_path root.now spot.now inner.now) }
{
    let mut path = folder_with_room(alloc, root, spot, inner.len().saturating_add(MOST))?;
    if !inner.is_empty() {
        push_part(&mut path, inner)?;
    }
    Ok(path)
}

/// A path in a folder, as the path of the directory above its last name and the rest.
pub fn parted(inner: &str) -> (&str, &str)
    ensures { inner.now ≡ result.0.now ++ result.1.now }
{
    let end = inner.rfind('/').unwrap_or(0);
    match inner.split_at_checked(end) {
        Some(parts) => parts,
        None => ("", inner),
    }
}

/// Adds to the path of the directory above what follows it.
pub fn push_rest(path: &mut String, above: &str, rest: &str) -> Result<(), AllocError>
    ensures { OnOk result (string_bytes path.new ≡ string_bytes path.old ++ rest_path above.now rest.now) }
{
    if !above.is_empty() {
        return path.push_str(rest);
    }
    if rest.is_empty() {
        return Ok(());
    }
    push_part(path, rest)
}

/// Whether a segment of the path is `.` or `..`.
pub fn has_dots(path: &str) -> bool
    ensures { result ≡ has_dots path.now }
{
    path.split('/')
        .any(|segment| segment == "." || segment == "..")
}
