// A file, read from its start.
ghost use Rattle.std.specs.Prelude.{◌≡◌, ◌≤◌, ◌<◌, ◌+◌, true, false, IfOk, IsErrOf, IsSomeAnd, None, length, take};
ghost use Rattle.dir_model.specs.Causes.{Rose};
ghost use Rattle.dir_trait.specs.declared.bundle.BundleAction.TheVariants.{Read};
ghost use Rattle.dir_trait.specs.Bundles.{bytes_of_node, AsksBundleOnly, request_at};
ghost use Rattle.bundle_image.specs.Fronts.{IsFrontOrNothing, IsFront};

use dir_trait::{Bundle, BundleError};
use std::alloc::{AllocError, Global};

// How much one read asks for at most.
pub(crate) const PIECE: usize = 65_536;

fn out_of_memory(_error: AllocError) -> BundleError
    ensures { result ≡ BundleError.NoMemory }
{
    BundleError::NoMemory
}

/// Appends the next bytes of the file, as many as the room takes, and answers whether it ends there.
fn read_piece<B: Bundle>(
    alloc: Global,
    bundle: &mut B,
    path: &str,
    room: &mut [u8],
    bytes: &mut Vec<u8>,
) -> Result<bool, BundleError>
    requires { 0 < length room.old }
    ensures faults { (B.shown bundle.old).faults ≤ (B.shown bundle.new).faults }
    ensures cause { IsErrOf result BundleError.Failed → Rose (B.shown bundle.old).faults (B.shown bundle.new).faults }
    ensures same { B.observed ≡ true → (B.shown bundle.new).tree ≡ (B.shown bundle.old).tree }
    ensures given { (B.shown bundle.new).given ≤ (B.shown bundle.old).given + length room.old }
    ensures kept { IfOk result (λ ended. (B.shown bundle.new).given + length bytes.old.items ≤ (B.shown bundle.old).given + length bytes.new.items) }
    ensures asked { B.observed ≡ true → AsksBundleOnly (request_at Read path.now) (B.shown bundle.old).asked (B.shown bundle.new).asked }
    ensures missing { IsErrOf result BundleError.Missing → B.observed ≡ true → bytes_of_node ((B.shown bundle.old).tree path.now) ≡ None }
    ensures most { IfOk result (λ ended. length bytes.new.items ≤ length bytes.old.items + length room.old) }
    ensures grew { IfOk result (λ ended. ended ≡ false → length bytes.old.items < length bytes.new.items) }
    ensures read { IfOk result (λ ended. B.observed ≡ true → IsFrontOrNothing (bytes_of_node ((B.shown bundle.old).tree path.now)) bytes.old.items
        → IsSomeAnd (bytes_of_node ((B.shown bundle.old).tree path.now)) (IsFront ended bytes.new.items)) }
{
    let count = bundle.read(alloc, path, bytes.len() as u64, room)?;
    bytes
        .extend_from_slice(&room[..count])
        .map_err(out_of_memory)?;
    Ok(count < room.len())
}

/// The bytes of the file at a path: all of them, or the first `most` where it has more. The bundle is
/// asked for nothing but that file, and for at most `most` of its bytes. `Missing` where no file stands
/// there, `Failed` where the bundle failed, `NoMemory` where memory ran out.
pub fn read_file<B: Bundle>(
    alloc: Global,
    bundle: &mut B,
    path: &str,
    most: usize,
) -> Result<Vec<u8>, BundleError>
    requires { 0 < most }
    ensures faults { (B.shown bundle.old).faults ≤ (B.shown bundle.new).faults }
    ensures cause { IsErrOf result BundleError.Failed → Rose (B.shown bundle.old).faults (B.shown bundle.new).faults }
    ensures given { (B.shown bundle.new).given ≤ (B.shown bundle.old).given + most }
    ensures asked { B.observed ≡ true → AsksBundleOnly (request_at Read path.now) (B.shown bundle.old).asked (B.shown bundle.new).asked }
    ensures most { IfOk result (λ bytes. length bytes.items ≤ most) }
    ensures same { B.observed ≡ true → (B.shown bundle.new).tree ≡ (B.shown bundle.old).tree }
    ensures read { IfOk result (λ bytes. B.observed ≡ true
        → IsSomeAnd (bytes_of_node ((B.shown bundle.old).tree path.now)) (λ file. bytes.items ≡ take most file)) }
    ensures missing { IsErrOf result BundleError.Missing → B.observed ≡ true → bytes_of_node ((B.shown bundle.old).tree path.now) ≡ None }
{
    let mut room = vec![in alloc; 0; PIECE].map_err(out_of_memory)?;
    let mut bytes = Vec::new(alloc);
    'pieces: while bytes.len() < most {
        let wanted = room.len().min(most - bytes.len());
        if read_piece(alloc, bundle, path, &mut room[..wanted], &mut bytes)? {
            return Ok(bytes);
        }
    }
    Ok(bytes)
}
