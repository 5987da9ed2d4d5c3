// What files are copied from.
ghost use Rattle.std.specs.Prelude.{◌≡◌, ◌≤◌, true, length, take, IfOk, IsErrOf};
ghost use Rattle.dir_trait.specs.Causes.{Rose};
ghost use Rattle.dir_trait.specs.Paths.{is_path};
ghost use Rattle.dir_trait.specs.Local.{IsActive};
ghost use Rattle.dir_trait.specs.Effects.{OnlyAsks};
ghost use Rattle.folder_building.specs.Sources.{Same, ReadsOn, LacksOrigin, ReadsOrigin};
ghost use Rattle.folder_building.specs.Stored.{WasGone, SeesStoredBytes, reads_stored};

use crate::plan::Origin;
use dir_trait::Dir;
use std::alloc::Global;

/// Why a source gave nothing.
#[derive(Clone, Copy, Debug, PartialEq, Eq)]
pub enum SourceError {
    /// No file stands there.
    Missing,
    /// The source failed.
    Failed,
    /// The directory failed.
    DirFault,
    /// Memory ran out.
    NoMemory,
}

/// Files that can be read in pieces, some of them in the data folder itself.
pub trait Source {
    ghost use Rattle.std.specs.Prelude.{Option};
    ghost use Rattle.dir_model.specs.declared.item.Inner.{Inner};
    ghost use Rattle.folder_building.specs.declared.plan.Origin.{Origin};
    ghost use Rattle.folder_building.specs.Sources.{SourceAt};

    /// The file of the data folder that it reads for an origin, if it reads one.
    ghost stored: { Origin → Option Inner };

    /// What it shows at a moment: how often it failed, what it asks the data folder for and under which
    /// locks it may, and where it tells them the bytes of its files.
    ghost shown: { Self → SourceAt };

    /// Fills the room with the bytes of a file, from byte `at` on, and answers how many it filled: fewer
    /// than the room has only at the file's end. `Missing` where no file stands there, and only then;
    /// `Failed` where the source failed, `DirFault` where the directory did, `NoMemory` where memory
    /// ran out.
    fn read<D: Dir>(
        &mut self,
        alloc: Global,
        dir: &mut D,
        origin: &Origin,
        at: u64,
        room: &mut [u8],
    ) -> Result<usize, SourceError>
        requires active { IsActive (D.shown dir.old).local }
        requires path { is_path origin.now.path ≡ true }
        ensures fault { IsErrOf result SourceError.DirFault → Rose (D.shown dir.old).faults (D.shown dir.new).faults }
        ensures cause { IsErrOf result SourceError.Failed → Rose (shown self.old).faults (shown self.new).faults }
        ensures most { IfOk result (λ n. n ≤ length room.old) }
        ensures missing { IsErrOf result SourceError.Missing → LacksOrigin (shown self.old) origin.now }
        ensures read { IfOk result (λ n. ReadsOrigin (shown self.old) origin.now at (length room.old) n room.new) }
        ensures gone { IsErrOf result SourceError.Missing → D.observed ≡ true → WasGone (stored origin.now) (D.shown dir.old) (D.shown dir.new) }
        ensures sees { IfOk result (λ n. D.observed ≡ true → SeesStoredBytes (stored origin.now) at (length room.old) (take n room.new) (D.shown dir.old) (D.shown dir.new)) }
        ensures same { Same (shown self.old) (shown self.new) }
        ensures worked { OnlyAsks D.observed (shown self.old).asks (D.shown dir.old) (D.shown dir.new) }
        ensures copies { OnlyAsks D.observed (reads_stored (stored origin.now)) (D.shown dir.old) (D.shown dir.new) }
        ensures known { D.observed ≡ true → ReadsOn (shown self.old) (D.shown dir.old) (D.shown dir.new) };
}
