// How a process comes to the pod that its line means.
ghost use Rattle.std.specs.Prelude.{◌≡◌, Some};
ghost use Rattle.dir_trait.specs.Local.{IsActive};
ghost use Rattle.rkt_cli.specs.Lookups.{ComesToPod, FindsPodByWord, FindsMeant, lookup_refusal};
ghost use Rattle.rkt_cli.specs.Tasks.{pod_word_of};

use crate::line::{Line, line_word};
use command_outcomes::Refusal;
use dir_trait::{Dir, Draw, PodId, PodPrefix};
use phase_read::LookError;
use pod_lookup::resolve;
use std::alloc::Global;

fn lookup_refusal(error: LookError) -> Refusal
    ensures { result ≡ lookup_refusal error }
{
    match error {
        LookError::NoPod => Refusal::NoPod,
        LookError::Ambiguous(first, second) => Refusal::Ambiguous(first, second),
        LookError::DirFault => Refusal::DirFault,
        LookError::NoMemory => Refusal::NoMemory,
    }
}

// The pod that the word means.
fn meant_pod<D: Dir>(alloc: Global, word: PodPrefix, dir: &mut D) -> Result<PodId, Refusal>
    requires active { IsActive (D.shown dir.old).local }
    ensures comes { ComesToPod D.observed (Some word) (D.shown dir.old) (D.shown dir.new) }
    ensures finds { FindsMeant D.observed word (D.shown dir.old) (D.shown dir.new) result }
{
    match resolve(alloc, dir, word) {
        Ok(pod) => Ok(pod),
        Err(error) => Err(lookup_refusal(error)),
    }
}

/// The pod that the line is about: the one that its word means, or where it has no word the one that is drawn.
///
/// `NoPod` where no pod begins so, `Ambiguous` where several do, `DirFault` where the directory failed. A whole uuid is
/// answered without a look, whether there is such a pod or not.
pub(crate) fn its_pod<D: Dir>(
    alloc: Global,
    line: &Line,
    draw: &Draw,
    dir: &mut D,
) -> Result<PodId, Refusal>
    requires active { IsActive (D.shown dir.old).local }
    ensures comes { ComesToPod D.observed (pod_word_of line.now) (D.shown dir.old) (D.shown dir.new) }
    ensures finds { FindsPodByWord D.observed (pod_word_of line.now) draw.now (D.shown dir.old) (D.shown dir.new) result }
{
    match line_word(line) {
        Some(word) => meant_pod(alloc, word, dir),
        None => Ok(draw.uuid),
    }
}
