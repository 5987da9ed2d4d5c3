// The pod that a word means.
ghost use Rattle.std.specs.Prelude.{◌≡◌, ◌↔◌, true, IfOk, IfErr, IfSome, IsErrOf, IsOk, IsSome, length, filter};
ghost use Rattle.dir_model.specs.Pods.{pod_of_text, pod_text};
ghost use Rattle.dir_trait.specs.Causes.{Rose};
ghost use Rattle.dir_trait.specs.Local.{IsActive};
ghost use Rattle.pod_lookup.specs.Looks.{OnlyLooksFor, lists_stages};
ghost use Rattle.pod_lookup.specs.Choice.{is_meant, the_only, choice, IsLookupAnswer, IfAmbiguous, NamesMeant};
ghost use Rattle.pod_lookup.specs.Resolved.{IsChosen, IsNoneOf, Existed, AreTheLeast, FindsTheOne, IsSequential};

use crate::listing::listed_pods;
use dir_trait::{Dir, PodId, PodPrefix};
use phase_read::LookError;
use std::alloc::Global;

// Whether the pod's uuid begins with the prefix.
fn is_meant(prefix: PodPrefix, pod: PodId) -> bool
    ensures { result ≡ is_meant prefix pod }
{
    prefix.begins(pod)
}

// The pods that begin so.
fn meant(alloc: Global, prefix: PodPrefix, pods: &[PodId]) -> Result<Vec<PodId>, LookError>
    ensures meant { IfOk result (λ found. found.items ≡ filter (is_meant prefix) pods.now) }
    ensures memory { IfErr result (λ e. e ≡ LookError.NoMemory) }
{
    let found = pods
        .iter()
        .copied()
        .filter(|pod| is_meant(prefix, *pod))
        .collect(alloc);
    match found {
        Ok(found) => Ok(found),
        Err(_) => Err(LookError::NoMemory),
    }
}

fn the_only(pods: &[PodId]) -> Result<PodId, LookError>
    ensures { result ≡ the_only pods.now }
{
    match pods {
        [] => Err(LookError::NoPod),
        [pod] => Ok(*pod),
        [first, second, ..] => Err(LookError::Ambiguous(*first, *second)),
    }
}

fn choose(alloc: Global, prefix: PodPrefix, pods: &[PodId]) -> Result<PodId, LookError>
    ensures chosen { IsLookupAnswer result → result ≡ choice prefix pods.now }
    ensures never_fails { IsErrOf result LookError.DirFault → ⊥ }
{
    let found = meant(alloc, prefix, pods)?;
    the_only(&found)
}

// The pod, where the prefix is its whole uuid.
fn whole(prefix: PodPrefix) -> Option<PodId>
    ensures some { IsSome result ↔ (length prefix ≡ 36) }
    ensures bytes { IfSome result (λ pod. pod_text pod.bytes ≡ prefix) }
    ensures is { result ≡ pod_of_text prefix }
{
    PodId::parse(prefix.as_str())
}

/// The pod whose uuid begins with the prefix. A whole uuid is answered without a look, whether there is
/// such a pod or not. Otherwise the six areas are listed in lifecycle order: `NoPod` where none that was
/// listed begins so, and where every process keeps the local rules each such pod didn't exist at an own
/// step; `Ambiguous` where several do, with the two least. `DirFault` where the directory failed,
/// `NoMemory` where memory ran out.
pub fn resolve<D: Dir>(alloc: Global, dir: &mut D, prefix: PodPrefix) -> Result<PodId, LookError>
    requires active { IsActive (D.shown dir.old).local }
    ensures only { OnlyLooksFor D.observed lists_stages (D.shown dir.old) (D.shown dir.new) }
    ensures cause { IsErrOf result LookError.DirFault → Rose (D.shown dir.old).faults (D.shown dir.new).faults }
    ensures whole { length prefix ≡ 36 → IsOk result }
    ensures unseen { length prefix ≡ 36 → D.shown dir.new ≡ D.shown dir.old }
    ensures same { length prefix ≡ 36 → IfOk result (λ pod. pod_text pod.bytes ≡ prefix) }
    ensures meant { NamesMeant prefix result }
    ensures chosen { (length prefix ≡ 36 → ⊥) → IsLookupAnswer result → D.observed ≡ true
        → IsChosen prefix result (D.shown dir.old) (D.shown dir.new) }
    ensures existed { (length prefix ≡ 36 → ⊥) → IfOk result (λ pod. D.observed ≡ true
        → Existed pod (D.shown dir.old) (D.shown dir.new)) }
    ensures none { IsErrOf result LookError.NoPod → D.observed ≡ true
        → IsNoneOf prefix (D.shown dir.old) (D.shown dir.new) }
    ensures several { IfAmbiguous result (λ a b. D.observed ≡ true
        → AreTheLeast prefix a b (D.shown dir.old) (D.shown dir.new)) }
    ensures found { IsLookupAnswer result → D.observed ≡ true
        → FindsTheOne prefix result (D.shown dir.old) (D.shown dir.new) }
    ensures quiet { IsLookupAnswer result → D.observed ≡ true
        → IsSequential prefix result (D.shown dir.old) (D.shown dir.new) }
{
    match whole(prefix) {
        Some(pod) => Ok(pod),
        None => {
            let pods = listed_pods(alloc, dir)?;
            choose(alloc, prefix, &pods)
        }
    }
}
