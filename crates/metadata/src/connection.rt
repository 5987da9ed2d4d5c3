// The serving of one connection.
ghost use Rattle.std.specs.Prelude.{◌≡◌, ◌≤◌, true, option_map, IfOk, IfErr, IfSome, OnOk, IsErrOf, string_bytes};
ghost use Rattle.dir_model.specs.Causes.{Rose};
ghost use Rattle.dir_model.specs.Local.{IsActive};
ghost use Rattle.metadata_request.specs.Inputs.{unread_of, OnlyReadsInput};
ghost use Rattle.metadata_request.specs.Requests.{IsRequestOf};
ghost use Rattle.metadata_reply.specs.Answers.{answer_of};
ghost use Rattle.metadata_reply.specs.ReplyBytes.{reply_bytes};
ghost use Rattle.metadata_reply.specs.Views.{IsWholeView, view_data};
ghost use Rattle.pod_report.specs.Requests.{HasNoPodOpen, OnlyAsksFor};
ghost use Rattle.metadata.specs.Looks.{looks_in_run};
ghost use Rattle.metadata.specs.Serving.{sought, IsPodFor, RepliesFor, AnswersRequest, IsReplyTo, Serves, ServesAtMost};

use crate::error::{MetaError, link_fault};
use crate::find::find_pod;
use dir_trait::Dir;
use listener::{Listener, write_whole};
use metadata_reply::{PodView, Reply, answer, reply_bytes, token_of};
use metadata_request::{Request, read_request};
use std::alloc::Global;

// The token for which a pod is looked for.
fn sought(request: &Request) -> Option<[u8; 16]>
    ensures { result ≡ sought request.now }
{
    if request.flavor {
        token_of(request.target.as_str().as_bytes())
    } else {
        None
    }
}

// The pod of that token, if there is one.
fn pod_for<D: Dir>(
    alloc: Global,
    dir: &mut D,
    token: Option<[u8; 16]>,
) -> Result<Option<PodView>, MetaError>
    requires active { IsActive (D.shown dir.old).local }
    requires alone { HasNoPodOpen (D.shown dir.old).local }
    ensures only { OnlyAsksFor D.observed looks_in_run (D.shown dir.old) (D.shown dir.new) }
    ensures cause { IsErrOf result MetaError.DirFault → Rose (D.shown dir.old).faults (D.shown dir.new).faults }
    ensures link { IsErrOf result MetaError.LinkFault → ⊥ }
    ensures whole { IfOk result (λ found. IfSome found (λ v. IsWholeView (view_data v))) }
    ensures found { IfOk result (λ found. D.observed ≡ true → IsPodFor token (option_map view_data found) (D.shown dir.old) (D.shown dir.new)) }
{
    match token {
        Some(token) => find_pod(alloc, dir, &token),
        None => Ok(None),
    }
}

// The answer to the request, for this pod.
fn answered(
    alloc: Global,
    request: &Request,
    pod: Option<PodView>,
    key: &[u8; 64],
) -> Result<Reply, MetaError>
    requires { IfSome pod (λ v. IsWholeView (view_data v)) }
    ensures reply { IfOk result (λ reply. reply ≡ answer_of request.now (option_map view_data pod) key.now) }
    ensures memory { IfErr result (λ e. e ≡ MetaError.NoMemory) }
{
    match answer(alloc, request, pod.as_ref(), key) {
        Ok(reply) => Ok(reply),
        Err(_) => Err(MetaError::NoMemory),
    }
}

// The reply to the request, for the pod of its token alone.
fn reply_for<D: Dir>(
    alloc: Global,
    dir: &mut D,
    request: &Request,
    key: &[u8; 64],
) -> Result<Reply, MetaError>
    requires active { IsActive (D.shown dir.old).local }
    requires alone { HasNoPodOpen (D.shown dir.old).local }
    ensures only { OnlyAsksFor D.observed looks_in_run (D.shown dir.old) (D.shown dir.new) }
    ensures cause { IsErrOf result MetaError.DirFault → Rose (D.shown dir.old).faults (D.shown dir.new).faults }
    ensures link { IsErrOf result MetaError.LinkFault → ⊥ }
    ensures reply { IfOk result (λ reply. D.observed ≡ true → RepliesFor request.now key.now reply (D.shown dir.old) (D.shown dir.new)) }
{
    match pod_for(alloc, dir, sought(request)) {
        Ok(pod) => answered(alloc, request, pod, key),
        Err(error) => Err(error),
    }
}

// The reply to what was read.
fn reply_to<D: Dir>(
    alloc: Global,
    dir: &mut D,
    request: &Option<Request>,
    key: &[u8; 64],
) -> Result<Reply, MetaError>
    requires active { IsActive (D.shown dir.old).local }
    requires alone { HasNoPodOpen (D.shown dir.old).local }
    ensures only { OnlyAsksFor D.observed looks_in_run (D.shown dir.old) (D.shown dir.new) }
    ensures cause { IsErrOf result MetaError.DirFault → Rose (D.shown dir.old).faults (D.shown dir.new).faults }
    ensures link { IsErrOf result MetaError.LinkFault → ⊥ }
    ensures reply { IfOk result (λ reply. D.observed ≡ true → AnswersRequest request.now key.now reply (D.shown dir.old) (D.shown dir.new)) }
{
    match request {
        Some(request) => reply_for(alloc, dir, request, key),
        None => Ok(Reply::refused(alloc, 400)),
    }
}

fn bytes_of(alloc: Global, reply: &Reply) -> Result<String, MetaError>
    ensures bytes { IfOk result (λ text. string_bytes text ≡ reply_bytes reply.now) }
    ensures memory { IfErr result (λ e. e ≡ MetaError.NoMemory) }
{
    match reply_bytes(alloc, reply) {
        Ok(text) => Ok(text),
        Err(_) => Err(MetaError::NoMemory),
    }
}

// The bytes of the reply to what comes next on the current connection.
fn next_reply<L: Listener, D: Dir>(
    alloc: Global,
    link: &mut L,
    dir: &mut D,
    key: &[u8; 64],
) -> Result<String, MetaError>
    requires active { IsActive (D.shown dir.old).local }
    requires alone { HasNoPodOpen (D.shown dir.old).local }
    ensures kept { (L.shown link.old).faults ≤ (L.shown link.new).faults }
    ensures only { OnlyAsksFor D.observed looks_in_run (D.shown dir.old) (D.shown dir.new) }
    ensures link_cause { IsErrOf result MetaError.LinkFault → Rose (L.shown link.old).faults (L.shown link.new).faults }
    ensures dir_cause { IsErrOf result MetaError.DirFault → Rose (D.shown dir.old).faults (D.shown dir.new).faults }
    ensures read { OnlyReadsInput L.observed (L.shown link.old) (L.shown link.new) }
    ensures reply { IfOk result (λ text. L.observed ≡ true → D.observed ≡ true
        → IsReplyTo (unread_of (L.shown link.old).current) key.now (string_bytes text) (D.shown dir.old) (D.shown dir.new)) }
{
    let request = match read_request(alloc, link) {
        Ok(request) => request,
        Err(error) => return Err(link_fault(error)),
    };
    match reply_to(alloc, dir, &request, key) {
        Ok(reply) => bytes_of(alloc, &reply),
        Err(error) => Err(error),
    }
}

/// Reads one request of the current connection, and writes its reply: that of its input, however its reads
/// cut it, for the pod of its token alone, with signatures under the key. A bad request is answered by a
/// reply. Whatever its answer, no more was written than a beginning of such a reply.
///
/// `LinkFault` where the listener failed, `DirFault` where the directory failed, `NoMemory` where memory ran
/// out.
pub fn serve_one<L: Listener, D: Dir>(
    alloc: Global,
    link: &mut L,
    dir: &mut D,
    key: &[u8; 64],
) -> Result<(), MetaError>
    requires active { IsActive (D.shown dir.old).local }
    requires alone { HasNoPodOpen (D.shown dir.old).local }
    ensures kept { (L.shown link.old).faults ≤ (L.shown link.new).faults }
    ensures only { OnlyAsksFor D.observed looks_in_run (D.shown dir.old) (D.shown dir.new) }
    ensures link_cause { IsErrOf result MetaError.LinkFault → Rose (L.shown link.old).faults (L.shown link.new).faults }
    ensures dir_cause { IsErrOf result MetaError.DirFault → Rose (D.shown dir.old).faults (D.shown dir.new).faults }
    ensures serves { OnOk result (L.observed ≡ true → D.observed ≡ true
        → Serves key.now (L.shown link.old) (L.shown link.new) (D.shown dir.old) (D.shown dir.new)) }
    ensures part { L.observed ≡ true → D.observed ≡ true
        → ServesAtMost key.now (L.shown link.old) (L.shown link.new) (D.shown dir.old) (D.shown dir.new) }
{
    let text = match next_reply(alloc, link, dir, key) {
        Ok(text) => text,
        Err(error) => return Err(error),
    };
    match write_whole(alloc, link, text.as_str().as_bytes()) {
        Ok(()) => Ok(()),
        Err(error) => Err(link_fault(error)),
    }
}
