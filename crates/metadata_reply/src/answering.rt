// The reply to a request that was read.
ghost use Rattle.std.specs.Prelude.{◌≡◌, ℕ, map, option_map, IfOk, IfSome, MatchOption};
ghost use Rattle.std.specs.Str.{bytes_eq};
ghost use Rattle.serde_json.specs.Written.{compact_text};
ghost use Rattle.ac_types.specs.Ids.{id_text};
ghost use Rattle.dir_model.specs.Pods.{pod_text};
ghost use Rattle.manifests.specs.PodData.{pod_data, runtime_app_data};
ghost use Rattle.manifests.specs.PodObject.{pod_object};
ghost use Rattle.metadata_request.specs.declared.request.Body.TheVariants.{Got};
ghost use Rattle.metadata_reply.specs.Annotations.{annotations_text};
ghost use Rattle.metadata_reply.specs.Answers.{found, method_text, app_annotations, reply_at, asked, answer_of, ViewHasApp, LacksApp};
ghost use Rattle.metadata_reply.specs.Resources.{lookup, table};
ghost use Rattle.metadata_reply.specs.Views.{view_data, IsWholeView, HasReading};

use crate::annotations::{annotations_text, merge};
use crate::lookup::resource_at;
use crate::reply::{Allow, Media, Reply};
use crate::resource::Resource;
use crate::signing::{sign_reply, verify_reply};
use crate::target::{path_of, token_of};
use crate::view::{ImageBytes, PodView};
use ac_types::{NoMemory, ReadError, Text};
use dir_model::PodId;
use manifests::{Annotation, RuntimeApp, pod_bytes, read_image};
use metadata_request::{Body, Request};
use std::alloc::Global;

/// The reply that is some text.
fn text_reply(alloc: Global, media: Media, text: &str) -> Result<Reply, NoMemory>
    ensures { IfOk result (λ reply. reply ≡ found media text.now) }
{
    Ok(Reply::found(media, Text::of(alloc, text)?))
}

/// The bytes of an image's manifest, as they are stored.
fn image_reply(alloc: Global, image: &ImageBytes) -> Result<Reply, NoMemory>
    requires { HasReading image.now.bytes }
    ensures { IfOk result (λ reply. reply ≡ found Media.Json image.now.bytes) }
{
    match str::from_utf8(image.bytes.as_slice()) {
        Ok(text) => text_reply(alloc, Media::Json, text),
        Err(_) => unreachable!(),
    }
}

/// The annotations of an app: those of its image, and then its own, merged.
fn annotations_of(
    alloc: Global,
    app: &RuntimeApp,
    image: &ImageBytes,
) -> Result<Vec<Annotation>, NoMemory>
    requires { HasReading image.now.bytes }
    ensures { IfOk result (λ list. list.items ≡ app_annotations (runtime_app_data app.now) image.now.bytes) }
{
    match read_image(alloc, image.bytes.as_slice()) {
        Ok(manifest) => merge(
            alloc,
            manifest.annotations.as_slice(),
            app.annotations.as_slice(),
        ),
        Err(ReadError::NoMemory) => Err(NoMemory),
        Err(ReadError::Bad(_)) => unreachable!(),
    }
}

/// The JSON of the annotations of an app.
fn annotations_reply(alloc: Global, app: &RuntimeApp, image: &ImageBytes) -> Result<Reply, NoMemory>
    requires { HasReading image.now.bytes }
    ensures { IfOk result (λ reply. reply ≡ found Media.Json (annotations_text (app_annotations (runtime_app_data app.now) image.now.bytes))) }
{
    let list = annotations_of(alloc, app, image)?;
    Ok(Reply::found(Media::Json, annotations_text(alloc, &list)?))
}

/// The manifest of the pod.
fn manifest_reply(alloc: Global, pod: &PodView) -> Result<Reply, NoMemory>
    ensures { IfOk result (λ reply. reply ≡ found Media.Json (compact_text (pod_object (pod_data pod.now.manifest)))) }
{
    let bytes = pod_bytes(alloc, &pod.manifest)?;
    match String::from_utf8(bytes) {
        Ok(text) => Ok(Reply::found(Media::Json, Text::from_string(text))),
        Err(_) => unreachable!(),
    }
}

/// The annotations of the pod.
fn pod_annotations_reply(alloc: Global, pod: &PodView) -> Result<Reply, NoMemory>
    ensures { IfOk result (λ reply. reply ≡ found Media.Json (annotations_text pod.now.manifest.annotations)) }
{
    let text = annotations_text(alloc, pod.manifest.annotations.as_slice())?;
    Ok(Reply::found(Media::Json, text))
}

/// The uuid of the pod.
fn uuid_reply(alloc: Global, pod: PodId) -> Result<Reply, NoMemory>
    ensures { IfOk result (λ reply. reply ≡ found Media.Plain (pod_text pod.bytes)) }
{
    let mut room = [0; 36];
    text_reply(alloc, Media::Plain, pod.text(&mut room))
}

/// The ID of an app's image.
fn id_reply(alloc: Global, app: &RuntimeApp) -> Result<Reply, NoMemory>
    ensures { IfOk result (λ reply. reply ≡ found Media.Plain (id_text app.now.image.id.bytes)) }
{
    Ok(Reply::found(Media::Plain, app.image.id.text(alloc)?))
}

/// The app at a place, with its image.
fn app_at(pod: &PodView, place: usize) -> Option<(&RuntimeApp, &ImageBytes)>
    requires { IsWholeView (view_data pod.now) }
    ensures { MatchOption result (LacksApp (view_data pod.now) place)
        (λ p. HasReading p.1.now.bytes × ViewHasApp (view_data pod.now) place (runtime_app_data p.0.now) p.1.now.bytes) }
{
    let Some(app) = pod.manifest.apps.as_slice().get(place) else {
        return None;
    };
    match pod.images.as_slice().get(place) {
        Some(image) => Some((app, image)),
        None => None,
    }
}

/// The reply to a resource that was asked for by its method.
fn reply_at(
    alloc: Global,
    resource: Resource,
    pod: &PodView,
    body: &Body,
    key: &[u8; 64],
) -> Result<Reply, NoMemory>
    requires { IsWholeView (view_data pod.now) }
    ensures { IfOk result (λ reply. reply ≡ reply_at resource (view_data pod.now) body.now key.now) }
{
    match resource {
        Resource::PodAnnotations => pod_annotations_reply(alloc, pod),
        Resource::PodManifest => manifest_reply(alloc, pod),
        Resource::PodUuid => uuid_reply(alloc, pod.pod),
        Resource::Sign => match body {
            Body::Got(form) => sign_reply(alloc, key, pod.pod.bytes(), form.as_str()),
            Body::Absent | Body::Bad => Ok(Reply::refused(alloc, 400)),
        },
        Resource::Verify => match body {
            Body::Got(form) => verify_reply(alloc, key, form.as_str()),
            Body::Absent | Body::Bad => Ok(Reply::refused(alloc, 400)),
        },
        Resource::AppAnnotations(place) => match app_at(pod, place) {
            Some((app, image)) => annotations_reply(alloc, app, image),
            None => Ok(Reply::refused(alloc, 404)),
        },
        Resource::ImageManifest(place) => match app_at(pod, place) {
            Some((_, image)) => image_reply(alloc, image),
            None => Ok(Reply::refused(alloc, 404)),
        },
        Resource::ImageId(place) => match app_at(pod, place) {
            Some((app, _)) => id_reply(alloc, app),
            None => Ok(Reply::refused(alloc, 404)),
        },
    }
}

fn is_method(method: Allow, text: &str) -> bool
    ensures { result ≡ bytes_eq text.now (method_text method) }
{
    match method {
        Allow::Get => text == "GET",
        Allow::Post => text == "POST",
    }
}

/// The reply to a request whose target names this resource, or none, of the pod.
fn asked(
    alloc: Global,
    request: &Request,
    pod: &PodView,
    key: &[u8; 64],
    resource: Option<Resource>,
) -> Result<Reply, NoMemory>
    requires { IsWholeView (view_data pod.now) }
    ensures { IfOk result (λ reply. reply ≡ asked request.now (view_data pod.now) key.now resource) }
{
    let Some(resource) = resource else {
        return Ok(Reply::refused(alloc, 404));
    };
    if !is_method(resource.method(), request.method.as_str()) {
        return Ok(Reply::not_allowed(alloc, resource.method()));
    }
    reply_at(alloc, resource, pod, &request.body, key)
}

/// The reply to a request that was read: 403 where it doesn't say that it is for an App Container; 404 where
/// its target has no token, no pod was found, or nothing stands at the path; 405 where that is asked for by
/// another method; 400 where a form is missing or unreadable; else what was asked for. The pod is the one that
/// the target's token names, or none. `NoMemory` where memory ran out.
pub fn answer(
    alloc: Global,
    request: &Request,
    pod: Option<&PodView>,
    key: &[u8; 64],
) -> Result<Reply, NoMemory>
    requires { IfSome pod (λ v. IsWholeView (view_data v.now)) }
    ensures { IfOk result (λ reply. reply ≡ answer_of request.now (option_map (λ v. view_data v.now) pod.entry) key.now) }
{
    if !request.flavor {
        return Ok(Reply::refused(alloc, 403));
    }
    let target = request.target.as_str().as_bytes();
    if token_of(target).is_none() {
        return Ok(Reply::refused(alloc, 404));
    }
    let Some(pod) = pod else {
        return Ok(Reply::refused(alloc, 404));
    };
    let resource = resource_at(path_of(target), pod.manifest.apps.as_slice());
    asked(alloc, request, pod, key, resource)
}
