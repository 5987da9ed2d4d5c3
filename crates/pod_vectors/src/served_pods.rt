// Pods that run, as a script says them.
use crate::digits::{sixteen_of, sixty_four_of};
use ac_types::Sequence;
use manifests::read_pod;
use metadata_reply::{ImageBytes, ImagesBytes, PodView};
use scripts::{Page, Unread, pod_of};
use short_texts::TextNames;

/// A pod that runs, its token, and the key of the service.
#[derive(Drop)]
pub struct ServedPod {
    pub token: [u8; 16],
    pub key: [u8; 64],
    pub view: PodView,
}

fn images_of(page: &mut Page, texts: &[String]) -> ImagesBytes {
    let mut images = Vec::new(page.alloc());
    for text in texts {
        let bytes = page.bytes(text.as_str().as_bytes());
        page.push(&mut images, ImageBytes { bytes });
    }
    Sequence::from_vec(images)
}

// The pod of a uuid, of its manifest, and of the manifest of each app's image.
fn view_of(page: &mut Page, uuid: &str, manifest: &str, images: &[String]) -> Option<PodView> {
    let pod = pod_of(page, uuid);
    match read_pod(page.alloc(), manifest.as_bytes()) {
        Ok(manifest) => {
            let images = images_of(page, images);
            Some(PodView::of(pod, manifest, images))
        }
        Err(_) => {
            page.unread(Unread::Text);
            None
        }
    }
}

/// The pod of a line: its token and the service's key in hexadecimal digits, its uuid, its manifest, and the
/// manifest of each app's image. Refused where the line says no such pod.
pub fn served_pod(page: &mut Page, names: &TextNames, line: &str) -> Option<ServedPod> {
    let words = names.words_of(page, line);
    let [token, key, uuid, manifest, images @ ..] = words.as_slice() else {
        page.unread(Unread::Missing);
        return None;
    };
    let token = sixteen_of(page, token.as_str());
    let key = sixty_four_of(page, key.as_str());
    let view = view_of(page, uuid.as_str(), manifest.as_str(), images)?;
    Some(ServedPod { token, key, view })
}
