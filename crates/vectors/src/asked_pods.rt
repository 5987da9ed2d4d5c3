// What a pod is to be made of, as a text.
use manifests::{Mount, Volume, VolumeKind};
use rkt_words::Asked;
use scripts::Page;
use spawner::Words;

fn print_kind(page: &mut Page, kind: &VolumeKind) {
    match kind {
        VolumeKind::Host { source, read_only } => {
            page.put(if *read_only { " ro " } else { " rw " });
            page.put(source.as_str());
        }
        VolumeKind::Empty { mode, .. } => page.put_all(&[" empty ", mode.as_str()]),
    }
}

fn print_volumes(page: &mut Page, volumes: &[Volume]) {
    for volume in volumes {
        page.put_all(&[" volume ", volume.name.as_str()]);
        print_kind(page, &volume.kind);
    }
}

fn print_mounts(page: &mut Page, mounts: &[Mount]) {
    for mount in mounts {
        page.put_all(&[" mount ", mount.volume.as_str(), " ", mount.path.as_str()]);
    }
}

fn print_images(page: &mut Page, images: &Words) {
    for place in 0..images.len() {
        page.put(" image ");
        page.put(images.get(place).unwrap_or(""));
    }
}

/// ` volume NAME rw|ro PLACE` or ` volume NAME empty MODE` for each volume, ` mount NAME PLACE` for each
/// mount, and ` image WORD` for each image.
pub fn print_asked(page: &mut Page, asked: &Asked) {
    print_volumes(page, asked.volumes.as_slice());
    print_mounts(page, asked.mounts.as_slice());
    print_images(page, &asked.images);
}
