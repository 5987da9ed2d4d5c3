// The phase of a pod by where it stands.
use dir_trait::phase_of;
use scripts::{Page, Unread, area_of, phase_text};

/// `phase AREA owned`, `phase AREA free`: the phase of a pod there whose lock is held exclusively, or isn't.
pub fn phase_answer(page: &mut Page, words: &[String]) {
    let [area, lock] = words else {
        return page.unread(Unread::Missing);
    };
    let owned = match lock.as_str() {
        "owned" => true,
        "free" => false,
        _ => return page.unread(Unread::Line),
    };
    let area = area_of(page, area.as_str());
    page.put(phase_text(phase_of(area, owned)));
}
