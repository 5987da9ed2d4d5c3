// Bytes as hexadecimal digits.
use scripts::{Page, Unread};

/// The bytes that digits stand for. Refused where they aren't digits, two a byte.
pub fn bytes_of(page: &mut Page, digits: &str) -> Vec<u8> {
    match hex::decode(page.alloc(), digits.as_bytes()) {
        Ok(bytes) => bytes,
        Err(_) => {
            page.unread(Unread::Text);
            Vec::new(page.alloc())
        }
    }
}

/// The 16 bytes that digits stand for. Refused for any other number of digits.
pub fn sixteen_of(page: &mut Page, digits: &str) -> [u8; 16] {
    let mut bytes = [0; 16];
    if hex::decode_to_slice(digits.as_bytes(), &mut bytes).is_err() {
        page.unread(Unread::Text);
    }
    bytes
}

/// The 64 bytes that digits stand for. Refused for any other number of digits.
pub fn sixty_four_of(page: &mut Page, digits: &str) -> [u8; 64] {
    let mut bytes = [0; 64];
    if hex::decode_to_slice(digits.as_bytes(), &mut bytes).is_err() {
        page.unread(Unread::Text);
    }
    bytes
}
