// Signatures of content under a uuid.
use crate::digits::{bytes_of, sixteen_of};
use hmac_sign::{sign, verify};
use scripts::{Page, Unread};

/// The signature: of a key, a uuid and a content, each in hexadecimal digits.
pub fn sign_answer(page: &mut Page, words: &[String]) {
    let [key, uuid, content] = words else {
        return page.unread(Unread::Missing);
    };
    let uuid = sixteen_of(page, uuid.as_str());
    let key = bytes_of(page, key.as_str());
    let content = bytes_of(page, content.as_str());
    let signature = sign(&key, &uuid, &content);
    for byte in signature.as_slice() {
        page.put_byte(*byte);
    }
}

/// Whether a signature is that of a key, a uuid and a content.
pub fn verify_answer(page: &mut Page, words: &[String]) {
    let [key, uuid, content, signature] = words else {
        return page.unread(Unread::Missing);
    };
    let uuid = sixteen_of(page, uuid.as_str());
    let key = bytes_of(page, key.as_str());
    let content = bytes_of(page, content.as_str());
    let signature = bytes_of(page, signature.as_str());
    let is_signed = verify(&key, &uuid, &content, &signature);
    page.put(if is_signed { "yes" } else { "no" });
}
