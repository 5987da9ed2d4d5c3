//! Names, image IDs, references, labels, and the readers of JSON fields.
#![tactic(auto)]

pub mod ac_identifier;
pub mod ac_name;
pub mod elements;
pub mod fault;
pub mod field_readers;
pub mod hex_digits;
pub mod image_id;
pub mod image_ref;
pub mod json_path;
pub mod label;
pub mod labels;
pub mod memory;
pub mod name_error;
mod ref_check;
mod ref_parts;
pub mod refusals;
pub mod required_readers;
pub mod seen_texts;
pub mod sequence;
pub mod shown_copy;
pub mod store_key;
pub mod text;
pub mod try_copy;
pub mod value_readers;
mod word_scan;

pub use ac_identifier::AcIdentifier;
pub use ac_name::AcName;
pub use elements::{FromElement, NamedElement, read_each, read_named};
pub use fault::{Fault, FaultKind, ReadError};
pub use field_readers::{
    fault_at, field, field_fault, flag_field, list_field, text_field, whole_field,
};
pub use hex_digits::lower_hex;
pub use image_id::{BadId, ImageId};
pub use image_ref::{ImageRef, RefError};
pub use json_path::{element_path, field_path, write_element_path};
pub use label::{Label, LabelFault};
pub use labels::Labels;
pub use memory::NoMemory;
pub use name_error::NameError;
pub use refusals::{BAD_ID, BAD_REF, ID_DIGITS, MAX_IDENTIFIER, MAX_NAME, MIN_DIGITS, MOST_OF_ID};
pub use required_readers::{
    filled_text, name_fault, required_field, required_identifier, required_name, required_port,
    required_text, required_whole,
};
pub use seen_texts::SeenTexts;
pub use sequence::{Sequence, Texts};
pub use shown_copy::ShownCopy;
pub use store_key::StoreKey;
pub use text::Text;
pub use try_copy::TryCopy;
pub use value_readers::{filled_value, object_value, text_value, whole_value};
