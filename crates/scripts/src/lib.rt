//! What the programs that play scripts share: the lines of a script, the short names of long texts, and
//! the words for areas, requests and replies.
#![tactic(auto)]

mod blocks;
mod line;
mod names;
mod page;
mod player;
mod refusal;
mod replies;
mod requests;
mod texts;
mod words;

pub use blocks::{block_above, says};
pub use line::{Line, number_of};
pub use names::ShortNames;
pub use page::Page;
pub use player::{Player, play_all};
pub use refusal::{Refusal, Unread};
pub use replies::{print_reply, reply_of};
pub use requests::{print_request, request_of};
pub use texts::{print_bytes, unfolded};
pub use words::{
    area_of, area_text, error_of, error_text, item_kind_of, item_kind_text, kind_of, kind_text,
    mode_of, mode_text, name_of, phase_text, pod_of, spot_of, which_of, which_text,
};
