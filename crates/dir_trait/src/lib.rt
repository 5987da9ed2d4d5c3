//! The outside of the engine as traits: the shared data folder among the calls of other
//! processes, bundles of files, and where a command's text goes.
#![tactic(auto)]

mod bundle;
mod dir;
mod listing;
mod node;
mod sink;

pub use bundle::{
    Bundle, BundleAction, BundleError, BundleItem, BundleItems, BundleKind, BundleRequest,
};
pub use dir::Dir;
pub use dir_model::{
    Area, Bytes, DirError, Draw, Event, FileName, Handle, History, Holding, Inner, Intent, Item,
    ItemKind, Items, Kind, Mode, Name, Names, NoMemory, Opening, Phase, PodId, PodPrefix, Reply,
    Request, Reserved, Sequence, Spot, Start, Target, Which, phase_of,
};
pub use listing::listing_of;
pub use node::Node;
pub use sink::{Sink, SinkError, write_whole};
