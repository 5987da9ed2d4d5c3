// Replies.
ghost use Rattle.std.specs.Prelude.{◌≡◌, None, Some, [], IfOk};
ghost use Rattle.metadata_reply.specs.Answers.{refused, not_allowed, found};

use ac_types::{NoMemory, Text};
use std::alloc::Global;

/// The method that a resource wants.
#[derive(Clone, Copy, Debug, PartialEq, Eq)]
pub enum Allow {
    Get,
    Post,
}

/// What a body is.
#[derive(Clone, Copy, Debug, PartialEq, Eq)]
pub enum Media {
    Json,
    Plain,
}

/// A reply. Only a 405 names a method, and only a 200 has a media type.
#[derive(Drop)]
pub struct Reply {
    pub status: u16,
    pub allow: Option<Allow>,
    pub media: Option<Media>,
    pub body: Text,
}

impl Reply {
    /// A reply with no body.
    pub fn refused(alloc: Global, status: u16) -> Reply
        ensures { result ≡ refused status }
    {
        Reply {
            status,
            allow: None,
            media: None,
            body: Text::from_string(String::new(alloc)),
        }
    }

    /// The method isn't that of the resource.
    pub fn not_allowed(alloc: Global, method: Allow) -> Reply
        ensures { result ≡ not_allowed method }
    {
        Reply {
            status: 405,
            allow: Some(method),
            media: None,
            body: Text::from_string(String::new(alloc)),
        }
    }

    /// An equal reply. `NoMemory` where memory ran out.
    pub fn copy(&self) -> Result<Reply, NoMemory>
        ensures { IfOk result (λ copy. copy ≡ self.now) }
    {
        Ok(Reply {
            status: self.status,
            allow: self.allow,
            media: self.media,
            body: self.body.copy()?,
        })
    }

    /// What was asked for.
    pub fn found(media: Media, body: Text) -> Reply
        ensures { result ≡ found media body }
    {
        Reply {
            status: 200,
            allow: None,
            media: Some(media),
            body,
        }
    }
}
