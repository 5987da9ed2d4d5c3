// A request that was read.
ghost use Rattle.std.specs.Prelude.{◌≡◌, IfOk};

use ac_types::{NoMemory, Text};

/// The body of a request.
#[derive(Drop)]
pub enum Body {
    /// The request has none: only a POST has one.
    Absent,
    /// It isn't as long as was stated, or no length was, or it is no text.
    Bad,
    /// The text of the body.
    Got(Text),
}

impl Body {
    /// An equal body. `NoMemory` where memory ran out.
    pub fn copy(&self) -> Result<Body, NoMemory>
        ensures { IfOk result (λ copy. copy ≡ self.now) }
    {
        match self {
            Body::Absent => Ok(Body::Absent),
            Body::Bad => Ok(Body::Bad),
            Body::Got(text) => Ok(Body::Got(text.copy()?)),
        }
    }
}

/// A request that was read.
#[derive(Drop)]
pub struct Request {
    pub method: Text,
    pub target: Text,
    /// Whether it says that it is for an App Container.
    pub flavor: bool,
    pub body: Body,
}

impl Request {
    /// An equal request. `NoMemory` where memory ran out.
    pub fn copy(&self) -> Result<Request, NoMemory>
        ensures { IfOk result (λ copy. copy ≡ self.now) }
    {
        let method = self.method.copy()?;
        let target = self.target.copy()?;
        Ok(Request {
            method,
            target,
            flavor: self.flavor,
            body: self.body.copy()?,
        })
    }
}
