//! Event handlers.
ghost use Rattle.std.specs.Prelude.{◌≡◌, IfOk};
ghost use Rattle.app_section.specs.HandlerForm.{kind_name, kind_of};

use crate::exec::required_exec;
use ac_types::{
    FaultKind, FromElement, NamedElement, NoMemory, ReadError, Sequence, Texts, TryCopy,
    field_fault, filled_text, object_value,
};
use serde_json::Value;
use std::alloc::Global;

/// When a handler runs: before the app, or after it.
#[derive(Clone, Copy, Debug, PartialEq, Eq)]
pub enum HandlerKind {
    PreStart,
    PostStop,
}

impl HandlerKind {
    /// The name by which manifests have it.
    pub fn name(self) -> &'static str
        ensures { result.now ≡ kind_name self }
    {
        match self {
            HandlerKind::PreStart => "pre-start",
            HandlerKind::PostStop => "post-stop",
        }
    }

    /// The kind of that name.
    pub fn of_name(name: &str) -> Option<HandlerKind>
        ensures { result ≡ kind_of name.now }
    {
        if name == "pre-start" {
            return Some(HandlerKind::PreStart);
        }
        if name == "post-stop" {
            return Some(HandlerKind::PostStop);
        }
        None
    }
}

/// What runs before or after an app.
#[derive(Drop)]
pub struct Handler {
    pub kind: HandlerKind,
    /// A program word and its arguments.
    pub exec: Texts,
}

/// A list of event handlers. Contracts see its elements.
pub type Handlers = Sequence<Handler>;

impl Handler {
    /// An equal handler.
    pub fn copy(&self) -> Result<Handler, NoMemory>
        ensures { IfOk result (λ copy. copy ≡ self.now) }
    {
        Ok(Handler {
            kind: self.kind,
            exec: self.exec.copy()?,
        })
    }
}

impl TryCopy for Handler {
    fn try_copy(&self) -> Result<Handler, NoMemory> {
        self.copy()
    }
}

impl FromElement for Handler {
    ghost use Rattle.app_section.specs.declared.handler.Handler.{Handler};
    ghost use Rattle.app_section.specs.HandlerForm.{handler, kind_name};

    ghost Shown = { Handler };

    ghost shown = { λ h. h };

    ghost form = { handler };

    ghost name_of = { λ h. kind_name h.kind };

    #[tactic(auto, unfolding(crate::specs::HandlerForm::handler))]
    fn read(alloc: Global, value: &Value, at: &str) -> Result<Handler, ReadError> {
        object_value(alloc, value, at)?;
        let name = filled_text(alloc, value, at, "name")?;
        let exec = required_exec(alloc, value, at)?;
        match HandlerKind::of_name(name) {
            Some(kind) => Ok(Handler { kind, exec }),
            None => Err(field_fault(alloc, at, "name", FaultKind::BadHandler)),
        }
    }
}

impl NamedElement for Handler {
    fn name(&self) -> &str {
        self.kind.name()
    }
}
