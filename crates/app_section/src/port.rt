//! Ranges of ports.
ghost use Rattle.std.specs.Prelude.{◌≡◌, ◌+◌, nat_le, IfOk};
ghost use Rattle.serde_json.specs.View.{view};
ghost use Rattle.ac_types.specs.Outcomes.{Answers, Gives};
ghost use Rattle.app_section.specs.PortForm.{count_field, port_fields};

use ac_types::{
    AcName, FaultKind, FromElement, NamedElement, NoMemory, ReadError, Sequence, Text, TryCopy,
    fault_at, filled_text, flag_field, object_value, required_name, required_port, whole_field,
};
use serde_json::Value;
use std::alloc::Global;

/// Ports on which an app listens: `count` of them from `port` on.
#[derive(Drop)]
pub struct Port {
    pub name: AcName,
    pub protocol: Text,
    pub port: u16,
    /// One at least.
    pub count: u16,
    pub socket_activated: bool,
}

/// A list of port ranges. Contracts see its elements.
pub type Ports = Sequence<Port>;

impl Port {
    /// An equal port.
    pub fn copy(&self) -> Result<Port, NoMemory>
        ensures { IfOk result (λ copy. copy ≡ self.now) }
    {
        Ok(Port {
            name: self.name.copy()?,
            protocol: self.protocol.copy()?,
            port: self.port,
            count: self.count,
            socket_activated: self.socket_activated,
        })
    }
}

impl TryCopy for Port {
    fn try_copy(&self) -> Result<Port, NoMemory> {
        self.copy()
    }
}

impl FromElement for Port {
    ghost use Rattle.app_section.specs.declared.port.Port.{Port};
    ghost use Rattle.app_section.specs.PortForm.{port_range};

    ghost Shown = { Port };

    ghost shown = { λ p. p };

    ghost form = { port_range };

    ghost name_of = { λ p. p.name };

    #[tactic(auto, unfolding(crate::specs::PortForm::port_range))]
    fn read(alloc: Global, value: &Value, at: &str) -> Result<Port, ReadError> {
        let found = read_fields(alloc, value, at)?;
        if !ends_within(found.port, found.count) {
            return Err(fault_at(alloc, at, FaultKind::PortRange));
        }
        Ok(found)
    }
}

impl NamedElement for Port {
    fn name(&self) -> &str {
        self.name.as_str()
    }
}

/// Whether the last port, `port + count - 1`, is at most 65,535.
fn ends_within(port: u16, count: u16) -> bool
    ensures { result ≡ nat_le (port + count) 65536 }
{
    u32::from(port) + u32::from(count) <= 65_536
}

#[tactic(auto, unfolding(crate::specs::PortForm::port_fields))]
fn read_fields(alloc: Global, value: &Value, at: &str) -> Result<Port, ReadError>
    ensures { Answers (λ p. p) (port_fields at.now (view value.now)) result }
{
    object_value(alloc, value, at)?;
    let name = required_name(alloc, value, at, "name")?;
    let protocol = filled_text(alloc, value, at, "protocol")?;
    let port = required_port(alloc, value, at, "port")?;
    let count = port_count(alloc, value, at)?;
    let socket_activated = flag_field(alloc, value, at, "socketActivated")?;
    Ok(Port {
        name,
        protocol: Text::of(alloc, protocol)?,
        port,
        count,
        socket_activated,
    })
}

/// How many ports a range has: one where the field is absent or 0.
fn port_count(alloc: Global, value: &Value, at: &str) -> Result<u16, ReadError>
    ensures { Gives (count_field at.now (view value.now)) result }
{
    match whole_field(alloc, value, at, "count", 65_535) {
        Ok(Some(number)) => Ok((number as u16).max(1)),
        Ok(None) => Ok(1),
        Err(error) => Err(error),
    }
}
