// The programs that were started.
ghost use Rattle.std.specs.Prelude.{◌≡◌, ◌<◌, ◌≤◌, ◌+◌, ◌++◌, ◌∷◌, [], true, length, vec_len, vec_capacity, IfOk, IfErr, OnOk, OnErr};
ghost use Rattle.host_spawner.specs.Children.{code_of, IsAdded, ChildHasEnded, AreOthersSame};
ghost use Rattle.host_spawner.specs.Facts.{start_of, starts};

use crate::refusals::{refusal, short};
use crate::system::System;
use spawner::{Child, SpawnError};
use std::process;
use std::process::{Command, ExitStatus, OpenProcess};

/// Adds a child for which there is room.
fn push_within<P: OpenProcess + Drop>(
    children: &mut Vec<process::Child<P>>,
    started: process::Child<P>,
)
    requires { vec_len children.old < vec_capacity children.old }
    ensures { children.new.items ≡ children.old.items ++ started ∷ [] }
{
    match children.push(started) {
        Ok(()) => (),
        Err(_) => unreachable!(),
    }
}

/// Starts a program. There is room for the child before it is started, so that none is started and
/// forgotten. Children are numbered in the order of their starts.
pub fn start_child<S: System>(
    system: &mut S,
    children: &mut Vec<process::Child<S::Process>>,
    command: Command,
) -> Result<Child, SpawnError>
    ensures kept { IfOk result (λ child. IsAdded children.old.items child.number children.new.items) }
    ensures started { OnOk result (S.observed ≡ true → S.facts system.new ≡ S.facts system.old ++ starts (start_of command) ∷ []) }
    ensures none { OnErr result (children.new.items ≡ children.old.items) }
    ensures nothing { OnErr result (S.observed ≡ true → S.facts system.new ≡ S.facts system.old) }
{
    let Ok(number) = u32::try_from(children.len()) else {
        return Err(SpawnError::NoMemory);
    };
    children.reserve(1).map_err(short)?;
    match system.start(command) {
        Ok(started) => {
            push_within(children, started);
            Ok(Child { number })
        }
        Err(error) => Err(refusal(error)),
    }
}

/// The status of a child that has ended: 255 where it ended without a code.
fn status_of(status: ExitStatus) -> u8
    ensures { result ≡ code_of status }
{
    match status.code() {
        Some(code) => u8::try_from(code).unwrap_or(255),
        None => 255,
    }
}

/// Waits until a child has ended. Fails where there is no such child.
pub fn wait_for<P: OpenProcess>(
    children: &mut Vec<process::Child<P>>,
    child: Child,
) -> Result<u8, SpawnError>
    ensures ended { IfOk result (λ status. ChildHasEnded children.new.items child.number status) }
    ensures others { AreOthersSame child.number children.old.items children.new.items }
    ensures kept { vec_len children.new ≡ vec_len children.old }
{
    let Some(started) = children.get_mut(child.number as usize) else {
        return Err(SpawnError::Failed);
    };
    match started.wait() {
        Ok(status) => Ok(status_of(status)),
        Err(error) => Err(refusal(error)),
    }
}
