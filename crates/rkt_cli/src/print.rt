// What is written, and the status.
ghost use Rattle.std.specs.Prelude.{◌≡◌, [], Ok, IfOk, IfErr};
ghost use Rattle.command_outcomes.specs.Texts.{exit_status_of};
ghost use Rattle.command_outcomes.specs.Moments.{sink_at, outcome_of, is_well};
ghost use Rattle.commands.specs.Answers.{Complained};
ghost use Rattle.rkt_cli.specs.Runs.{Printed, Reported, end_of_writing, status_at};

use command_outcomes::{Refusal, Told};
use dir_trait::{Sink, SinkError, write_whole};
use std::alloc::Global;

/// Writes the text that is told, and answers whether all went well. Of an empty text nothing is asked of the output.
pub fn print<O: Sink>(
    alloc: Global,
    out: &mut O,
    answer: Result<Told, Refusal>,
) -> Result<bool, Refusal>
    ensures printed { Printed (outcome_of answer) (sink_at O.Sink out.old) (sink_at O.Sink out.new) (end_of_writing result) }
    ensures well { IfOk result (λ well. well ≡ is_well answer) }
    ensures unwritten { IfErr answer (λ refusal. out.new ≡ out.old) }
    ensures empty { IfOk answer (λ told. told.text ≡ [] → result ≡ Ok told.well) }
{
    match answer {
        Err(refusal) => Err(refusal),
        Ok(told) if told.text.as_slice().is_empty() => Ok(told.well),
        Ok(told) => match write_whole(alloc, out, told.text.as_slice()) {
            Ok(()) => Ok(told.well),
            Err(SinkError::Failed) => Err(Refusal::OutFault),
            Err(SinkError::NoMemory) => Err(Refusal::NoMemory),
        },
    }
}

// Writes a refusal's message. One with a path, a key or a number in it is made first, so that it is one write,
// and is lost where there is no memory for that.
fn complain<E: Sink>(alloc: Global, err: &mut E, refusal: &Refusal)
    ensures { Complained refusal.now (sink_at E.Sink err.old) (sink_at E.Sink err.new) }
{
    if let Some(message) = refusal.constant_message() {
        let _ = write_whole(alloc, err, message.as_bytes());
        return;
    }
    if let Ok(message) = refusal.made_message(alloc) {
        let _ = write_whole(alloc, err, message.as_slice());
    }
}

/// Says why a command wasn't done, and gives the exit status. What becomes of the message changes no
/// status.
pub fn refuse<E: Sink>(alloc: Global, err: &mut E, refusal: &Refusal) -> u8
    ensures status { result ≡ exit_status_of refusal.now }
    ensures said { Complained refusal.now (sink_at E.Sink err.old) (sink_at E.Sink err.new) }
{
    complain(alloc, err, refusal);
    refusal.status()
}

/// Says how it ended, and gives the status: 16 where a text was written of apps of which one ended with another status
/// than 0.
pub fn report<E: Sink>(alloc: Global, err: &mut E, end: &Result<bool, Refusal>) -> u8
    ensures status { result ≡ status_at end.now }
    ensures said { Reported (end_of_writing end.now) (sink_at E.Sink err.old) (sink_at E.Sink err.new) }
{
    match end {
        Ok(true) => 0,
        Ok(false) => 16,
        Err(refusal) => refuse(alloc, err, refusal),
    }
}
