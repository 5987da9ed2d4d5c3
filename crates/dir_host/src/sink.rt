// A stream of the host is a `Sink`.
ghost use Rattle.std.specs.Prelude.{◌≡◌, ◌≤◌, ◌<◌, length, IfOk, IfErr};
ghost use Rattle.std.specs.IoError.{error_kind};
ghost use Rattle.std.specs.Io.KnownBytes.{WriteAppends};
ghost use Rattle.dir_model.specs.Causes.{Rose};
ghost use Rattle.host_files.specs.Refusals.{sink_error};
ghost use Rattle.dir_host.specs.Counts.{CountsRefusal};

use dir_trait::{Sink, SinkError};
use std::alloc::Global;
use std::io;
use std::io::{ErrorKind, Write};

/// Standard output or standard error, or another writer. Each write that fails is counted once, and
/// each for which memory is short by a count of its own.
#[derive(Drop)]
pub struct HostSink<W: Write + Drop> {
    writer: W,
    faults: u64,
    shortages: u64,
}

impl<W: Write + Drop> HostSink<W> {
    /// A sink that writes here, and hasn't refused.
    pub fn new(writer: W) -> HostSink<W>
        ensures faults { (⟦<HostSink<W> as Sink>⟧.shown result).faults ≡ 0 }
        ensures shortages { (⟦<HostSink<W> as Sink>⟧.shown result).shortages ≡ 0 }
    {
        HostSink {
            writer,
            faults: 0,
            shortages: 0,
        }
    }
}

/// Writes a part of the piece, and asks again where a signal came between.
fn write_part<W: Write>(writer: &mut W, piece: &[u8]) -> io::Result<usize>
    ensures most { IfOk result (λ n. n ≤ length piece.now) }
    ensures bytes { WriteAppends (W.contents writer.old) (W.contents writer.new) result piece.now }
{
    'tries: for _ in 0..u64::MAX {
        match writer.write(piece) {
            Ok(count) => return Ok(count),
            Err(error) if error.kind() == ErrorKind::Interrupted => {}
            Err(error) => return Err(error),
        }
    }
    Err(io::Error::from(ErrorKind::Interrupted))
}

/// What a write that failed means.
fn sink_error(error: io::Error) -> SinkError
    ensures { result ≡ sink_error (error_kind error) }
{
    match error.kind() {
        ErrorKind::OutOfMemory => SinkError::NoMemory,
        _ => SinkError::Failed,
    }
}

/// What the answer to a write means: a stream that takes nothing is full.
fn count_of(answer: io::Result<usize>) -> Result<usize, SinkError>
    ensures full { answer ≡ Ok 0 → result ≡ Err SinkError.Failed }
    ensures some { IfOk answer (λ n. 0 < n → result ≡ Ok n) }
    ensures refused { IfErr answer (λ e. result ≡ Err (sink_error (error_kind e))) }
{
    match answer {
        Ok(0) => Err(SinkError::Failed),
        Ok(count) => Ok(count),
        Err(error) => Err(sink_error(error)),
    }
}

/// How many bytes were written, at least 1, or why none was.
fn written<W: Write>(writer: &mut W, piece: &[u8]) -> Result<usize, SinkError>
    ensures most { IfOk result (λ n. n ≤ length piece.now) }
    ensures some { IfOk result (λ n. 0 < n) }
    ensures bytes { WriteAppends (W.contents writer.old) (W.contents writer.new) result piece.now }
{
    count_of(write_part(writer, piece))
}

/// Counts a failure or a want of memory, and hands the refusal on.
fn counted(faults: &mut u64, shortages: &mut u64, error: SinkError) -> SinkError
    ensures same { result ≡ error }
    ensures kept_faults { faults.old ≤ faults.new }
    ensures kept_shortages { shortages.old ≤ shortages.new }
    ensures cause { result ≡ SinkError.Failed → Rose faults.old faults.new }
    ensures shortage { result ≡ SinkError.NoMemory → Rose shortages.old shortages.new }
    ensures counts { CountsRefusal SinkError.Failed result faults.old faults.new }
    ensures counts_shortages { CountsRefusal SinkError.NoMemory result shortages.old shortages.new }
{
    match error {
        SinkError::Failed => *faults = faults.saturating_add(1),
        SinkError::NoMemory => *shortages = shortages.saturating_add(1),
    }
    error
}

impl<W: Write + Drop> Sink for HostSink<W> {
    ghost use Rattle.std.specs.Prelude.{◌≡◌, ◌<◌, ◌≤◌, length, false, [], IfOk, IsErrOf};
    ghost use Rattle.std.specs.Io.KnownBytes.{WriteAppends};
    ghost use Rattle.dir_model.specs.Causes.{Rose};
    ghost use Rattle.dir_host.specs.Counts.{Counts};

    ghost observed = { false };

    ghost shown = { λ s. record { bytes = []; faults = s.faults; shortages = s.shortages } };

    fn faults(&self) -> u64 {
        self.faults
    }

    fn write(&mut self, _alloc: Global, piece: &[u8]) -> Result<usize, SinkError>
        ensures faults { self.old.faults ≤ self.new.faults }
        ensures shortages { self.old.shortages ≤ self.new.shortages }
        ensures cause { IsErrOf result SinkError.Failed → Rose self.old.faults self.new.faults }
        ensures shortage { IsErrOf result SinkError.NoMemory → Rose self.old.shortages self.new.shortages }
        ensures counts { Counts SinkError.Failed result self.old.faults self.new.faults }
        ensures counts_shortages { Counts SinkError.NoMemory result self.old.shortages self.new.shortages }
        ensures most { IfOk result (λ n. n ≤ length piece.now) }
        ensures some { IfOk result (λ n. 0 < length piece.now → 0 < n) }
        ensures bytes { WriteAppends (W.contents self.old.writer) (W.contents self.new.writer) result piece.now }
    {
        if piece.is_empty() {
            return Ok(0);
        }
        match written(&mut self.writer, piece) {
            Ok(count) => Ok(count),
            Err(error) => Err(counted(&mut self.faults, &mut self.shortages, error)),
        }
    }
}
