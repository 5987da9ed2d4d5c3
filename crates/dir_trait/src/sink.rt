// Where a command's text goes, in pieces.
ghost use Rattle.std.specs.Prelude.{◌≡◌, ◌<◌, ◌≤◌, ◌++◌, Bool, true, length, take, IfOk, IfErr, OnOk, IsErrOf};
ghost use Rattle.dir_model.specs.Causes.{Rose};
ghost use Rattle.dir_trait.specs.Sinks.{WritesPart};

use std::alloc::Global;

/// Why a sink took nothing.
#[derive(Clone, Copy, Debug, PartialEq, Eq)]
pub enum SinkError {
    /// The sink failed.
    Failed,
    /// Memory ran out.
    NoMemory,
}

/// What takes a command's text.
pub trait Sink {
    ghost use Rattle.dir_trait.specs.Sinks.{SinkAt};

    /// Whether its bytes are observed.
    ghost observed: { Bool };

    /// What it shows at a moment: how often it refused, and all that was written where that is observed.
    ghost shown: { Self → SinkAt };

    /// How often the sink failed so far. The count never falls.
    fn faults(&self) -> u64
        ensures { result ≡ (shown self.now).faults };

    /// Writes the piece from its start, and answers how many of its bytes: at least 1 of a piece
    /// that isn't empty, and never more than the piece has. `NoMemory` is counted as `Failed` is, by a
    /// count of its own.
    fn write(&mut self, alloc: Global, piece: &[u8]) -> Result<usize, SinkError>
        ensures faults { (shown self.old).faults ≤ (shown self.new).faults }
        ensures shortages { (shown self.old).shortages ≤ (shown self.new).shortages }
        ensures cause { IsErrOf result SinkError.Failed → Rose (shown self.old).faults (shown self.new).faults }
        ensures shortage { IsErrOf result SinkError.NoMemory → Rose (shown self.old).shortages (shown self.new).shortages }
        ensures most { IfOk result (λ n. n ≤ length piece.now) }
        ensures some { IfOk result (λ n. 0 < length piece.now → 0 < n) }
        ensures written { IfOk result (λ n. observed ≡ true → (shown self.new).bytes ≡ (shown self.old).bytes ++ take n piece.now) }
        ensures unwritten { IfErr result (λ e. observed ≡ true → (shown self.new).bytes ≡ (shown self.old).bytes) };
}

/// Writes the whole text. Where the sink refuses a piece, what came before it was written, and
/// the refusal is the answer.
pub fn write_whole<S: Sink>(alloc: Global, sink: &mut S, text: &[u8]) -> Result<(), SinkError>
    ensures faults { (S.shown sink.old).faults ≤ (S.shown sink.new).faults }
    ensures shortages { (S.shown sink.old).shortages ≤ (S.shown sink.new).shortages }
    ensures cause { IsErrOf result SinkError.Failed → Rose (S.shown sink.old).faults (S.shown sink.new).faults }
    ensures shortage { IsErrOf result SinkError.NoMemory → Rose (S.shown sink.old).shortages (S.shown sink.new).shortages }
    ensures whole { OnOk result (S.observed ≡ true → (S.shown sink.new).bytes ≡ (S.shown sink.old).bytes ++ text.now) }
    ensures part { S.observed ≡ true → WritesPart (S.shown sink.old).bytes text.now (S.shown sink.new).bytes }
{
    let mut at = 0;
    'pieces: while at < text.len() {
        let count = sink.write(alloc, &text[at..])?;
        at += count;
    }
    Ok(())
}
