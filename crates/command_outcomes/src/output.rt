// What a command prints.
ghost use Rattle.std.specs.Prelude.{◌≡◌, ◌++◌, [], IfOk, OnOk};
ghost use Rattle.std.specs.Fmt.{decimal};
ghost use Rattle.command_outcomes.specs.Texts.{shown, shown_byte};

use percent_encoding::percent_encode_byte;
use std::alloc::{AllocError, Global};
use std::marker::Model;

/// The text that a command prints. Contracts see its bytes.
#[derive(Drop)]
pub struct Output {
    text: Vec<u8>,
}

impl Model for Output {
    ghost use Rattle.std.specs.Prelude.{List, ℕ};

    ghost Value = { List ℕ };

    ghost view = { λ o. o.text.items };
}

impl Output {
    /// The empty text. Takes no memory.
    pub fn new(alloc: Global) -> Output
        ensures { result ≡ [] }
    {
        Output {
            text: Vec::new(alloc),
        }
    }

    /// The text of one piece. Refused only where memory ran out.
    pub fn of(alloc: Global, piece: &str) -> Result<Output, AllocError>
        ensures { IfOk result (λ o. o ≡ piece.now) }
    {
        let mut output = Output::new(alloc);
        output.push(piece)?;
        Ok(output)
    }

    /// Appends a piece. Refused only where memory ran out.
    pub fn push(&mut self, piece: &str) -> Result<(), AllocError>
        ensures { OnOk result (self.new ≡ self.old ++ piece.now) }
    {
        self.text.extend_from_slice(piece.as_bytes())?;
        Ok(())
    }

    /// Appends a path as a message shows it: no byte of it ends the line. Refused only where memory ran out.
    #[tactic(auto, unfolding(crate::specs::Texts::shown))]
    pub fn push_shown(&mut self, path: &str) -> Result<(), AllocError>
        ensures { OnOk result (self.new ≡ self.old ++ shown path.now) }
    {
        for byte in path.as_bytes() {
            push_shown_byte(&mut self.text, *byte)?;
        }
        Ok(())
    }

    /// Appends a text. Refused only where memory ran out.
    pub fn append(&mut self, text: &Output) -> Result<(), AllocError>
        ensures { OnOk result (self.new ≡ self.old ++ text.now) }
    {
        self.text.extend_from_slice(text.as_slice())?;
        Ok(())
    }

    /// Appends a number in decimal. Refused only where memory ran out.
    pub fn push_number(&mut self, alloc: Global, number: u64) -> Result<(), AllocError>
        ensures { OnOk result (self.new ≡ self.old ++ decimal number) }
    {
        let digits = format!(in alloc; "{number}")?;
        self.push(digits.as_str())
    }

    /// The text's bytes.
    pub fn as_slice(&self) -> &[u8]
        ensures { result.now ≡ self.now }
    {
        self.text.as_slice()
    }
}

fn push_shown_byte(text: &mut Vec<u8>, byte: u8) -> Result<(), AllocError>
    ensures { OnOk result (text.new.items ≡ text.old.items ++ shown_byte byte) }
{
    if byte.is_ascii_control() {
        text.extend_from_slice(percent_encode_byte(byte).as_bytes())?;
    } else {
        text.push(byte)?;
    }
    Ok(())
}
