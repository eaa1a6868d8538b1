// A record and a target that has it: `{}` writes its text, and fails where no bytes of the target decode to the record.
ghost use Rattle.std.specs.Prelude.{Some};
ghost use Rattle.manual.specs.Text.{text_of};

use super::write_text;
use avr::{Instruction, Target};
use std::fmt;

#[derive(Debug, Clone, Copy, PartialEq, Eq)]
pub struct Shown {
    pub instruction: Instruction,
    pub target: Target,
}

impl fmt::Display for Shown {
    ghost output = { λ s. Some (text_of s.instruction) };

    #[tactic(auto, using(crate::proofs::TextShown::showing))]
    fn fmt<W: fmt::Write>(&self, f: &mut fmt::Formatter<W>) -> fmt::Result {
        let mut text = [0u8; 23];
        let Ok(n) = write_text(self.instruction, self.target, &mut text) else {
            return Err(fmt::Error);
        };
        match str::from_utf8(&text[..n]) {
            Ok(shown) => f.write_str(shown),
            Err(_) => Err(fmt::Error),
        }
    }
}
