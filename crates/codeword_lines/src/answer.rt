// What a line is answered, and how that is written.
ghost use Rattle.std.specs.Prelude.{◌≡◌, IfOk, Some, string_bytes};
ghost use Rattle.codeword_lines.specs.Texts.{answer_text};

use crate::request::Kind;
use hexadecimal::Hex;
use outer_code::CodeFault;
use std::alloc::{AllocError, Global};
use std::fmt;

// A codeword, why there is none of the kind that was asked for, or that the line is no request.
// An enum of its own, since all three are printed, and a `Result` has no `Display`.
#[derive(PartialEq, Eq, Debug, Drop)]
pub enum Answer {
    Word(Vec<u8>),
    Refusal { kind: Kind, fault: CodeFault },
    Unknown,
}

impl fmt::Display for Answer {
    ghost output = { λ a. Some (answer_text a) };

    fn fmt<W: fmt::Write>(&self, f: &mut fmt::Formatter<W>) -> fmt::Result {
        match self {
            Answer::Word(bytes) => Hex(bytes.as_slice()).fmt(f),
            Answer::Refusal { kind, fault } => {
                let number = kind.refusal_number(*fault);
                write!(f, "REFUSED {number}")
            }
            Answer::Unknown => write!(f, "?"),
        }
    }
}

impl Answer {
    // The line that an answer is written as, without its end.
    pub fn text(&self, heap: Global) -> Result<String, AllocError>
        ensures { IfOk result (λ s. string_bytes s ≡ answer_text self.now) }
    {
        self.to_string(heap)
    }
}
