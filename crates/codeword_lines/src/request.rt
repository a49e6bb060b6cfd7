// What a line asks for.
ghost use Rattle.std.specs.Prelude.{◌≡◌, ℕ, ◌<◌, ◌≤◌, min, List, ◌∷◌, ◌++◌, length, MatchOption, ◌≢◌, slice_index};
ghost use Rattle.codeword_lines.specs.Decimals.{Decimal, DecimalDigit, number_from};
ghost use Rattle.codeword_lines.specs.Requests.{Asks, name, refusal_number};
ghost use Rattle.codeword_lines.specs.declared.request.Kind.{Kind};
ghost use Rattle.codeword_lines.specs.declared.request.Task.{Task};
ghost use Rattle.hexadecimal.specs.Hex.{Hex};

use hexadecimal::HexText;
use outer_code::{CodeFault, SlotWord, TmccWord};

// The kinds of word that a line can name.
#[derive(Clone, Copy, PartialEq, Eq, Debug)]
pub enum Kind {
    Slot,
    Tmcc,
}

impl Kind {
    // The number of a refusal at a kind of word.
    pub fn refusal_number(self, fault: CodeFault) -> u8
        ensures { result ≡ refusal_number self fault }
    {
        match self {
            Kind::Slot => fault.number::<SlotWord>(),
            Kind::Tmcc => fault.number::<TmccWord>(),
        }
    }
}

// What is to be done with the bytes: coding, or correcting within a bound.
#[derive(Clone, Copy, PartialEq, Eq, Debug)]
pub enum Task {
    Encode,
    Correct(u8),
}

// A request: its bytes stand in the line, as hexadecimal digits.
#[derive(Clone, Copy)]
pub struct Request<'a> {
    pub kind: Kind,
    pub task: Task,
    pub text: HexText<'a>,
}

// The kind that a text begins with, by its name with a space on either side, and what follows it.
fn kind_of(text: &[u8]) -> Option<(Kind, &[u8])>
    ensures { MatchOption result ((k : Kind) (rest : List ℕ) → text.now ≢ name k ++ rest) (λ p. text.now ≡ name p.0 ++ p.1.now) }
{
    if let Some(rest) = text.strip_prefix(b" slot ") {
        return Some((Kind::Slot, rest));
    }
    let rest = text.strip_prefix(b" tmcc ")?;
    Some((Kind::Tmcc, rest))
}

// How many decimal digits a text begins with.
fn digits(text: &[u8]) -> usize
    ensures within { result ≤ length text.now }
    ensures before { (k : ℕ) → k < result → DecimalDigit (slice_index text.now k) }
    ensures end { result < length text.now → DecimalDigit (slice_index text.now result) → ⊥ }
{
    text.iter()
        .position(|c| !c.is_ascii_digit())
        .unwrap_or(text.len())
}

// The number that decimal digits write, or 255 where it is larger. Not by `parse`, which refuses a larger one.
fn number(digits: &[u8]) -> u8
    ensures { result ≡ min (number_from 0 digits.now) 255 }
{
    digits.iter().fold(
        0,
        |n: u8, c| n.saturating_mul(10).saturating_add(c.saturating_sub(b'0')),
    )
}

// The bound that a text begins with, and what follows the space behind it.
fn bound_of(text: &[u8]) -> Option<(u8, &[u8])>
    ensures { MatchOption result ((d rest : List ℕ) → Decimal d → text.now ≢ d ++ (32 ∷ rest)) (λ p. (d : List ℕ) × Decimal d × (text.now ≡ d ++ (32 ∷ p.1.now)) × (p.0 ≡ min (number_from 0 d) 255)) }
{
    let (digits, rest) = text.split_at(digits(text));
    if digits.is_empty() {
        return None;
    }
    let rest = rest.strip_prefix(b" ")?;
    Some((number(digits), rest))
}

// The request for a task on the bytes of a text, if the text writes bytes.
fn whole(kind: Kind, task: Task, text: &[u8]) -> Option<Request<'_>>
    ensures { MatchOption result (Hex text.now → ⊥) (λ q. (q.kind ≡ kind) × (q.task ≡ task) × (q.text.digits.now ≡ text.now) × Hex text.now) }
{
    let text = HexText::new(text)?;
    Some(Request { kind, task, text })
}

// The request that a line makes, if it makes one.
pub fn parse(line: &[u8]) -> Option<Request<'_>>
    ensures { MatchOption result ((k : Kind) (t : Task) (x : List ℕ) → Asks line.now k t x → ⊥) (λ q. Asks line.now q.kind q.task q.text.digits.now) }
{
    let (letter, rest) = line.split_first()?;
    let (kind, rest) = kind_of(rest)?;
    match *letter {
        b'E' => whole(kind, Task::Encode, rest),
        b'C' => {
            let (bound, text) = bound_of(rest)?;
            whole(kind, Task::Correct(bound), text)
        }
        _ => None,
    }
}
