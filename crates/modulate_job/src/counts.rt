// Where the packets come from.
ghost use Rattle.std.specs.Prelude.{◌≡◌, ℕ, List, length, MatchOption};
ghost use Rattle.modulate_job.specs.Packets.{Counts, Names};
ghost use Rattle.run_inputs.specs.declared.source.Source.{Source};
ghost use denote.Ref.{Bor};

use crate::job::Packets;
use feed::STREAMS;

// What a pattern begins with.
const PATTERN: &str = "pattern:";

// Eight counts with commas between them.
fn counts(text: &str) -> Option<[u16; STREAMS]>
    ensures { MatchOption result ((ns : List ℕ) → length ns ≡ 8 → Counts text.now ns → ⊥) (λ ns. (length ns ≡ 8) × Counts text.now ns) }
{
    let mut words = text.split(',');
    let mut counts = [0; STREAMS];
    for count in counts.iter_mut() {
        *count = words.next()?.parse().ok()?;
    }
    match words.next() {
        None => Some(counts),
        Some(_) => None,
    }
}

// The packets that a word names, unless it is a pattern without eight counts.
pub(crate) fn named(word: &str) -> Option<Packets<'_>>
    ensures { MatchOption result ((p : Source (Bor (List ℕ))) → Names word.now p → ⊥) (λ p. Names word.now p) }
{
    match word.strip_prefix(PATTERN) {
        Some(text) => Some(Packets::Pattern(counts(text)?)),
        None => Some(Packets::File(word)),
    }
}
