// The changes that words ask for.
ghost use Rattle.std.specs.Prelude.{ℕ, map, string_bytes, MatchResult};
ghost use Rattle.modulate_job.specs.Jobs.{Numbered, AsksChange, Changes, WrongChanges};
ghost use Rattle.std.specs.Option as options;

use crate::job::Change;
use crate::misuse::Misuse;
use std::alloc::Global;

// The change that two words ask for.
fn change<'a>(at: &str, plan: &'a str) -> Option<Change<'a>>
    ensures { options.MatchOption result ((n : ℕ) → Numbered at.now n → ⊥) (λ c. AsksChange at.now plan.now c) }
{
    let at = at.parse().ok()?;
    if at < 1 {
        return None;
    }
    Some(Change { at, plan })
}

// The changes that words ask for, two words to each.
pub(crate) fn pairs(heap: Global, words: &[String]) -> Result<Vec<Change<'_>>, Misuse<'_>>
    ensures { MatchResult result (λ v. Changes (map string_bytes words.now) v.items) (λ e. WrongChanges (map string_bytes words.now) e) }
{
    let mut changes = Vec::new(heap);
    for pair in words.chunks(2) {
        let [at, plan] = pair else {
            return Err(Misuse::Lone(pair[0].as_str()));
        };
        let at = at.as_str();
        changes.push(change(at, plan.as_str()).ok_or(Misuse::At(at))?)?;
    }
    Ok(changes)
}
