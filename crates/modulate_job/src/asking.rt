// The job that words ask for.
ghost use Rattle.std.specs.Prelude.{map, string_bytes, MatchResult};
ghost use Rattle.modulate_job.specs.Jobs.{Asks, Wrong};

use crate::counts::named;
use crate::job::Job;
use crate::misuse::Misuse;
use crate::pairs::pairs;
use std::alloc::Global;

impl<'a> Job<'a> {
    // The job that words ask for, or what is wrong with them. Four words are always there.
    pub fn of(heap: Global, words: &'a [String]) -> Result<Job<'a>, Misuse<'a>>
        ensures { MatchResult result (λ job. Asks (map string_bytes words.now) job) (λ e. Wrong (map string_bytes words.now) e) }
    {
        let [plan, packets, count, out, changes @ ..] = words else {
            return Err(Misuse::Few);
        };
        let word = packets.as_str();
        let packets = named(word).ok_or(Misuse::Pattern(word))?;
        let word = count.as_str();
        let count = word.parse::<u32>().map_err(|_| Misuse::Count(word))?;
        Ok(Job {
            plan: plan.as_str(),
            packets,
            count,
            out: out.as_str(),
            changes: pairs(heap, changes)?,
        })
    }
}
