// The words of a call.
ghost use Rattle.std.specs.Prelude.{map, IfOk, string_bytes};
ghost use Rattle.modulate_job.specs.Flags.{Sorted};

use std::alloc::{AllocError, Global};

// The word that asks for progress on standard error.
const PROGRESS: &str = "--progress";

// The words without the flag, and whether the flag is among them.
#[derive(Drop)]
pub struct Words {
    pub asked: Vec<String>,
    pub progress: bool,
}

impl Words {
    // Sorts words: the flag may stand anywhere among them.
    pub fn sorted(heap: Global, words: &[String]) -> Result<Words, AllocError>
        ensures { IfOk result (λ w. Sorted (map string_bytes words.now) (map string_bytes w.asked.items) w.progress) }
    {
        let mut asked = Vec::new(heap);
        let mut progress = false;
        for word in words {
            if word.as_str() == PROGRESS {
                progress = true;
            } else {
                asked.push(word.clone()?)?;
            }
        }
        Ok(Words { asked, progress })
    }
}
