// The rules of the four lines: mode words and slot counts.
ghost use Rattle.std.specs.Prelude.{◌≡◌, ℕ, ◌+◌, ◌<◌, ◌≤◌, ◌≢◌, sum, Decides, MatchOption};
ghost use Rattle.slot_plan.specs.Layout.{word, count, counts};
ghost use Rattle.slot_plan.specs.Modes.{word_of};
ghost use Rattle.slot_plan.specs.Rules.{ModeRule, CountRule, SumRule};
ghost use Rattle.slot_plan.specs.Searches.{LeastFailing};

use crate::fields::{Fields, LINES, LineNumbers};
use crate::mode::Mode;

// The mode word of an unused line, and the highest of a used one.
const UNUSED: u8 = 15;

const HIGHEST: u8 = 7;

impl LineNumbers {
    // The mode that has the line's mode word.
    pub(crate) fn mode(self) -> Option<Mode>
        ensures { MatchOption result ((m : Mode) → word_of m ≢ self.word) (λ m. word_of m ≡ self.word) }
    {
        Mode::try_from(self.word).ok()
    }
}

// Lines go by `u8` numbers, whose range stands in each `requires`: they come from ranges such as `1..line`, and a type of their own
// would be made at each turn of those and taken apart at each index.
impl Fields {
    // A line's numbers, by its number from 1 to 4.
    pub(crate) fn line(&self, line: u8) -> LineNumbers
        requires { (1 ≤ line) × (line ≤ 4) }
        ensures word { result.word ≡ word self.now line }
        ensures count { result.count ≡ count self.now line }
    {
        self.lines[line as usize - 1]
    }

    // Whether each line before this one has a mode word above `least`, and one that a used line can have.
    fn lines_above(&self, line: u8, least: u8) -> bool
        requires { (1 ≤ line) × (line ≤ 4) }
        ensures { Decides result ((earlier : ℕ) → 1 ≤ earlier → earlier < line → (least < word self.now earlier) × (word self.now earlier ≤ 7)) }
    {
        (1..line).all(|earlier| {
            let above = self.line(earlier).word;
            least < above && above <= HIGHEST
        })
    }

    // Whether a line's mode word is right.
    fn mode_is_right(&self, line: u8) -> bool
        requires { (1 ≤ line) × (line ≤ 4) }
        ensures { Decides result (ModeRule self.now line) }
    {
        let own = self.line(line).word;
        own == UNUSED || ((1..=HIGHEST).contains(&own) && self.lines_above(line, own))
    }

    // Whether a line's slot count is right.
    fn count_is_right(&self, line: u8) -> bool
        requires { (1 ≤ line) × (line ≤ 4) }
        ensures { Decides result (CountRule self.now line) }
    {
        let own = self.line(line);
        if own.word == UNUSED {
            return own.count == 0;
        }
        own.mode()
            .is_some_and(|mode| 0 < own.count && own.count % mode.unit() == 0)
    }

    // The first line whose mode word is wrong.
    pub(crate) fn wrong_mode(&self) -> Option<u8>
        ensures { LeastFailing (ModeRule self.now) 4 result }
    {
        (1..=LINES).find(|line| !self.mode_is_right(*line))
    }

    // The first line whose slot count is wrong.
    pub(crate) fn wrong_count(&self) -> Option<u8>
        ensures { LeastFailing (CountRule self.now) 4 result }
    {
        (1..=LINES).find(|line| !self.count_is_right(*line))
    }

    // How many slots the lines take.
    fn slots_taken(&self) -> u16
        ensures { result ≡ sum (counts self.now) }
    {
        self.lines.iter().map(|line| u16::from(line.count)).sum()
    }

    // Whether the lines take the whole frame.
    pub(crate) fn sum_is_right(&self) -> bool
        ensures { Decides result (SumRule self.now) }
    {
        self.slots_taken() == u16::from(self.slots)
    }
}
