// Bytes written as hexadecimal digits with small letters.
ghost use Rattle.std.specs.Prelude.{◌≡◌, ℕ, List, IfOk, MatchOption};
ghost use Rattle.hexadecimal.specs.Hex.{Hex};
ghost use Rattle.plan_cases.specs.Hex.{Small, Spells};

use hexadecimal::HexText;
use std::alloc::{AllocError, Global};

// A text as digits, if it is made of them and has no capitals.
fn small_digits(text: &[u8]) -> Option<HexText<'_>>
    ensures { MatchOption result (Small text.now × Hex text.now → ⊥) (λ h. Small text.now × (h.digits.now ≡ text.now)) }
{
    if text.iter().any(|c| c.is_ascii_uppercase()) {
        return None;
    }
    HexText::new(text)
}

// The bytes that a text spells, if it spells any.
pub(crate) fn bytes(heap: Global, text: &str) -> Result<Option<Vec<u8>>, AllocError>
    ensures { IfOk result (λ o. MatchOption o ((bytes : List ℕ) → Spells text.now bytes → ⊥) (λ v. Spells text.now v.items)) }
{
    small_digits(text.as_bytes())
        .map(|digits| digits.to_vec(heap))
        .transpose()
}
