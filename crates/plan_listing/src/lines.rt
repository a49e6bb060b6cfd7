// The lines of a listing, one function to a kind of line.
ghost use Rattle.std.specs.Prelude.{◌≡◌, ℕ, ◌<◌, IfOk, string_bytes};
ghost use Rattle.slot_plan.specs.Modes.{word_of};
ghost use Rattle.plan_listing.specs.Listing.{head_line, mode_line, slot_line, refusal, role_text};

use slot_plan::{Line, Role, Slot};
use std::alloc::{AllocError, Global};

// The mark, the version and the number of slots.
pub(crate) fn head_line(heap: Global, slots: u8) -> Result<String, AllocError>
    ensures { IfOk result (λ s. string_bytes s ≡ head_line slots) }
{
    format!(in heap; "SLP 1 {slots}\n")
}

// A used line of a plan.
pub(crate) fn mode_line(heap: Global, line: Line) -> Result<String, AllocError>
    ensures { IfOk result (λ s. string_bytes s ≡ mode_line (word_of line.mode) line.slots) }
{
    let word = u8::from(line.mode);
    let slots = line.slots;
    let active = line.active_slots();
    format!(in heap; "M {word} {slots} {active}\n")
}

// A slot, by its number and what the plan says of it.
pub(crate) fn slot_line(heap: Global, number: u8, slot: Slot) -> Result<String, AllocError>
    ensures { IfOk result (λ s. string_bytes s ≡ slot_line number (word_of slot.mode) slot.stream slot.role) }
{
    let word = u8::from(slot.mode);
    let stream = slot.stream;
    let role = role_letter(slot.role);
    format!(in heap; "S {number} {word} {stream} {role}\n")
}

// A for an active slot, D for a dummy slot.
fn role_letter(role: Role) -> &'static str
    ensures { result.now ≡ role_text role }
{
    match role {
        Role::Active => "A",
        Role::Dummy => "D",
    }
}

// The only line for a file that is refused.
pub(crate) fn refusal(heap: Global, number: u8) -> Result<String, AllocError>
    ensures { IfOk result (λ s. string_bytes s ≡ refusal number) }
{
    format!(in heap; "REFUSED {number}\n")
}
