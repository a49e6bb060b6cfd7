// The listing of a plan file.
ghost use Rattle.std.specs.Prelude.{◌≡◌, ℕ, ◌≤◌, List, IfOk, string_bytes};
ghost use Rattle.plan_listing.specs.Listing.{Lists, Tells, texts_to, listing, line_text, mode_lines, slot_text, slot_lines};

use crate::lines::{head_line, mode_line, refusal, slot_line};
use plan_formats::read_plan;
use slot_plan::{LINES, Plan};
use std::alloc::{AllocError, Global};

// The line of the listing for a line of a plan, and no text for an unused one.
fn line_text(heap: Global, plan: &Plan, line: u8) -> Result<String, AllocError>
    requires { (1 ≤ line) × (line ≤ 4) }
    ensures { IfOk result (λ s. string_bytes s ≡ line_text plan.now.fields line) }
{
    match plan.line(line) {
        Some(used) => mode_line(heap, used),
        None => Ok(String::new(heap)),
    }
}

// The texts that `text` gives for the numbers 1 to `last`, one after the other.
fn texts_to<F: Fn(u8) -> Result<String, AllocError>>(
    heap: Global,
    last: u8,
    text: F,
) -> Result<String, AllocError>
    requires { (number : ℕ) → 1 ≤ number → number ≤ last → F.pre text number }
    ensures { IfOk result (λ s. (told : ℕ → List ℕ) → Tells (F.post text) told last → string_bytes s ≡ texts_to told last) }
{
    let mut all = String::new(heap);
    for number in 1..=last {
        all.push_str(text(number)?.as_str())?;
    }
    Ok(all)
}

// The used lines of a plan.
fn mode_lines(heap: Global, plan: &Plan) -> Result<String, AllocError>
    ensures { IfOk result (λ s. string_bytes s ≡ mode_lines plan.now.fields 4) }
{
    texts_to(heap, LINES, |line| line_text(heap, plan, line))
}

// The line of the listing for a slot.
fn slot_text(heap: Global, plan: &Plan, slot: u8) -> Result<String, AllocError>
    requires { (1 ≤ slot) × (slot ≤ plan.now.fields.slots) }
    ensures { IfOk result (λ s. string_bytes s ≡ slot_text plan.now.fields slot) }
{
    slot_line(heap, slot, plan.slot(slot).unwrap())
}

// The slots of a plan.
fn slot_lines(heap: Global, plan: &Plan) -> Result<String, AllocError>
    ensures { IfOk result (λ s. string_bytes s ≡ slot_lines plan.now.fields plan.now.fields.slots) }
{
    texts_to(heap, plan.slots(), |slot| slot_text(heap, plan, slot))
}

// The listing of a plan.
fn list_plan(heap: Global, plan: &Plan) -> Result<String, AllocError>
    ensures { IfOk result (λ s. string_bytes s ≡ listing plan.now.fields) }
{
    let mut text = head_line(heap, plan.slots())?;
    text.push_str(mode_lines(heap, plan)?.as_str())?;
    text.push_str(slot_lines(heap, plan)?.as_str())?;
    Ok(text)
}

// The listing of the plan that a file states, or the number of the first check that the file fails.
pub fn list_file(heap: Global, file: &[u8]) -> Result<String, AllocError>
    ensures { IfOk result (λ s. Lists file.now (string_bytes s)) }
{
    match read_plan(file) {
        Ok(plan) => list_plan(heap, &plan),
        Err(fault) => refusal(heap, fault.number()),
    }
}
