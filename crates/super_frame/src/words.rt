// The words that slots carry.
ghost use Rattle.std.specs.Prelude.{◌≡◌, ◌≤◌, ℕ, List, length};
ghost use Rattle.slot_plan.specs.Layout.{active};
ghost use Rattle.super_frame.specs.Carried.{Carries};

use outer_code::{SlotWord, encode_data};
use slot_plan::{Plan, Role};

// The bytes of a packet.
pub(crate) const PACKET: usize = 188;

// Whether a slot, counted from 1, is active.
fn is_active(plan: &Plan, slot: u8) -> bool
    requires { (1 ≤ slot) × (slot ≤ plan.now.fields.slots) }
    ensures { result ≡ active plan.now.fields slot }
{
    plan.slot(slot)
        .is_some_and(|told| told.role == Role::Active)
}

// The word that a slot, counted from 1, carries: there is no other.
pub(crate) fn carried(plan: &Plan, slot: u8, packet: &[u8; PACKET]) -> [u8; 204]
    requires { (1 ≤ slot) × (slot ≤ plan.now.fields.slots) }
    ensures carried { Carries plan.now.fields slot packet.now result }
    ensures only { (other : List ℕ) → Carries plan.now.fields slot packet.now other → other ≡ result }
    ensures size { length result ≡ 204 }
{
    let mut word = [0; 204];
    if is_active(plan, slot) {
        let _ = encode_data::<SlotWord>(packet, &mut word);
    }
    word
}
