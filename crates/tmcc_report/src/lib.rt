// The TMCC of a plan in bytes: the word, and the head of each frame.
#![tactic(auto)]

ghost use Rattle.tmcc_word.specs.Words.{IsTmccCodeword, IsTmccWord};

use plan_formats::{Order, Tmcc};
use slot_plan::Plan;
use tmcc_word::word;

// The heads of the eight frames of a super-frame that carries a TMCC word.
pub use super_frame::frame_heads as heads;

// The TMCC word of a plan with order of change 0, of which the first 48 bytes are its TMCC data.
pub fn first_word(plan: &Plan) -> [u8; 64]
    ensures word { IsTmccWord result 0 plan.now.fields }
    ensures codeword { IsTmccCodeword result plan.now.fields.slots 0 plan.now.fields }
{
    let order = Order::first();
    word(&Tmcc { order, plan: *plan })
}
