// The TMCC word: the TMCC data of a plan, and the check bytes behind them.
#![tactic(auto)]

ghost use Rattle.tmcc_word.specs.Words.{IsTmccCodeword, IsTmccWord};

use outer_code::{TmccWord, encode_data};
use plan_formats::Tmcc;

// The word that carries an order of change and a plan.
pub fn word(tmcc: &Tmcc) -> [u8; 64]
    ensures word { IsTmccWord result tmcc.now.order.value tmcc.now.plan.fields }
    ensures codeword { IsTmccCodeword result tmcc.now.plan.fields.slots tmcc.now.order.value tmcc.now.plan.fields }
{
    let mut word = [0; 64];
    encode_data::<TmccWord>(&tmcc.data(), &mut word).unwrap();
    word
}
