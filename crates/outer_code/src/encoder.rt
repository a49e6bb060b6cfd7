// The coder.
ghost use Rattle.outer_code.specs.Calls.{DataEncoded, Encoded};

use crate::fault::CodeFault;
use crate::kind::WordKind;
use parity::check_bytes;

// Completes a word whose data stand in it already: writes the check bytes behind them.
pub fn encode<K: WordKind>(word: &mut [u8]) -> Result<(), CodeFault>
    ensures { Encoded K.LENGTH K.DATA_LENGTH word.old result word.new }
{
    if word.len() != K::LENGTH {
        return Err(CodeFault::Length);
    }
    let (content, checks) = word.split_at_mut(K::DATA_LENGTH);
    checks.copy_from_slice(&check_bytes(content));
    Ok(())
}

// Writes over a word the codeword of these data.
pub fn encode_data<K: WordKind>(content: &[u8], word: &mut [u8]) -> Result<(), CodeFault>
    ensures { DataEncoded K.LENGTH K.DATA_LENGTH content.now word.old result word.new }
{
    if content.len() != K::DATA_LENGTH || word.len() != K::LENGTH {
        return Err(CodeFault::Length);
    }
    word[..content.len()].copy_from_slice(content);
    encode::<K>(word)
}
