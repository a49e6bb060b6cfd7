// What is said of a plan file or of TMCC data, by the library and by a case.
ghost use Rattle.std.specs.Prelude.{◌≡◌, IfSome};
ghost use Rattle.plan_cases.specs.Verdicts.{plan_refusal, file_refusal, told, ToldPlace};

use plan_formats::FileFault;
use slot_plan::PlanFault;

// A refusal: its number, and the line or the slot at fault, where it is a single one.
#[derive(Clone, Copy, PartialEq, Eq, Debug)]
pub(crate) struct Refusal {
    pub(crate) number: u8,
    pub(crate) place: Option<u8>,
}

impl From<PlanFault> for Refusal {
    ghost from_gives = { λ fault r. r ≡ plan_refusal fault };

    fn from(fault: PlanFault) -> Refusal {
        Refusal {
            number: fault.number(),
            place: fault.place(),
        }
    }
}

impl From<FileFault> for Refusal {
    ghost from_gives = { λ fault r. r ≡ file_refusal fault };

    fn from(fault: FileFault) -> Refusal {
        Refusal {
            number: fault.number(),
            place: fault.place(),
        }
    }
}

// Nothing is wrong, or a refusal.
pub(crate) type Verdict = Result<(), Refusal>;

// The verdict of a case: `ok`, or `refused`, a number and a place.
pub(crate) fn expected(text: &str) -> Option<Verdict> {
    let mut words = text.split_whitespace();
    match words.next()? {
        "ok" => Some(Ok(())),
        "refused" => {
            let number = number(words.next()?)?;
            let place = place(words.next()?)?;
            Some(Err(Refusal { number, place }))
        }
        _ => None,
    }
}

// The number that a text tells.
pub(crate) fn number(text: &str) -> Option<u8>
    ensures { IfSome result (λ n. n ≡ told text.now) }
{
    text.parse::<u8>().ok()
}

// A line or a slot, which are counted from 1: a case writes `-` or 0 where it is no single one.
fn place(text: &str) -> Option<Option<u8>>
    ensures { IfSome result (ToldPlace text.now) }
{
    if text == "-" {
        return Some(None);
    }
    let at = number(text)?;
    Some((at != 0).then_some(at))
}
