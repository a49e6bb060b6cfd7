// Cases of TMCC data: what a plan and an order of change make, and what data bytes state.
ghost use Rattle.std.specs.Prelude.{◌≡◌, true, ◌∷◌, ◌++◌, IfSome};
ghost use Rattle.plan_formats.specs.Formats.{PlanFile};
ghost use Rattle.plan_cases.specs.Verdicts.{told, States};

use crate::hex::bytes;
use crate::verdict::{expected, number};
use plan_formats::{Order, Tmcc, read_plan};
use slot_plan::PlanFault;
use std::alloc::{AllocError, Global};

// The order of change that a text tells.
fn order(text: &str) -> Option<Order>
    ensures { IfSome result (λ o. o.value ≡ told text.now) }
{
    Order::new(number(text)?)
}

// What a plan file and an order of change state together.
fn stated(file: &[u8], order: Order) -> Option<Tmcc>
    ensures { IfSome result (λ t. (t.order ≡ order) × PlanFile file.now t.plan.fields) }
{
    let plan = read_plan(file).ok()?;
    Some(Tmcc { order, plan })
}

// Whether a plan file and an order of change have these TMCC data.
fn has_data(file: &[u8], order: Order, data: &[u8]) -> bool
    ensures { result ≡ true → States file.now order.value «data».now }
{
    stated(file, order).is_some_and(|tmcc| tmcc.data().as_slice() == data)
}

// A case's first word, its second one and what follows.
fn parts(case: &str) -> Option<(&str, &str, &str)>
    ensures { IfSome result (λ p. case.now ≡ p.0.now ++ (32 ∷ (p.1.now ++ (32 ∷ p.2.now)))) }
{
    let (first, rest) = case.split_once(' ')?;
    let (second, others) = rest.split_once(' ')?;
    Some((first, second, others))
}

// Whether the TMCC data of a plan file and an order of change are those of a case.
pub(crate) fn data_case(heap: Global, case: &str) -> Result<bool, AllocError> {
    let Some((file, change, data)) = parts(case) else {
        return Ok(false);
    };
    match (bytes(heap, file)?, order(change), bytes(heap, data)?) {
        (Some(file), Some(order), Some(data)) => Ok(has_data(
            file.as_slice(),
            order,
            data.as_slice(),
        )),
        _ => Ok(false),
    }
}

// Whether an answer is the one that a verdict tells: `ok` and the order of change, or a refusal.
fn is_answer(answer: Result<Tmcc, PlanFault>, verdict: &str) -> bool {
    match answer {
        Ok(tmcc) => verdict.strip_prefix("ok ").and_then(number) == Some(tmcc.order.value()),
        Err(fault) => expected(verdict) == Some(Err(fault.into())),
    }
}

// Whether data bytes, read for a frame of so many slots, get this verdict.
fn reads(data: &[u8], slots: u8, verdict: &str) -> bool {
    <&[u8; 48]>::try_from(data).is_ok_and(|data| is_answer(Tmcc::read(data, slots), verdict))
}

// Whether what data bytes state of a frame is what a case says.
pub(crate) fn read_case(heap: Global, case: &str) -> Result<bool, AllocError> {
    let Some((data, frame, verdict)) = parts(case) else {
        return Ok(false);
    };
    match (bytes(heap, data)?, number(frame)) {
        (Some(data), Some(slots)) => Ok(reads(data.as_slice(), slots, verdict)),
        _ => Ok(false),
    }
}
