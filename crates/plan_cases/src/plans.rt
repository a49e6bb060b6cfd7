// Cases of plan files: a file in hexadecimal digits, and the verdict on it.
ghost use Rattle.std.specs.Prelude.{◌≡◌, true, ◌⊎◌, [], IfSome, IfOk, codes};
ghost use Rattle.plan_cases.specs.Hex.{Spells};
ghost use Rattle.plan_cases.specs.Verdicts.{HoldsOf};
ghost use Rattle.plan_formats.specs.Formats.{PlanFile};

use crate::hex::bytes;
use crate::verdict::{Refusal, Verdict, expected};
use plan_formats::{KeptPlan, read_plan, write_plan};
use slot_plan::Plan;
use std::alloc::{AllocError, Global};

// The bytes of a file, for which `-` stands where it is empty.
fn file_bytes(heap: Global, text: &str) -> Result<Option<Vec<u8>>, AllocError>
    ensures { IfOk result (λ o. IfSome o (λ v. ((text.now ≡ codes "-") × (v.items ≡ [])) ⊎ Spells text.now v.items)) }
{
    if text == "-" {
        return Ok(Some(Vec::new(heap)));
    }
    bytes(heap, text)
}

// Whether a plan is written as this file.
fn is_written(heap: Global, plan: &Plan, file: &[u8]) -> Result<bool, AllocError>
    ensures { IfOk result (λ same. same ≡ true → PlanFile file.now plan.now.fields) }
{
    let written = write_plan(heap, plan)?;
    Ok(written.as_slice() == file)
}

// Whether a plan and the same plan, kept and taken out again, are written as this file.
fn is_kept(heap: Global, plan: &Plan, file: &[u8]) -> Result<bool, AllocError>
    ensures { IfOk result (λ same. same ≡ true → PlanFile file.now plan.now.fields) }
{
    let kept = KeptPlan::new(plan).plan();
    Ok(is_written(heap, plan, file)? && is_written(heap, &kept, file)?)
}

// Whether the library's verdict on a file is the expected one, and a good file is written back.
fn agrees(heap: Global, file: &[u8], verdict: Verdict) -> Result<bool, AllocError>
    ensures { IfOk result (λ agreed. agreed ≡ true → HoldsOf file.now verdict) }
{
    match (read_plan(file), verdict) {
        (Ok(plan), Ok(())) => is_kept(heap, &plan, file),
        (Err(fault), Err(refusal)) => Ok(Refusal::from(fault) == refusal),
        _ => Ok(false),
    }
}

// Whether the library agrees with a case.
pub(crate) fn plan_case(heap: Global, case: &str) -> Result<bool, AllocError> {
    let Some((digits, verdict)) = case.split_once(' ') else {
        return Ok(false);
    };
    match (file_bytes(heap, digits)?, expected(verdict)) {
        (Some(file), Some(verdict)) => agrees(heap, file.as_slice(), verdict),
        _ => Ok(false),
    }
}
