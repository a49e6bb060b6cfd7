// The station's plan file.
ghost use Rattle.std.specs.Prelude.{◌≡◌, ◌+◌, length, take, drop, IfOk, MatchResult, slice_index};
ghost use Rattle.slot_plan.specs.Faults.{First};
ghost use Rattle.plan_formats.specs.Faults.{file_rank, FilePasses};
ghost use Rattle.plan_formats.specs.Formats.{file_widths, PlanFile, Bytes};
ghost use Rattle.plan_formats.specs.Calls.{Read, FileReadsBack, OnlyFile};
ghost use Rattle.plan_formats.specs.declared.fault.FileFault.TheVariants.{Mark, Version, Size};

use crate::body::Widths;
use crate::fault::FileFault;
use crate::reader::BitReader;
use crate::writer::BitWriter;
use slot_plan::{MOST_SLOTS, Plan};
use std::alloc::{AllocError, Global};

// The mark SLP, and the version of the format.
const MARK: u64 = 0x53_4c_50;

const VERSION: u16 = 1;

// How many bytes the mark, the version and the number of slots take.
const HEAD: usize = 6;

// How many bytes a plan file has besides its stream numbers.
const FIXED: usize = 39;

// How many bits the numbers of a plan have in its file: whole bytes, and a stream number for each slot.
fn widths(slots: u8) -> Widths
    ensures { result ≡ file_widths slots }
{
    Widths {
        word: 8,
        count: 8,
        stream: 8,
        streams: usize::from(slots),
        control: 8,
        expanded: 64,
    }
}

// The number of slots, where the file's head and length are right.
fn read_head(file: &[u8]) -> Result<u8, FileFault>
    ensures { MatchResult result (λ slots. (slots ≡ slice_index file.now 5) × (FilePasses file.now Mark × (FilePasses file.now Version × FilePasses file.now Size))) (λ e. First (FilePasses file.now) file_rank e) }
{
    let [b'S', b'L', b'P', high, low, slots, ..] = *file else {
        return Err(FileFault::Mark);
    };
    if u16::from_be_bytes([high, low]) != VERSION {
        return Err(FileFault::Version);
    }
    if !(1..=MOST_SLOTS).contains(&slots) || file.len() != FIXED + usize::from(slots) {
        return Err(FileFault::Size);
    }
    Ok(slots)
}

// The plan that a station's file states, or the first check that the file fails.
pub fn read_plan(file: &[u8]) -> Result<Plan, FileFault>
    ensures read { Read file.now result }
    ensures only { IfOk result (λ plan. OnlyFile file.now plan.fields) }
{
    let slots = read_head(file)?;
    let mut bits = BitReader::new(file, HEAD * 8);
    let fields = widths(slots).read(&mut bits, slots);
    Ok(Plan::new(fields)?)
}

// Writes the plan's file into as many bytes as it has.
#[tactic(auto, unfolding(crate::specs::Bits::width))]
fn write_file(bytes: &mut [u8], plan: &Plan)
    requires { length bytes.old ≡ 39 + plan.now.fields.slots }
    ensures file { PlanFile bytes.new plan.now.fields }
    ensures bytes { Bytes bytes.new }
{
    let fields = plan.fields();
    let mut bits = BitWriter::new(bytes);
    bits.write(24, MARK);
    bits.write(16, u64::from(VERSION));
    bits.write(8, u64::from(fields.slots));
    widths(fields.slots).write(&mut bits, fields);
}

// Writes the plan's file into the first of 87 bytes, leaves the bytes beyond it, and answers its length.
pub fn write_plan_into(plan: &Plan, out: &mut [u8; 87]) -> usize
    ensures len { result ≡ 39 + plan.now.fields.slots }
    ensures file { PlanFile (take result out.new) plan.now.fields }
    ensures rest { drop result out.new ≡ drop result out.old }
{
    let len = FIXED + usize::from(plan.slots());
    write_file(&mut out[..len], plan);
    len
}

// The plan's file, which reads back as the same plan.
pub fn write_plan(heap: Global, plan: &Plan) -> Result<Vec<u8>, AllocError>
    ensures file { IfOk result (λ v. PlanFile v.items plan.now.fields) }
    ensures back { IfOk result (λ v. FileReadsBack v.items plan.now.fields) }
    ensures only { IfOk result (λ v. Bytes v.items × OnlyFile v.items plan.now.fields) }
{
    let mut file = vec![in heap; 0; FIXED + usize::from(plan.slots())]?;
    write_file(file.as_mut_slice(), plan);
    Ok(file)
}
