// A plan packed into few numbers, for whoever keeps one for long.
ghost use Rattle.std.specs.Prelude.{◌≡◌, ℕ, ◌^◌, ◌<◌, [], ◌∷◌, length, slice_index};
ghost use Rattle.slot_plan.specs.declared.fields.Fields.{Fields};
ghost use Rattle.plan_formats.specs.Bits.{front, Fit};
ghost use Rattle.plan_formats.specs.Body.{numbers, Run};
ghost use Rattle.plan_formats.specs.Kept.{Keeps, KeepsSome};

use crate::order::Order;
use crate::reader::BitReader;
use crate::tmcc::Tmcc;
use crate::writer::BitWriter;
use slot_plan::Plan;

// The number of slots, and the bits of the plan's TMCC data.
#[derive(Clone, Copy, PartialEq, Eq, Debug)]
pub struct KeptPlan {
    slots: u8,
    packed: [u64; 6],
    ghost keeps: { ∥ KeepsSome slots packed ∥₁ },
}

// The 48 data bytes as six numbers.
fn pack(bytes: &[u8; 48]) -> [u64; 6]
    ensures len { length result ≡ 6 }
    ensures fit { (k : ℕ) → slice_index result k < 2 ^ 64 }
    ensures run { Run 0 0 (numbers 64 result) (front bytes.now 384) 384 }
{
    let mut packed = [0; 6];
    BitReader::new(bytes, 0).read_numbers(64, &mut packed);
    packed
}

// The 48 data bytes that six numbers make.
fn unpack(packed: &[u64; 6]) -> [u8; 48]
    ensures len { length result ≡ 48 }
    ensures run { Run 0 0 (numbers 64 packed.now) (front result 384) 384 }
{
    let mut bytes = [0; 48];
    BitWriter::new(&mut bytes).write_numbers(64, packed);
    bytes
}

impl KeptPlan {
    // The plan, packed.
    pub fn new(plan: &Plan) -> KeptPlan
        ensures { Keeps result.slots result.packed plan.now.fields }
    {
        let order = Order::first();
        let data = Tmcc { order, plan: *plan }.data();
        KeptPlan {
            slots: plan.slots(),
            packed: pack(&data),
        }
    }

    // The plan that is kept, and there is no other.
    pub fn plan(&self) -> Plan
        ensures kept { Keeps self.now.slots self.now.packed result.fields }
        ensures only { (f : Fields) → Keeps self.now.slots self.now.packed f → f ≡ result.fields }
    {
        let data = unpack(&self.packed);
        Tmcc::read(&data, self.slots).unwrap().plan
    }
}
