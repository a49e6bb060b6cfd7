// The TMCC data: the order of change and the plan in 384 bits.
ghost use Rattle.std.specs.Prelude.{◌≡◌, ◌≤◌, length, IfOk, IfErr};
ghost use Rattle.slot_plan.specs.Faults.{number};
ghost use Rattle.plan_formats.specs.Calls.{Unpacked, TmccReadsBack, OnlyData};
ghost use Rattle.plan_formats.specs.Formats.{TmccData, Bytes};

use crate::body::Widths;
use crate::order::Order;
use crate::reader::BitReader;
use crate::writer::BitWriter;
use slot_plan::{Plan, PlanFault};

// How many bits the order of change has.
const ORDER: usize = 5;

// What the TMCC states: an order of change and a plan.
#[derive(Clone, Copy)]
pub struct Tmcc {
    pub order: Order,
    pub plan: Plan,
}

// How many bits the numbers of a plan have in the TMCC: none to spare.
const WIDTHS: Widths = Widths {
    word: 4,
    count: 6,
    stream: 3,
    streams: 48,
    control: 5,
    expanded: 62,
};

impl Tmcc {
    // The 48 data bytes, which read back as the same order of change and plan.
    pub fn data(&self) -> [u8; 48]
        ensures holds { TmccData result self.now.plan.fields.slots self.now.order.value self.now.plan.fields }
        ensures bytes { Bytes result }
        ensures back { TmccReadsBack result self.now.order.value self.now.plan.fields }
        ensures only { OnlyData result self.now.order.value self.now.plan.fields }
    {
        let mut bytes = [0; 48];
        self.write(&mut bytes);
        bytes
    }

    // Writes the 48 data bytes.
    #[tactic(auto, unfolding(crate::specs::Bits::width))]
    fn write(&self, bytes: &mut [u8])
        requires { length bytes.old ≡ 48 }
        ensures states { TmccData bytes.new self.now.plan.fields.slots self.now.order.value self.now.plan.fields }
        ensures bytes { Bytes bytes.new }
    {
        let mut bits = BitWriter::new(bytes);
        bits.write(ORDER, u64::from(self.order.value()));
        WIDTHS.write(&mut bits, self.plan.fields());
    }

    // What 48 data bytes state of a frame of so many slots, or the first check that they fail.
    #[tactic(auto, unfolding(crate::specs::Bits::width))]
    pub fn read(bytes: &[u8; 48], slots: u8) -> Result<Tmcc, PlanFault>
        ensures read { Unpacked bytes.now slots result }
        ensures only { IfOk result (λ t. OnlyData bytes.now t.order.value t.plan.fields) }
        ensures rules { IfErr result (λ fault. 1 ≤ slots → slots ≤ 48 → (4 ≤ number fault) × (number fault ≤ 6)) }
    {
        let mut bits = BitReader::new(bytes, 0);
        let order = Order::new(bits.read(ORDER) as u8).unwrap();
        let plan = Plan::new(WIDTHS.read(&mut bits, slots))?;
        Ok(Tmcc { order, plan })
    }
}
