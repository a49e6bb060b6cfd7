// What happens in a run, as a line of text.
ghost use Rattle.std.specs.Prelude.{Some};
ghost use Rattle.transmission.specs.Lines.{line};

use std::fmt;

// An event of a run. A refusal stands in it by its number, which its line tells.
#[derive(Clone, Copy)]
pub enum Event {
    // the plan to begin with is none, by this refusal
    PlanRefused {
        refusal: u8,
    },
    // the packets are none, by this refusal
    PacketsRefused {
        refusal: u8,
    },
    // before a super-frame a plan was installed, and has this order of change
    Installed {
        number: u32,
        order: u8,
    },
    // before a super-frame a plan was not installed, by this refusal
    Refused {
        number: u32,
        refusal: u8,
    },
    // a super-frame was filled, with this order of change, so many packets and so many null packets
    Filled {
        number: u32,
        order: u8,
        placed: u32,
        nulls: u32,
    },
    // of a stream so many packets were placed, and so many wait
    Total {
        stream: u8,
        placed: u16,
        waiting: u16,
    },
}

impl fmt::Display for Event {
    ghost output = { λ e. Some (line e) };

    fn fmt<W: fmt::Write>(&self, f: &mut fmt::Formatter<W>) -> fmt::Result {
        match self {
            Event::PlanRefused { refusal } => write!(f, "PLAN REFUSED {refusal}"),
            Event::PacketsRefused { refusal } => write!(f, "PACKETS REFUSED {refusal}"),
            Event::Installed { number, order } => write!(f, "I {number} {order}"),
            Event::Refused { number, refusal } => write!(f, "I {number} REFUSED {refusal}"),
            Event::Filled {
                number,
                order,
                placed,
                nulls,
            } => { write!(f, "F {number} {order} {placed} {nulls}") }
            Event::Total {
                stream,
                placed,
                waiting,
            } => { write!(f, "T {stream} {placed} {waiting}") }
        }
    }
}
