// A run of the modulator, as it is asked for.
use run_inputs::Source;

// Where the packets come from, with a packet file by its path.
pub type Packets<'a> = Source<&'a str>;

// A change of plan, with the plan by its file's path.
pub type Change<'a> = run_inputs::Change<&'a str>;

#[derive(Drop)]
pub struct Job<'a> {
    pub plan: &'a str,
    pub packets: Packets<'a>,
    pub count: u32,
    pub out: &'a str,
    pub changes: Vec<Change<'a>>,
}
