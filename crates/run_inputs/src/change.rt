// Changes of plan.

// A plan to install, and the super-frame that it comes before.
#[derive(Clone, Copy)]
pub struct Change<P> {
    pub at: u32,
    pub plan: P,
}
