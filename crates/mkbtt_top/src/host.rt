// What a run works with.
use std::alloc::Global;

/// What a run works with: what starts threads, where memory comes from, and what each worker asks.
#[derive(Drop)]
pub(crate) struct Host<'a, R, G> {
    pub rt: &'a R,
    pub alloc: Global,
    pub gate: &'a G,
}
