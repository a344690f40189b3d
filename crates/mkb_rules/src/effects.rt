// What commits do to the state.
mod applying;
mod deducing;
mod forking;
mod giving_up;
pub(crate) mod label;
mod limit;
mod orienting;
mod rewriting;
mod settling;
