//! Names of processes, and labels, the sets of living processes.
#![tactic(auto)]

mod kept_name;
mod labels;
mod laws;
mod list_labels;
mod living;
mod name_list;
mod process;
mod verdict;

pub use labels::Labels;
pub use laws::{
    forked_names_are_apart, operations_are_those_of_sets, ordered_names_are_told_by_members,
};
pub use list_labels::{ListLabels, NameLog};
pub use living::{Living, MAX_LIVING};
pub use process::{MAX_BITS, Process, WORD_BITS};
pub use verdict::{Reason, Spent, Verdict};
