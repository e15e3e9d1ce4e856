// The lent tables and values: what stands where, and what is read and moved in them. Of the machine's crates only
// this one knows their layout: the others name a thread, a mutex, a condition or a semaphore by its number. Inner:
// the machine's instructions call these functions on tables that are in order.
#![tactic(auto)]

mod layout;
mod order;
mod owners;
mod places;
mod queues;
mod threads;
mod values;

pub use layout::{line_of, start_at};
pub use order::{first_living, send, waiting};
pub use owners::{own, owner, owns, owns_any};
pub use places::{
    Awaited, ENDED, FIRST_QUEUE, READY, RUNNING, UNMADE, at_condition, at_end, at_mutex,
    at_semaphore, awaited_at, awaits_end,
};
pub use queues::{dequeue, make_ready, wake_all, wake_first};
pub use threads::{any_live, has_ended, lives, place, save, saved};
pub use values::{count, result, set_count, set_result};
