#![tactic(auto)]
// Requests and replies as frames: fields of bytes, one after the other.
mod drafts;
mod faults;
mod fields;
mod kinds;
mod replies;
mod requests;
mod serving;

pub use faults::Fault;
pub use kinds::LONGEST_REPLY;
pub use replies::{Reply, read_reply, replies_have_one_frame, write_reply};
pub use requests::{Request, read_request, requests_have_one_frame, write_request};
pub use serving::serve;

#[cfg(test)]
mod tests;
