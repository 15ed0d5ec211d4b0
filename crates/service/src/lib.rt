#![tactic(auto)]
// The parameter service: transactions over the items of one store, certified by stamps.
mod calls;
mod cases;
mod certification;
mod desks;
mod item_list;
mod looks;
mod refusals;
mod serve;
mod services;
mod serving;
mod settlements;
mod tokens;
mod tool_numbers;
mod tools;
mod transactions;
mod views;

pub use calls::{Answer, Call};
pub use cases::worked_cases;
pub use item_list::ItemList;
pub use looks::Look;
pub use refusals::{Refusal, UnknownRefusal};
pub use services::Service;
