// The fifteen calls of the store, what a granted one answers and why one is refused.
#![tactic(auto)]

pub mod answer;
pub mod call;
pub mod optional;
pub mod page_number;
pub mod reason;
pub mod refusal;

pub use answer::{Answer, Source};
pub use call::Call;
pub use optional::{NO_NUMBER, byte_or_255};
pub use page_number::PageNumber;
pub use reason::Reason;
pub use refusal::{Layer, Place, Refusal};
