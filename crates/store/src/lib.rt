// The store's door: what it refuses whatever it holds. What lies behind it is not built yet.
#![tactic(auto)]

pub mod denial;
pub mod session;
pub mod sizes;

pub use denial::Denial;
pub use session::Session;
pub use sizes::Sizes;
