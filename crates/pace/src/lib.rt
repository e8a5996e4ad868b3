//! What is asked between batches, kept beside what is known of it.
//!
//! A pacer says how many rows the next batch fills, and a brake whether there is a next batch. Each keeps a function of the caller's own, by which it answers. What the function must answer is shown once, where it is kept: whoever asks it later needs no condition on the function.
#![tactic(auto)]

mod brake;
mod pacer;
mod progress;

pub use brake::{Brake, Braking};
pub use pacer::{Pacer, Pacing};
pub use progress::{Progress, Turn};
