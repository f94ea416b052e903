//! The steps of fmaptool: the request of its arguments, the order of opening, failures, and the
//! exit status.
#![tactic(auto)]

mod excerpt;
mod explanation;
mod failure;
mod line;
mod steps;

pub use excerpt::{EXCERPT_LEN, Excerpt, excerpt_at};
pub use explanation::{Explanation, Spot, explain};
pub use failure::{Failure, failure_of_words, status_of};
pub use line::{Invocation, read_words};
pub use steps::{Step, steps_of};
