//! An expansion as one HTML page that needs nothing else.
#![tactic(auto)]

mod frame;
mod reply_page;
mod steps;
mod told;

pub use reply_page::{page, page_with_names};
pub use steps::push_steps;
