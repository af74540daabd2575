//! The text of an assembler's listing.
#![tactic(auto)]

mod listing_text;
mod text;

pub use listing_text::push_listing;
pub use text::Text;
