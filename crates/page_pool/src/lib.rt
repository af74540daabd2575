//! Pages of 256 bytes that several may hold at once, in a region that is taken once.
#![tactic(auto)]

pub mod laws;
pub mod pool;

pub use laws::{
    held_pages_have_holders, held_pages_stay, holders_are_counted, outnumbered_pages_stay,
    page_numbers,
};
pub use pool::{Full, PAGE_LEN, POOL_LIMIT, Page, PagePool};
