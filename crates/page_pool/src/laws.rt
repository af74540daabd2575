//! What holds of pools. Each law is the contract of a function that does nothing.
ghost use Rattle.std.specs.Prelude.{◌≡◌, ◌≤◌, ◌↔◌, ℕ, List, Option, None, replicate};
ghost use Rattle.page_pool.specs.Calls.{Call, LivePagesStay, all_called};
ghost use Rattle.page_pool.specs.Holders.{AreDue, HasHolders, HoldersAreCounted, OutnumberedPagesStay, holders_at};
ghost use Rattle.page_pool.specs.Pool.{Holding, IsLive};

use crate::pool::{PAGE_LEN, POOL_LIMIT};

/// The numbers of a pool, each by its name in the definitions.
pub fn page_numbers()
    ensures page { PAGE_LEN ≡ 256 }
    ensures pool { POOL_LIMIT ≡ 65536 }
{}

/// A held page keeps its bytes until its last holder has given it back.
#[tactic(auto, using(crate::proofs::CallLaws::live_pages_stay))]
pub fn held_pages_stay()
    ensures { LivePagesStay }
{}

/// Each held page has one holder or more: a new pool has no held page, and the calls keep it so. A
/// place is held exactly where it has a holder.
#[tactic(auto, using(crate::proofs::CallLaws::new_holders, crate::proofs::CallLaws::calls_holders, crate::proofs::CallLaws::live_holders))]
pub fn held_pages_have_holders()
    ensures new { (capacity : ℕ) → HasHolders (replicate capacity None) }
    ensures calls { (pool : List (Option Holding)) → (calls : List Call) → HasHolders pool → AreDue pool calls → HasHolders (all_called pool calls) }
    ensures live { (pool : List (Option Holding)) → (place : ℕ) → HasHolders pool → (IsLive pool place ↔ (1 ≤ holders_at pool place)) }
{}

/// The holders of a place are counted by the calls: one more for each take and share of it, and one
/// less for each give.
#[tactic(auto, using(crate::proofs::CallLaws::holders_are_counted))]
pub fn holders_are_counted()
    ensures { (pool : List (Option Holding)) → (calls : List Call) → (place : ℕ) → HasHolders pool → AreDue pool calls → HoldersAreCounted pool calls place }
{}

/// The bytes of a page that was taken lie at its place for as long as the takes and shares of it
/// outnumber its gives.
#[tactic(auto, using(crate::proofs::CallLaws::outnumbered_pages_stay))]
pub fn outnumbered_pages_stay()
    ensures { OutnumberedPagesStay }
{}
