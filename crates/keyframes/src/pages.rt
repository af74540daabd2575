ghost use Rattle.std.specs.Prelude.{◌≡◌, ◌<◌, ◌≤◌, ◌+◌, ◌-◌, ◌*◌, ◌^◌, ◌++◌, [], ◌∷◌, ℕ, None, Option, Some, List, All, IfSome, length, take, drop, flat_map, option_map, get_or, vec_capacity};
ghost use Rattle.page_pool.specs.Pool.{IsLive, held_at, live_of, pool_taken};
ghost use Rattle.keyframes.specs.Frames.{page_bytes};
ghost use Rattle.keyframes.specs.Keys.{page_of};
ghost use Rattle.keyframes.specs.Holders.{AreHeld, IsShareable, KeepsBytes, LeavesBytes, IsHeldPage, IsRowPage, holders_of, page_at, row_taken, taken_for, times_in};

use crate::frame::Frame;
use board_base::{BoardState, RAM_LEN};
use page_pool::{PAGE_LEN, Page, PagePool};

/// The pages of a board: eight of its RAM, eight of its vector RAM.
pub const BOARD_PAGES: usize = 16;

/// The pages of a board's RAM, and of its vector RAM.
pub(crate) const RAM_PAGES: usize = 8;

/// Page `k` of a board.
pub(crate) fn page(state: &BoardState, k: usize) -> &[u8; PAGE_LEN]
    requires { k < BOARD_PAGES }
    ensures { result.now ≡ page_of state.now k }
{
    if k < RAM_PAGES {
        part(&state.ram, k)
    } else {
        part(&state.vram, k - RAM_PAGES)
    }
}

/// Page `k` of a RAM.
fn part(memory: &[u8; RAM_LEN], k: usize) -> &[u8; PAGE_LEN]
    requires { k < RAM_PAGES }
    ensures { result.now ≡ take PAGE_LEN (drop (PAGE_LEN * k) memory.now) }
{
    let (_, rest) = memory.split_at(PAGE_LEN * k);
    rest.first_chunk().unwrap()
}

/// A page with these bytes: the one before, where it has them, and else a new one.
fn hold(pool: &mut PagePool, before: Option<&Page>, bytes: &[u8; PAGE_LEN]) -> Page
    requires before { IfSome before (λ page. IsLive pool.old page.now × (holders_of pool.old page.now < 2 ^ 32 - 1)) }
    requires free { live_of pool.old < length pool.old }
    requires held { AreHeld pool.old }
    ensures held { AreHeld pool.new }
    ensures len { length pool.new ≡ length pool.old }
    ensures holders { (place : ℕ) → holders_of pool.new place ≡ holders_of pool.old place + times_in (result ∷ []) place }
    ensures bytes { IsLive pool.new result × (page_bytes pool.new result ≡ bytes.now) }
    ensures kept { KeepsBytes pool.old pool.new }
    ensures page { IsHeldPage pool.old (option_map (λ page. page.now) before.entry) bytes.now result }
    ensures live { live_of pool.new ≡ live_of pool.old + taken_for pool.old (option_map (λ page. page.now) before.entry) bytes.now }
{
    match before {
        Some(page) if pool.bytes(page) == bytes => pool.share(page),
        _ => take(pool, bytes),
    }
}

/// A new page with these bytes.
fn take(pool: &mut PagePool, bytes: &[u8; PAGE_LEN]) -> Page
    requires free { live_of pool.old < length pool.old }
    ensures free { (result < length pool.old) × (held_at pool.old result ≡ None) }
    ensures taken { pool.new ≡ pool_taken pool.old result bytes.now }
{
    pool.take(bytes).unwrap()
}

/// The page at place `k` of a frame, where there is one.
fn page_before<'a>(before: Option<&'a Frame>, k: usize) -> Option<&'a Page>
    requires { IfSome before (λ frame. k < length frame.now.pages.items) }
    ensures { option_map (λ page. page.now) result ≡ page_at (option_map (λ frame. frame.now) before.entry) k }
{
    match before {
        Some(frame) => Some(&frame.pages[k]),
        None => None,
    }
}

/// Puts the pages of a board into a row, equal ones shared with those of the frame before.
pub(crate) fn hold_all(
    pool: &mut PagePool,
    before: Option<&Frame>,
    state: &BoardState,
    row: &mut Vec<Page>,
)
    requires before { IfSome before (λ frame. length frame.now.pages.items ≡ BOARD_PAGES) }
    requires live { IfSome before (λ frame. All (IsShareable pool.old) frame.now.pages.items) }
    requires free { live_of pool.old + BOARD_PAGES ≤ length pool.old }
    requires held { AreHeld pool.old }
    requires row { row.old.items ≡ [] }
    requires room { BOARD_PAGES ≤ vec_capacity row.old }
    ensures held { AreHeld pool.new }
    ensures len { length pool.new ≡ length pool.old }
    ensures holders { (place : ℕ) → holders_of pool.new place ≡ holders_of pool.old place + times_in row.new.items place }
    ensures kept { KeepsBytes pool.old pool.new }
    ensures row { length row.new.items ≡ BOARD_PAGES }
    ensures bytes { (k : ℕ) → k < BOARD_PAGES → page_bytes pool.new (get_or row.new.items k 0) ≡ page_of state.now k }
    ensures room { vec_capacity row.new ≡ vec_capacity row.old }
    ensures pages { (k : ℕ) → k < BOARD_PAGES → IsRowPage pool.old (page_at (option_map (λ frame. frame.now) before.entry) k) (page_of state.now k) row.new.items k }
    ensures live { live_of pool.new ≡ live_of pool.old + row_taken pool.old (option_map (λ frame. frame.now) before.entry) state.now BOARD_PAGES }
{
    for k in 0..BOARD_PAGES {
        let page_before = page_before(before, k);
        row.push_reserved(hold(pool, page_before, page(state, k)));
    }
}

/// Gives all pages of a row back.
pub(crate) fn give_all(pool: &mut PagePool, row: &mut Vec<Page>)
    requires enough { (place : ℕ) → times_in row.old.items place ≤ holders_of pool.old place }
    requires held { AreHeld pool.old }
    ensures held { AreHeld pool.new }
    ensures len { length pool.new ≡ length pool.old }
    ensures holders { (place : ℕ) → holders_of pool.new place + times_in row.old.items place ≡ holders_of pool.old place }
    ensures bytes { LeavesBytes pool.old pool.new }
    ensures row { row.new.items ≡ [] }
    ensures room { vec_capacity row.new ≡ vec_capacity row.old }
{
    while let Some(page) = row.pop() {
        pool.give(page);
    }
}

/// Copies the bytes of eight pages.
pub(crate) fn copy(pool: &PagePool, pages: &[Page], into: &mut [u8; RAM_LEN])
    requires eight { length pages.now ≡ RAM_PAGES }
    requires live { All (IsLive pool.now) pages.now }
    ensures { into.new ≡ flat_map (page_bytes pool.now) pages.now }
{
    for k in 0..RAM_PAGES {
        put(into, k, pool.bytes(&pages[k]));
    }
}

/// Writes page `k` of a RAM.
fn put(memory: &mut [u8; RAM_LEN], k: usize, bytes: &[u8; PAGE_LEN])
    requires { k < RAM_PAGES }
    ensures bytes { memory.new ≡ take (PAGE_LEN * k) memory.old ++ bytes.now ++ drop (PAGE_LEN * k + PAGE_LEN) memory.old }
    ensures whole { length bytes.now ≡ PAGE_LEN }
{
    memory[PAGE_LEN * k..PAGE_LEN * k + PAGE_LEN].copy_from_slice(bytes);
}
