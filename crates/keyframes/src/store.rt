ghost use Rattle.std.specs.Prelude.{◌≡◌, ◌<◌, ◌≤◌, ◌+◌, ◌++◌, [], ◌∷◌, ℕ, ◌||◌, None, IfOk, nat_lt, nat_le, replicate, get_or, length, All, vec_len, vec_capacity};
ghost use Rattle.keyframes.specs.Holders.{AreHeld, KeepsBytes, LeavesBytes, holders_of, row_taken, times_in};
ghost use Rattle.page_pool.specs.Pool.{live_of};
ghost use Rattle.keyframes.specs.Frames.{board_of};
ghost use Rattle.keyframes.specs.Keys.{MakesRoom, last_of, thinned};
ghost use Rattle.keyframes.specs.Inside.{IsStore, keys_of};
ghost use Rattle.keyframes.specs.Store.{AreFrames, IsFrame, AreRows, HoldsFrames, IsKept};

use crate::frame::{Frame, Rest};
use crate::pages::{BOARD_PAGES, RAM_PAGES, copy, give_all, hold_all};
use board_base::{BoardState, OutOfMemory};
use page_pool::{POOL_LIMIT, Page, PagePool};
use std::alloc::Global;

/// Kept boards, and the memory for those to come: `spare` is empty between two calls, `rows` has a
/// row of pages for each board that may come.
#[derive(Drop)]
pub(crate) struct Store {
    pub pool: PagePool,
    pub kept: Vec<Frame>,
    pub spare: Vec<Frame>,
    pub rows: Vec<Vec<Page>>,
}

/// Gives the pages of a board back, and its row.
fn give(pool: &mut PagePool, rows: &mut Vec<Vec<Page>>, frame: Frame)
    requires enough { (place : ℕ) → times_in frame.pages.items place ≤ holders_of pool.old place }
    requires held { AreHeld pool.old }
    requires row { BOARD_PAGES ≤ vec_capacity frame.pages }
    requires rows { AreRows rows.old.items }
    requires room { vec_len rows.old < vec_capacity rows.old }
    ensures held { AreHeld pool.new }
    ensures len { length pool.new ≡ length pool.old }
    ensures holders { (place : ℕ) → holders_of pool.new place + times_in frame.pages.items place ≡ holders_of pool.old place }
    ensures bytes { LeavesBytes pool.old pool.new }
    ensures rows { AreRows rows.new.items }
    ensures count { vec_len rows.new ≡ vec_len rows.old + 1 }
    ensures room { vec_capacity rows.new ≡ vec_capacity rows.old }
{
    let mut row = frame.pages;
    give_all(pool, &mut row);
    rows.push_reserved(row);
}

/// The greatest number of boards that can be kept.
pub const FRAMES_LIMIT: u32 = 4096;

impl Store {
    /// No board, with the memory for `frames` of them.
    pub(crate) fn new(alloc: Global, pages: u32, frames: usize) -> Result<Store, OutOfMemory>
        requires some { 1 ≤ pages }
        requires limit { pages ≤ POOL_LIMIT }
        ensures pool { IfOk result (λ store. store.pool ≡ replicate pages None) }
        ensures kept { IfOk result (λ store. store.kept.items ≡ []) }
        ensures spare { IfOk result (λ store. store.spare.items ≡ []) }
        ensures rows { IfOk result (λ store. AreRows store.rows.items) }
        ensures count { IfOk result (λ store. vec_len store.rows ≡ frames) }
        ensures kept_room { IfOk result (λ store. frames ≤ vec_capacity store.kept) }
        ensures spare_room { IfOk result (λ store. frames ≤ vec_capacity store.spare) }
        ensures rows_room { IfOk result (λ store. frames ≤ vec_capacity store.rows) }
    {
        let pool = PagePool::new(alloc, pages)?;
        let kept = Vec::with_capacity(alloc, frames)?;
        let spare = Vec::with_capacity(alloc, frames)?;
        let rows = empty_rows(alloc, frames)?;
        Ok(Store {
            pool,
            kept,
            spare,
            rows,
        })
    }

    /// Whether fewer pages are free than a board has, or as many boards are kept as may be.
    pub(crate) fn is_crowded(&self, limit: u32) -> bool
        ensures { result ≡ (nat_lt (length self.now.pool) (live_of self.now.pool + BOARD_PAGES) || nat_le limit (vec_len self.now.kept)) }
    {
        self.pool.capacity() < self.pool.live() + BOARD_PAGES as u32
            || limit as usize <= self.kept.len()
    }

    /// Copies the board of a frame.
    pub(crate) fn board(&self, frame: &Frame, into: &mut BoardState)
        requires { IsFrame self.now.pool frame.now }
        ensures { into.new ≡ board_of self.now.pool frame.now }
    {
        frame.rest.put(into);
        let (ram, vram) = frame.pages.split_at(RAM_PAGES);
        copy(&self.pool, ram, &mut into.ram);
        copy(&self.pool, vram, &mut into.vram);
    }

    /// Keeps a board as the last, in pages that it shares with the one before where they are equal.
    pub(crate) fn keep(&mut self, state: &BoardState)
        requires frames { All (IsFrame self.old.pool) self.old.kept.items }
        requires holders { HoldsFrames self.old.pool self.old.kept.items }
        requires few { vec_len self.old.kept < FRAMES_LIMIT }
        requires free { live_of self.old.pool + BOARD_PAGES ≤ length self.old.pool }
        requires rows { AreRows self.old.rows.items }
        requires row { 0 < vec_len self.old.rows }
        requires room { vec_len self.old.kept < vec_capacity self.old.kept }
        ensures kept { IsKept self.old.pool self.old.kept.items self.new.pool state.now self.new.kept.items }
        ensures live { live_of self.new.pool ≡ live_of self.old.pool + row_taken self.old.pool (last_of self.old.kept.items) state.now BOARD_PAGES }
        ensures kept_room { vec_capacity self.new.kept ≡ vec_capacity self.old.kept }
        ensures holders { HoldsFrames self.new.pool self.new.kept.items }
        ensures bytes { KeepsBytes self.old.pool self.new.pool }
        ensures len { length self.new.pool ≡ length self.old.pool }
        ensures spare { self.new.spare ≡ self.old.spare }
        ensures rows { AreRows self.new.rows.items }
        ensures rows_room { vec_capacity self.new.rows ≡ vec_capacity self.old.rows }
        ensures count { vec_len self.new.rows + 1 ≡ vec_len self.old.rows }
    {
        let mut pages = self.rows.pop().unwrap();
        hold_all(&mut self.pool, self.kept.last(), state, &mut pages);
        let rest = Rest::of(state);
        self.kept.push_reserved(Frame { rest, pages });
    }

    /// Drops the second, fourth, sixth board and so on.
    pub(crate) fn thin(&mut self)
        requires frames { AreFrames self.old.kept.items }
        requires holders { HoldsFrames self.old.pool self.old.kept.items }
        requires kept_room { vec_len self.old.kept ≤ vec_capacity self.old.kept }
        requires spare { self.old.spare.items ≡ [] }
        requires spare_room { vec_len self.old.kept ≤ vec_capacity self.old.spare }
        requires rows { AreRows self.old.rows.items }
        requires rows_room { vec_len self.old.kept + vec_len self.old.rows ≤ vec_capacity self.old.rows }
        ensures kept { self.new.kept.items ≡ thinned self.old.kept.items }
        ensures kept_room { vec_capacity self.new.kept ≡ vec_capacity self.old.kept }
        ensures holders { HoldsFrames self.new.pool self.new.kept.items }
        ensures bytes { LeavesBytes self.old.pool self.new.pool }
        ensures len { length self.new.pool ≡ length self.old.pool }
        ensures spare { self.new.spare.items ≡ [] }
        ensures spare_room { vec_capacity self.new.spare ≡ vec_capacity self.old.spare }
        ensures rows { AreRows self.new.rows.items }
        ensures rows_room { vec_capacity self.new.rows ≡ vec_capacity self.old.rows }
        ensures count { vec_len self.new.kept + vec_len self.new.rows ≡ vec_len self.old.kept + vec_len self.old.rows }
    {
        while let Some(frame) = self.kept.pop() {
            if self.kept.len() % 2 == 0 {
                self.spare.push_reserved(frame);
            } else {
                give(&mut self.pool, &mut self.rows, frame);
            }
        }
        while let Some(frame) = self.spare.pop() {
            self.kept.push_reserved(frame);
        }
    }

    /// Drops every second board, for as long as there may be too few pages for one more or no room.
    pub(crate) fn make_room(&mut self, limit: u32)
        requires { IsStore self.old limit }
        ensures store { IsStore self.new limit }
        ensures room { MakesRoom (keys_of self.old limit) (keys_of self.new limit) }
    {
        while self.is_crowded(limit) {
            self.thin();
        }
    }

    /// Drops all boards.
    pub(crate) fn clear(&mut self)
        requires frames { AreFrames self.old.kept.items }
        requires holders { HoldsFrames self.old.pool self.old.kept.items }
        requires rows { AreRows self.old.rows.items }
        requires rows_room { vec_len self.old.kept + vec_len self.old.rows ≤ vec_capacity self.old.rows }
        ensures kept { self.new.kept.items ≡ [] }
        ensures kept_room { vec_capacity self.new.kept ≡ vec_capacity self.old.kept }
        ensures holders { HoldsFrames self.new.pool [] }
        ensures len { length self.new.pool ≡ length self.old.pool }
        ensures spare { self.new.spare ≡ self.old.spare }
        ensures rows { AreRows self.new.rows.items }
        ensures rows_room { vec_capacity self.new.rows ≡ vec_capacity self.old.rows }
        ensures count { vec_len self.new.rows ≡ vec_len self.old.kept + vec_len self.old.rows }
    {
        while let Some(frame) = self.kept.pop() {
            give(&mut self.pool, &mut self.rows, frame);
        }
    }
}

/// Rows for the pages of boards, this many.
fn empty_rows(alloc: Global, count: usize) -> Result<Vec<Vec<Page>>, OutOfMemory>
    ensures rows { IfOk result (λ rows. AreRows rows.items) }
    ensures count { IfOk result (λ rows. vec_len rows ≡ count) }
    ensures room { IfOk result (λ rows. count ≤ vec_capacity rows) }
{
    let mut rows = Vec::with_capacity(alloc, count)?;
    for _ in 0..count {
        rows.push_reserved(Vec::with_capacity(alloc, BOARD_PAGES)?);
    }
    Ok(rows)
}
