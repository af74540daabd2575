ghost use Rattle.std.specs.Prelude.{◌≡◌, ◌<◌, ◌≤◌, ◌+◌, List, [], IfOk, IfSome, IfNone, All, length, get_or};
ghost use Rattle.keyframes.specs.Keys.{HaveRisingClocks, Keyframe, KeyframesValue, Keeps, last_of, IsNearest, MakesRoom, live_of};

use crate::store::{FRAMES_LIMIT, Store};
use board_base::{BoardState, OutOfMemory};
use page_pool::POOL_LIMIT;
use std::alloc::Global;
use std::marker::Model;

/// The least number of pages: those of two boards.
pub const PAGES_MIN: u32 = 32;

/// The least number of boards that can be kept.
pub const FRAMES_MIN: u32 = 2;

/// Boards with rising clocks, in the pages of one pool.
///
/// Of two neighbours the later one has only those pages for itself that differ.
#[derive(Drop)]
pub struct Keyframes {
    store: Store,
    limit: u32,
}

impl Model for Keyframes {
    ghost use Rattle.keyframes.specs.Keys.{KeyframesValue};

    ghost Value = { KeyframesValue };

    ghost use Rattle.keyframes.specs.Inside.{keys_view, IsWhole};

    ghost view = { keys_view };

    ghost invariant = { IsWhole };
}

impl Keyframes {
    /// No board, with the memory for up to `frames` of them, 2 to `FRAMES_LIMIT`, in `pages` pages,
    /// 32 to `POOL_LIMIT`.
    pub fn new(alloc: Global, pages: u32, frames: u32) -> Result<Keyframes, OutOfMemory>
        requires pages { PAGES_MIN ≤ pages }
        requires pages_limit { pages ≤ POOL_LIMIT }
        requires frames { FRAMES_MIN ≤ frames }
        requires frames_limit { frames ≤ FRAMES_LIMIT }
        ensures { IfOk result (λ keys. keys ≡ record { kept = []; capacity = pages; limit = frames }) }
    {
        let store = Store::new(alloc, pages, frames as usize)?;
        Ok(Keyframes {
            store,
            limit: frames,
        })
    }

    /// Keeps a board, whose clock is past that of the last one. Where there may be too few pages or
    /// no room, every second board is dropped before, as often as it takes.
    pub fn keep(&mut self, state: &BoardState)
        requires later { IfSome (last_of self.old.kept) (λ last. last.board.clock < state.now.clock) }
        ensures { (roomy : KeyframesValue) × MakesRoom self.old roomy × Keeps roomy self.new state.now }
    {
        self.store.make_room(self.limit);
        self.store.keep(state);
    }

    /// The last kept board whose clock isn't above this one; none where there is none. The clocks
    /// of the kept boards rise.
    pub fn nearest(&self, clock: u64) -> Option<u32>
        ensures rising { HaveRisingClocks self.now.kept }
        ensures some { IfSome result (λ index. IsNearest self.now.kept clock index) }
        ensures none { IfNone result (All (λ keyframe. clock < keyframe.board.clock) self.now.kept) }
    {
        let mut index = self.store.kept.len();
        while index > 0 {
            index -= 1;
            if self.store.kept[index].rest.clock <= clock {
                return Some(index as u32);
            }
        }
        None
    }

    /// The clock of a kept board.
    pub fn clock_of(&self, index: u32) -> u64
        requires { index < length self.now.kept }
        ensures { (d : Keyframe) → result ≡ (get_or self.now.kept index d).board.clock }
    {
        self.store.kept[index as usize].rest.clock
    }

    /// Copies a kept board.
    pub fn board(&self, index: u32, into: &mut BoardState)
        requires { index < length self.now.kept }
        ensures { (d : Keyframe) → into.new ≡ (get_or self.now.kept index d).board }
    {
        let frame = &self.store.kept[index as usize];
        self.store.board(frame, into);
    }

    /// How many boards are kept.
    pub fn len(&self) -> u32
        ensures { result ≡ length self.now.kept }
    {
        self.store.kept.len() as u32
    }

    /// How many pages are live.
    pub fn live(&self) -> u32
        ensures { result ≡ live_of self.now }
    {
        self.store.pool.live()
    }

    /// Forgets all boards.
    pub fn clear(&mut self)
        ensures { self.new ≡ record self.old { kept = [] } }
    {
        self.store.clear();
    }
}
