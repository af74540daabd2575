ghost use Rattle.std.specs.Prelude.{◌≡◌, ◌<◌, ◌≤◌, ◌+◌, ◌^◌, None, IfOk, IfErr, IfSome, IsErr, length, replicate, get_or, ℕ, vec_capacity, ◌-◌, ◌↔◌};
ghost use Rattle.page_pool.specs.Pool.{IsLive, held_at, live_of, pool_taken, pool_shared, pool_given};

use board_base::OutOfMemory;
use std::alloc::Global;
use std::marker::Model;

/// The bytes of a page.
pub const PAGE_LEN: usize = 256;

/// The most pages of a pool.
pub const POOL_LIMIT: u32 = 65536;

/// The answer of a pool whose pages are all held, with their number.
#[derive(Clone, Copy, PartialEq, Eq)]
pub struct Full {
    pub capacity: u32,
}

/// A held page: its place in the pool that made it, which alone is to be handed it.
///
/// One that is dropped without `PagePool::give` stays a holder.
#[derive(Drop)]
pub struct Page {
    place: u32,
}

impl Model for Page {
    ghost use Rattle.std.specs.Prelude.{ℕ};

    ghost Value = { ℕ };

    ghost view = { λ p. p.place };
}

/// The memory of a page, with the number of its holders.
#[derive(Clone, Copy, Drop)]
struct Slot {
    holders: u32,
    bytes: [u8; PAGE_LEN],
}

/// Pages of `PAGE_LEN` bytes, each at a place below the capacity, with 1 or more holders.
#[derive(Drop)]
pub struct PagePool {
    slots: Vec<Slot>,
    free: Vec<u32>,
}

impl Model for PagePool {
    ghost use Rattle.std.specs.Prelude.{List, Option};
    ghost use Rattle.page_pool.specs.Pool.{Holding};

    ghost Value = { List (Option Holding) };

    ghost use Rattle.page_pool.specs.Slots.{pool_view, IsPool};

    ghost view = { pool_view };

    ghost invariant = { IsPool };
}

impl PagePool {
    /// A pool of this many pages, 1 to `POOL_LIMIT`, of which none is held, with all its memory.
    #[tactic(auto, using(crate::proofs::SlotLaws::new))]
    pub fn new(alloc: Global, capacity: u32) -> Result<PagePool, OutOfMemory>
        requires some { 1 ≤ capacity }
        requires limit { capacity ≤ POOL_LIMIT }
        ensures { IfOk result (λ pool. pool ≡ replicate capacity None) }
    {
        let empty = Slot {
            holders: 0,
            bytes: [0; PAGE_LEN],
        };
        let slots = vec![in alloc; empty; capacity as usize]?;
        let free = places(alloc, capacity)?;
        Ok(PagePool { slots, free })
    }

    /// A page with these bytes and one holder, at a place that was free. It is refused where all
    /// places are held, and then nothing changes.
    #[tactic(auto, using(crate::proofs::SlotLaws::taken))]
    pub fn take(&mut self, bytes: &[u8; PAGE_LEN]) -> Result<Page, Full>
        ensures refused { IsErr result ↔ (live_of self.old ≡ length self.old) }
        ensures full { IfErr result (λ full. full.capacity ≡ length self.old) }
        ensures unchanged { IfErr result (λ _. self.new ≡ self.old) }
        ensures free { IfOk result (λ page. (page < length self.old) × (held_at self.old page ≡ None)) }
        ensures taken { IfOk result (λ page. self.new ≡ pool_taken self.old page bytes.now) }
    {
        let capacity = self.capacity();
        match self.free.pop() {
            Some(place) => {
                self.slots[place as usize] = Slot {
                    holders: 1,
                    bytes: *bytes,
                };
                Ok(Page { place })
            }
            None => Err(Full { capacity }),
        }
    }

    /// The same page for one holder more.
    #[tactic(auto, using(crate::proofs::SlotLaws::shared))]
    pub fn share(&mut self, page: &Page) -> Page
        requires live { IsLive self.old page.now }
        requires few { IfSome (held_at self.old page.now) (λ held. held.holders < 2 ^ 32 - 1) }
        ensures same { result ≡ page.now }
        ensures shared { self.new ≡ pool_shared self.old page.now }
    {
        let place = page.place;
        self.slots[place as usize].holders += 1;
        Page { place }
    }

    /// One holder less. The place is free once none is left.
    #[tactic(auto, using(crate::proofs::SlotLaws::given))]
    pub fn give(&mut self, page: Page)
        requires live { IsLive self.old page }
        ensures given { self.new ≡ pool_given self.old page }
    {
        let slot = &mut self.slots[page.place as usize];
        slot.holders -= 1;
        if slot.holders == 0 {
            self.free.push_reserved(page.place);
        }
    }

    /// The bytes of a held page.
    pub fn bytes(&self, page: &Page) -> &[u8; PAGE_LEN]
        requires live { IsLive self.now page.now }
        ensures bytes { IfSome (held_at self.now page.now) (λ held. result.now ≡ held.bytes) }
    {
        &self.slots[page.place as usize].bytes
    }

    /// How many places are held.
    pub fn live(&self) -> u32
        ensures value { result ≡ live_of self.now }
        ensures within { result ≤ length self.now }
    {
        (self.slots.len() - self.free.len()) as u32
    }

    /// How many pages can be held at once.
    pub fn capacity(&self) -> u32
        ensures value { result ≡ length self.now }
        ensures limit { result ≤ POOL_LIMIT }
    {
        self.slots.len() as u32
    }
}

/// The places from 0 on, this many.
fn places(alloc: Global, count: u32) -> Result<Vec<u32>, OutOfMemory>
    ensures len { IfOk result (λ places. length places.items ≡ count) }
    ensures each { IfOk result (λ places. (k d : ℕ) → k < count → get_or places.items k d ≡ k) }
    ensures room { IfOk result (λ places. count ≤ vec_capacity places) }
{
    let mut places = Vec::with_capacity(alloc, count as usize)?;
    for place in 0..count {
        places.push_reserved(place);
    }
    Ok(places)
}
