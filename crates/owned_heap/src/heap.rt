//! The heap itself.
ghost use Rattle.std.specs.Prelude.{◌≡◌, ◌≢◌, ◌+◌, ◌≤◌, ◌<◌, ◌%◌, true, false, length, min, take, is_none, is_some, slice_set, slice_index, IfSome, IfNone};
ghost use Rattle.std.specs.Fn.{FnOnceReturnsAtMut};
ghost use Rattle.space_core.specs.Words.{write_from};
ghost use Rattle.layer_rules.specs.Blocks.{end_of};
ghost use Rattle.owned_heap.specs.Events.{made};
ghost use Rattle.owned_heap.specs.Altered.{IsAltered};

use crate::block::{Event, OwnedBlock};
use ghost_log::Log;
use layer_core::{Block, Fact, Layer, Offers, Refused};
use space_core::Space;
use std::marker::Model;

/// Blocks of a root layer, in memory of its own. The root is open from when the heap is made until it is dropped.
pub struct OwnedHeap<L: Layer> {
    space: Space,
    root: L,
    events: Log<Event>,
    births: Log<()>,
}

impl<L: Layer> Model for OwnedHeap<L> {
    ghost use Rattle.std.specs.Prelude.{length};
    ghost use Rattle.owned_heap.specs.Owned.{Owned, IsHeap};

    ghost Value = { Owned L };

    ghost view = { λ a. record { root = a.root; memory = a.space; events = a.events.items } };

    ghost invariant = { λ a. IsHeap (L.model a.root) a.space a.events.items (length a.births.items) };
}

impl<L: Layer> Drop for OwnedHeap<L> {
    fn drop(self) {
        let OwnedHeap {
            mut space,
            mut root,
            events: _,
            births: _,
        } = self;
        root.tear_down(&mut space);
    }
}

impl<L: Layer> OwnedHeap<L> {
    ghost use Rattle.std.specs.Prelude.{[], ◌∷◌, Ok, Err, IfOk, IfErr, MatchOption};
    ghost use Rattle.std.specs.Bool.{OnTrue, OnFalse};
    ghost use Rattle.layer_rules.specs.Layering.{IsFactOf};
    ghost use Rattle.owned_heap.specs.Plans.{IsPlan, is_alignment, begun_in};
    ghost use Rattle.owned_heap.specs.Events.{made, is_live, IsApartFromLive};
    ghost use Rattle.owned_heap.specs.Owned.{IsLive, bytes_of, is_refused, is_refused_at, holds, extent_len, AllocatesIn, AlignedAllocatesIn, ExpandsIn, ReallocatesIn, OwnsIn, DeallocatesIn, DeallocatesAllIn, WritesIn};

    // The heap of a closed root on the one leaf of a Space in which no cell is taken.
    pub(crate) fn open(space: Space, root: L) -> Result<OwnedHeap<L>, Refused>
        requires { IsPlan (L.model root) space }
        ensures empty { IfOk result (λ heap. (b : _) → is_live heap.events b ≡ false) }
        ensures rules { IfOk result (λ heap. (L.model heap.root).rules ≡ (L.model root).rules) }
        ensures ok { IfOk result (λ heap. (L.model root).rules.set_up 0 space.cells ≡ Ok (begun_in L.model heap)) }
        ensures err { IfErr result (λ refused. (L.model root).rules.set_up 0 space.cells ≡ Err refused.node) }
    {
        let mut space = space;
        let mut root = root;
        root.set_up(&mut space, 0)?;
        let (before, births) = past();
        Ok(OwnedHeap {
            space,
            root,
            events: before.and(&Event::Emptied),
            births,
        })
    }

    /// How many nodes the layers have.
    pub fn nodes(&self) -> u32
        ensures { result ≡ (L.model self.now.root).rules.nodes }
    {
        self.root.nodes()
    }

    /// What the report says of a node, counted in preorder from the root as 0.
    pub fn fact(&self, node: u32) -> Fact
        requires { node < (L.model self.now.root).rules.nodes }
        ensures { IsFactOf (L.model self.now.root) self.now.memory node result }
    {
        self.root.fact(&self.space, node)
    }

    /// Which optional calls the root offers.
    pub fn offers(&self) -> Offers
        ensures { result ≡ (L.model self.now.root).rules.offers }
    {
        self.root.offers()
    }

    /// The number of which the place of each block is a multiple.
    pub fn alignment(&self) -> u64
        ensures { result ≡ (L.model self.now.root).rules.alignment }
    {
        self.root.alignment()
    }

    /// The size that is best asked in place of `n`.
    pub fn good_alloc_size(&self, n: u64) -> u64
        ensures good { result ≡ (L.model self.now.root).rules.good_alloc_size n }
        ensures enough { n ≤ result }
    {
        self.root.good_alloc_size(n)
    }

    /// A block of `n` bytes, or `None` where 0 bytes are asked or the root refuses.
    pub fn allocate(&mut self, n: u64) -> Option<OwnedBlock>
        ensures none { is_none result ≡ is_refused L.model self.old n }
        ensures events { MatchOption result (self.new.events ≡ self.old.events) (λ b. self.new.events ≡ Event.Made b ∷ self.old.events) }
        ensures number { IfSome result (λ b. b.number ≡ made self.old.events) }
        ensures len { IfSome result (λ b. b.block.len ≡ n) }
        ensures size { IfSome result (λ b. length (bytes_of self.new b) ≡ n) }
        ensures apart { IfSome result (λ b. IsApartFromLive self.old.events b) }
        ensures others { (c : _) → c.number ≢ made self.old.events → bytes_of self.new c ≡ bytes_of self.old c }
        ensures rule { AllocatesIn L.model self.old self.new n result }
    {
        match self.root.allocate(&mut self.space, n) {
            Some(block) => {
                let new = OwnedBlock::after(&self.births, block);
                self.births = self.births.and(&());
                self.events = self.events.and(&Event::Made(new.again()));
                Some(new)
            }
            None => None,
        }
    }

    /// A block of `n` bytes at a multiple of `a`, or `None` where the root doesn't offer that, 0 bytes are asked or the root refuses.
    pub fn aligned_allocate(&mut self, n: u64, a: u64) -> Option<OwnedBlock>
        requires { is_alignment a ≡ true }
        ensures none { is_none result ≡ is_refused_at L.model self.old n a }
        ensures events { MatchOption result (self.new.events ≡ self.old.events) (λ b. self.new.events ≡ Event.Made b ∷ self.old.events) }
        ensures number { IfSome result (λ b. b.number ≡ made self.old.events) }
        ensures len { IfSome result (λ b. b.block.len ≡ n) }
        ensures size { IfSome result (λ b. length (bytes_of self.new b) ≡ n) }
        ensures apart { IfSome result (λ b. IsApartFromLive self.old.events b) }
        ensures aligned { IfSome result (λ b. b.block.place % a ≡ 0) }
        ensures others { (c : _) → c.number ≢ made self.old.events → bytes_of self.new c ≡ bytes_of self.old c }
        ensures rule { AlignedAllocatesIn L.model self.old self.new n a result }
        ensures unoffered { (L.model self.old.root).rules.offers.aligned ≡ false → self.new ≡ self.old }
    {
        if !self.root.offers().aligned {
            return None;
        }
        match self.root.aligned_allocate(&mut self.space, n, a) {
            Some(block) => {
                let new = OwnedBlock::after(&self.births, block);
                self.births = self.births.and(&());
                self.events = self.events.and(&Event::Made(new.again()));
                Some(new)
            }
            None => None,
        }
    }

    /// Makes a block longer by `delta` bytes where it stands, or answers `false` where the root doesn't offer that or refuses.
    pub fn expand(&mut self, b: &mut OwnedBlock, delta: u64) -> bool
        requires { IsLive self.old b.old }
        ensures events { OnTrue result (self.new.events ≡ Event.Made b.new ∷ (Event.Gone b.old ∷ self.old.events)) }
        ensures number { OnTrue result (b.new.number ≡ made self.old.events) }
        ensures place { OnTrue result (b.new.block.place ≡ b.old.block.place) }
        ensures len { OnTrue result (b.new.block.len ≡ b.old.block.len + delta) }
        ensures size { OnTrue result (length (bytes_of self.new b.new) ≡ b.old.block.len + delta) }
        ensures apart { OnTrue result (IsApartFromLive (Event.Gone b.old ∷ self.old.events) b.new) }
        ensures kept { OnTrue result (take b.old.block.len (bytes_of self.new b.new) ≡ bytes_of self.old b.old) }
        ensures same { OnFalse result (b.new ≡ b.old) }
        ensures same_events { OnFalse result (self.new.events ≡ self.old.events) }
        ensures same_bytes { OnFalse result (bytes_of self.new b.old ≡ bytes_of self.old b.old) }
        ensures others { (c : _) → c.number ≢ b.old.number → c.number ≢ made self.old.events → bytes_of self.new c ≡ bytes_of self.old c }
        ensures rule { ExpandsIn L.model self.old self.new b.old b.new delta result }
        ensures offered { OnTrue result ((L.model self.old.root).rules.offers.expand ≡ true) }
        ensures unoffered { (L.model self.old.root).rules.offers.expand ≡ false → self.new ≡ self.old }
    {
        if !self.root.offers().expand {
            return false;
        }
        let mut block = b.block();
        if !self.root.expand(&mut self.space, &mut block, delta) {
            return false;
        }
        let longer = OwnedBlock::after(&self.births, block);
        self.births = self.births.and(&());
        let gone = self.events.and(&Event::Gone(b.again()));
        self.events = gone.and(&Event::Made(longer.again()));
        *b = longer;
        true
    }

    /// Gives a block the length `n`, at least 1, where it stands or elsewhere. Of its bytes those are kept that both lengths have.
    /// Where it answers `false` the block is as before.
    pub fn reallocate(&mut self, b: &mut OwnedBlock, n: u64) -> bool
        requires live { IsLive self.old b.old }
        requires some { 1 ≤ n }
        ensures events { OnTrue result (self.new.events ≡ Event.Made b.new ∷ (Event.Gone b.old ∷ self.old.events)) }
        ensures number { OnTrue result (b.new.number ≡ made self.old.events) }
        ensures len { OnTrue result (b.new.block.len ≡ n) }
        ensures size { OnTrue result (length (bytes_of self.new b.new) ≡ n) }
        ensures apart { OnTrue result (IsApartFromLive (Event.Gone b.old ∷ self.old.events) b.new) }
        ensures kept { OnTrue result (take (min b.old.block.len n) (bytes_of self.new b.new) ≡ take n (bytes_of self.old b.old)) }
        ensures same { OnFalse result (b.new ≡ b.old) }
        ensures same_events { OnFalse result (self.new.events ≡ self.old.events) }
        ensures same_bytes { OnFalse result (bytes_of self.new b.old ≡ bytes_of self.old b.old) }
        ensures others { (c : _) → c.number ≢ b.old.number → c.number ≢ made self.old.events → bytes_of self.new c ≡ bytes_of self.old c }
        ensures rule { ReallocatesIn L.model self.old self.new b.old b.new n result }
    {
        let mut block = b.block();
        if !self.root.reallocate(&mut self.space, &mut block, n) {
            return false;
        }
        let moved = OwnedBlock::after(&self.births, block);
        self.births = self.births.and(&());
        let gone = self.events.and(&Event::Gone(b.again()));
        self.events = gone.and(&Event::Made(moved.again()));
        *b = moved;
        true
    }

    /// Whether the root says that it owns a block, or `None` where it doesn't offer that. Statistics count the call.
    pub fn owns(&mut self, b: &OwnedBlock) -> Option<bool>
        ensures offered { is_some result ≡ (L.model self.old.root).rules.offers.owns }
        ensures answer { IfSome result (λ yes. yes ≡ holds L.model self.old b.now) }
        ensures events { self.new.events ≡ self.old.events }
        ensures bytes { (c : _) → bytes_of self.new c ≡ bytes_of self.old c }
        ensures memory { self.new.memory ≡ self.old.memory }
        ensures rule { IfSome result (λ yes. OwnsIn L.model self.old self.new b.now yes) }
        ensures same { IfNone result (self.new ≡ self.old) }
    {
        if !self.root.offers().owns {
            return None;
        }
        Some(self.root.owns(b.block()))
    }

    /// How many bytes a block takes up where its route ends.
    pub fn extent(&self, b: &OwnedBlock) -> u64
        requires { IsLive self.now b.now }
        ensures { result ≡ extent_len L.model self.now b.now }
    {
        self.root.extent(b.block())
    }

    /// Takes a block back. It answers `false` where the layer that serves it can't reuse it yet.
    pub fn deallocate(&mut self, b: OwnedBlock) -> bool
        requires { IsLive self.old b }
        ensures events { self.new.events ≡ Event.Gone b ∷ self.old.events }
        ensures others { (c : _) → c.number ≢ b.number → bytes_of self.new c ≡ bytes_of self.old c }
        ensures rule { DeallocatesIn L.model self.old self.new b result }
    {
        let yes = self.root.deallocate(&mut self.space, b.block());
        self.events = self.events.and(&Event::Gone(b));
        yes
    }

    /// The bytes of a block.
    pub fn bytes(&self, b: &OwnedBlock) -> &[u8]
        requires { IsLive self.now b.now }
        ensures bytes { result.now ≡ bytes_of self.now b.now }
        ensures len { length result.now ≡ b.now.block.len }
    {
        self.space.lend(b.place(), b.len())
    }

    /// Writes one byte of a block.
    pub fn set_byte(&mut self, b: &OwnedBlock, at: u64, value: u8)
        requires live { IsLive self.old b.now }
        requires at { at < b.now.block.len }
        ensures events { self.new.events ≡ self.old.events }
        ensures written { bytes_of self.new b.now ≡ slice_set (bytes_of self.old b.now) at value }
        ensures others { (c : _) → c.number ≢ b.now.number → bytes_of self.new c ≡ bytes_of self.old c }
        ensures only { WritesIn self.old self.new (b.now.block.place + at) (value ∷ []) }
    {
        self.space.set_byte(b.place() + at, value);
    }

    /// Writes all bytes of a block.
    pub fn write(&mut self, b: &OwnedBlock, bytes: &[u8])
        requires live { IsLive self.old b.now }
        requires len { length bytes.now ≡ b.now.block.len }
        ensures events { self.new.events ≡ self.old.events }
        ensures written { bytes_of self.new b.now ≡ bytes.now }
        ensures others { (c : _) → c.number ≢ b.now.number → bytes_of self.new c ≡ bytes_of self.old c }
        ensures only { WritesIn self.old self.new b.now.block.place bytes.now }
    {
        self.write_at(b, 0, bytes);
    }

    /// Writes bytes of a block, from one of them on.
    pub fn write_at(&mut self, b: &OwnedBlock, at: u64, bytes: &[u8])
        requires live { IsLive self.old b.now }
        requires inside { at + length bytes.now ≤ b.now.block.len }
        ensures events { self.new.events ≡ self.old.events }
        ensures written { bytes_of self.new b.now ≡ write_from (bytes_of self.old b.now) at bytes.now }
        ensures size { length (bytes_of self.new b.now) ≡ b.now.block.len }
        ensures others { (c : _) → c.number ≢ b.now.number → bytes_of self.new c ≡ bytes_of self.old c }
        ensures only { WritesIn self.old self.new (b.now.block.place + at) bytes.now }
    {
        put(&mut self.space, b.place() + at, bytes);
    }

    /// Lets `change` write the bytes of a block, all or some, where they stand.
    pub fn with_bytes_mut<F: FnOnce(&mut [u8])>(&mut self, b: &OwnedBlock, change: F)
        requires live { IsLive self.old b.now }
        requires callable { F.IsAlwaysCallable change }
        ensures events { self.new.events ≡ self.old.events }
        ensures changed { FnOnceReturnsAtMut F.FnOnce change (bytes_of self.old b.now) tt (bytes_of self.new b.now) }
        ensures size { length (bytes_of self.new b.now) ≡ b.now.block.len }
        ensures others { (c : _) → c.number ≢ b.now.number → bytes_of self.new c ≡ bytes_of self.old c }
        ensures only { WritesIn self.old self.new b.now.block.place (bytes_of self.new b.now) }
    {
        alter(&mut self.space, b.block(), change);
    }

    /// Takes all blocks back, or answers `false` where the root doesn't offer that.
    pub fn deallocate_all(&mut self) -> bool
        ensures offered { result ≡ (L.model self.old.root).rules.offers.all }
        ensures events { OnTrue result (self.new.events ≡ Event.Emptied ∷ self.old.events) }
        ensures same { OnFalse result (self.new ≡ self.old) }
        ensures rule { OnTrue result (DeallocatesAllIn L.model self.old self.new) }
    {
        if !self.root.offers().all {
            return false;
        }
        self.root.deallocate_all(&mut self.space);
        self.events = self.events.and(&Event::Emptied);
        true
    }
}

// What a heap remembers of the time before it: a past of which nothing is known but that its births are counted. So no proof
// has two heaps count on from one number, and takes a block of the one for a block of the other. It must get no clause more.
fn past() -> (Log<Event>, Log<()>)
    ensures counted { length result.1.items ≡ made result.0.items }
{
    let births = Log::unknown();
    let block = OwnedBlock::after(&births, Block { place: 0, len: 0 });
    (Log::filled(&births, &Event::Made(block)), births)
}

// Writes the bytes from a place on.
fn put(space: &mut Space, place: u64, bytes: &[u8])
    requires { place + length bytes.now ≤ length space.old.bytes }
    ensures { space.new ≡ record space.old { bytes = write_from space.old.bytes place bytes.now } }
{
    let lent = space.lend_mut(place, bytes.len() as u64);
    lent.copy_from_slice(bytes);
}

// Lets `change` write the bytes of a block.
fn alter<F: FnOnce(&mut [u8])>(space: &mut Space, b: Block, change: F)
    requires inside { end_of b ≤ length space.old.bytes }
    requires callable { F.IsAlwaysCallable change }
    ensures { IsAltered F.FnOnce change space.old space.new b }
{
    change(space.lend_mut(b.place, b.len));
}
