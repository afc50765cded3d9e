//! The live blocks, in order of their names.
ghost use Rattle.std.specs.Prelude.{◌≡◌, ◌≤◌, ◌<◌, ◌^◌, [], None, true, is_some, length, nat_le, IfOk, sum_by};
ghost use Rattle.std.specs.HashMap.{values, IsEmpty};
ghost use Rattle.size_round.specs.Sizes.{limit};
ghost use Rattle.heap_core.specs.Names.{named_at, with_named, without_name, asked_by, in_order, together, IsTable};
ghost use Rattle.heap_core.specs.Performing.{most_live};

use crate::Named;
use layer_core::Block;
use space_core::NoMemory;
use std::alloc::Global;
use std::collections::HashMap;
use std::marker::Model;

/// How many blocks are live at most.
const MOST_LIVE: u32 = 65_536;

/// How many places the map has: twice as many as are live, since a map that is at most half full
/// makes its places free again in the memory that it has, and takes no more.
const PLACES: usize = 131_072;

/// The live blocks by name, in memory that is taken when the table is made.
///
/// They are in the map, but for those that it refused: its contract doesn't say that a removal gives
/// a place back, so there is memory for all of them beside it.
#[derive(Drop)]
pub struct Table {
    map: HashMap<u32, Block>,
    others: Vec<Named>,
}

impl Model for Table {
    ghost use Rattle.std.specs.Prelude.{List, vec_capacity};
    ghost use Rattle.heap_core.specs.declared.Named.{Named};
    ghost use Rattle.heap_core.specs.Names.{in_order, together, IsRoomy};

    ghost Value = { List Named };

    ghost view = { λ a. in_order (together a.map.entries a.others.items) };

    ghost invariant = { λ a. IsRoomy (in_order (together a.map.entries a.others.items)) (vec_capacity a.others) };
}

impl Table {
    /// An empty table, with memory for 65,536 blocks.
    ///
    /// # Errors
    /// `NoMemory` where the process has no memory for them.
    pub fn new(alloc: Global) -> Result<Table, NoMemory>
        ensures { IfOk result (λ table. table ≡ []) }
    {
        let map = HashMap::with_capacity(alloc, PLACES)?;
        let others = Vec::with_capacity(alloc, MOST_LIVE as usize)?;
        Ok(Table { map, others })
    }

    /// How many blocks are live.
    pub fn len(&self) -> u32
        ensures len { result ≡ length self.now }
        ensures most { result ≤ most_live }
    {
        self.map.len() as u32 + self.others.len() as u32
    }

    /// Whether as many blocks are live as there may be.
    pub fn is_full(&self) -> bool
        ensures { result ≡ nat_le most_live (length self.now) }
    {
        self.len() >= MOST_LIVE
    }

    /// The blocks in the map, and the others.
    pub fn parts(&self) -> (&HashMap<u32, Block>, &[Named])
        ensures all { self.now ≡ in_order (together result.0.now.entries result.1.now) }
        ensures table { IsTable self.now }
    {
        (&self.map, &self.others)
    }

    /// The block of a name, or `None` where the name isn't live.
    pub fn find(&self, name: u32) -> Option<Block>
        ensures block { result ≡ named_at self.now name }
        ensures table { IsTable self.now }
    {
        match self.map.get(&name) {
            Some(block) => Some(*block),
            None => find_among(&self.others, name),
        }
    }

    /// Puts a block under a name that isn't live. It takes no memory.
    pub fn insert(&mut self, named: Named)
        requires fresh { named_at self.old named.name ≡ None }
        requires room { length self.old < most_live }
        requires short { named.block.len ≤ limit }
        ensures { self.new ≡ with_named named self.old }
    {
        match self.map.insert(named.name, named.block) {
            Ok(_) => {}
            Err(_) => self.others.push(named).unwrap(),
        }
    }

    /// Takes the block of a name out, or answers `None` where the name isn't live.
    pub fn remove(&mut self, name: u32) -> Option<Block>
        ensures block { result ≡ named_at self.old name }
        ensures after { self.new ≡ without_name name self.old }
        ensures table { IsTable self.old }
    {
        match self.map.remove(&name) {
            Some(block) => Some(block),
            None => {
                let block = find_among(&self.others, name);
                self.others.retain(|named| named.name != name);
                block
            }
        }
    }

    /// Puts another block under a name that is live. It takes no memory.
    pub fn replace(&mut self, named: Named)
        requires live { is_some (named_at self.old named.name) ≡ true }
        requires short { named.block.len ≤ limit }
        ensures { self.new ≡ with_named named (without_name named.name self.old) }
    {
        match self.map.get_mut(&named.name) {
            Some(block) => *block = named.block,
            None => {
                self.remove(named.name);
                self.insert(named);
            }
        }
    }

    /// Takes all blocks out.
    pub fn clear(&mut self)
        ensures { self.new ≡ [] }
    {
        take_each(&mut self.map);
        self.others.clear();
    }

    /// How many bytes the live blocks have together.
    pub fn asked(&self) -> u64
        ensures { result ≡ asked_by self.now }
    {
        asked_in_map(&self.map) + asked_among(&self.others)
    }
}

// Takes the blocks of a map out one by one, in time for each of them: at once it would be for each place.
fn take_each(map: &mut HashMap<u32, Block>)
    ensures { IsEmpty map.new }
{
    while let Some(name) = map.keys().next().copied() {
        map.remove(&name);
    }
}

// How many bytes the blocks of a map have together.
fn asked_in_map(map: &HashMap<u32, Block>) -> u64
    requires { sum_by (λ b. b.len) (values map.now) < 2 ^ 64 }
    ensures { result ≡ sum_by (λ b. b.len) (values map.now) }
{
    map.values().map(|block| block.len).sum()
}

// How many bytes blocks have together.
fn asked_among(others: &[Named]) -> u64
    requires { asked_by others.now < 2 ^ 64 }
    ensures { result ≡ asked_by others.now }
{
    others.iter().map(|named| named.block.len).sum()
}

// The block of a name among some, or `None` where none has it.
fn find_among(others: &[Named], name: u32) -> Option<Block>
    ensures { result ≡ named_at others.now name }
{
    let named = others.iter().find(|named| named.name == name)?;
    Some(named.block)
}
