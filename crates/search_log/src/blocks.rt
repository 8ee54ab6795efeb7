ghost use Rattle.std.specs.Prelude.{◌≡◌, ◌+◌, ◌*◌, ◌%◌, ◌<◌, [], ◌∷◌, ◌++◌, length, map, IsOk, OnOk, OnErr, slice_index_or, slice_set, vec_items, vec_capacity};
ghost use Rattle.search_log.specs.Blocks.{joined, AreBlocks};

use sched_base::NoMemory;
use std::alloc::Global;
use std::marker::Model;

/// How many items a block has room for.
const BLOCK: u32 = 4096;

// The item at a place of the blocks.
fn item_at<T: Copy>(blocks: &[Vec<T>], len: u32, place: u32) -> T
    requires blocks { AreBlocks vec_items vec_capacity len blocks.now }
    requires within { place < len }
    ensures { result ≡ slice_index_or (joined (map vec_items blocks.now)) place result }
{
    let block = blocks[(place / BLOCK) as usize].as_slice();
    block[(place % BLOCK) as usize]
}

// Puts an item at a place of the blocks.
fn put_at<T: Drop>(blocks: &mut [Vec<T>], len: u32, place: u32, item: T)
    requires blocks { AreBlocks vec_items vec_capacity len blocks.old }
    requires within { place < len }
    ensures blocks { AreBlocks vec_items vec_capacity len blocks.new }
    ensures items { joined (map vec_items blocks.new) ≡ slice_set (joined (map vec_items blocks.old)) place item }
{
    let block = &mut blocks[(place / BLOCK) as usize];
    block[(place % BLOCK) as usize] = item;
}

// Opens a block where all are full.
fn open_block<T: Drop>(blocks: &mut Vec<Vec<T>>, len: u32) -> Result<(), NoMemory>
    requires { AreBlocks vec_items vec_capacity len blocks.old.items }
    ensures room { OnOk result (len < 4096 * length blocks.new.items) }
    ensures blocks { AreBlocks vec_items vec_capacity len blocks.new.items }
    ensures items { joined (map vec_items blocks.new.items) ≡ joined (map vec_items blocks.old.items) }
    ensures full { OnErr result (len % 4096 ≡ 0) }
{
    if (len / BLOCK) as usize == blocks.len() {
        let alloc = *blocks.allocator();
        let block = Vec::with_capacity(alloc, BLOCK as usize)?;
        blocks.push(block)?;
    }
    Ok(())
}

// Appends an item in the block that has room for it, which takes no memory.
fn append_at<T: Drop>(blocks: &mut [Vec<T>], len: u32, item: T) -> Result<(), NoMemory>
    requires blocks { AreBlocks vec_items vec_capacity len blocks.old }
    requires room { len < 4096 * length blocks.old }
    ensures done { IsOk result }
    ensures blocks { AreBlocks vec_items vec_capacity (len + 1) blocks.new }
    ensures items { joined (map vec_items blocks.new) ≡ joined (map vec_items blocks.old) ++ item ∷ [] }
{
    blocks[(len / BLOCK) as usize].push(item)?;
    Ok(())
}

/// A list that lies in blocks of 4,096 items, so that nothing is copied when it grows. Contracts see it as the list of its
/// items.
#[derive(Drop)]
pub struct Blocks<T> {
    blocks: Vec<Vec<T>>,
    len: u32,
}

impl<T> Model for Blocks<T> {
    ghost use Rattle.std.specs.Prelude.{List as Items, map, vec_items, vec_capacity};
    ghost use Rattle.search_log.specs.Blocks.{joined, AreBlocks};

    ghost Value = { Items T };

    ghost view = { λ b. joined (map vec_items b.blocks.items) };

    ghost invariant = { λ b. AreBlocks vec_items vec_capacity b.len b.blocks.items };
}

impl<T> Blocks<T> {
    /// The list without an item; it takes no memory.
    pub fn new(alloc: Global) -> Self
        ensures { result ≡ [] }
    {
        Blocks {
            blocks: Vec::new(alloc),
            len: 0,
        }
    }

    /// How many items there are.
    pub fn len(&self) -> u32
        ensures { result ≡ length self.now }
    {
        self.len
    }
}

impl<T: Copy> Blocks<T> {
    /// The item at a place, from 0.
    pub fn get(&self, place: u32) -> T
        requires { place < length self.now }
        ensures { result ≡ slice_index_or self.now place result }
    {
        item_at(self.blocks.as_slice(), self.len, place)
    }
}

impl<T: Drop> Blocks<T> {
    /// Appends an item, or changes nothing for want of memory.
    pub fn push(&mut self, item: T) -> Result<(), NoMemory>
        requires { length self.old < 4294967295 }
        ensures ok { OnOk result (self.new ≡ self.old ++ item ∷ []) }
        ensures err { OnErr result (self.new ≡ self.old) }
        // memory is taken for a new block alone
        ensures full { OnErr result (length self.old % 4096 ≡ 0) }
    {
        open_block(&mut self.blocks, self.len)?;
        append_at(self.blocks.as_mut_slice(), self.len, item)?;
        self.len += 1;
        Ok(())
    }

    /// Puts an item at a place, from 0.
    pub fn set(&mut self, place: u32, item: T)
        requires { place < length self.old }
        ensures { self.new ≡ slice_set self.old place item }
    {
        put_at(self.blocks.as_mut_slice(), self.len, place, item);
    }
}
