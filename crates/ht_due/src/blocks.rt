ghost use Rattle.std.specs.Prelude.{◌≡◌, ◌+◌, ◌*◌, false, ◌<◌, ◌≤◌, length, OnOk, slice_get, vec_capacity, vec_len};
ghost use Rattle.std.specs.Option.{option_and_then};
ghost use Rattle.std.specs.Ordering.{is_gt};
ghost use Rattle.ht_due.specs.Blocks.{AreBlocks, AreFew, IsIn, joined, joined_at, pushed_on, tidied};
ghost use Rattle.ht_due.specs.declared.block.TheConstants.{MOST};
ghost use Rattle.ht_due.specs.Dues.{compare_dues, has, next_after, put_due, without};

use crate::Due;
use crate::block::{Block, MOST};
use ht_base::Memory;
use std::alloc::Global;

// The place of the block in which a due stands or belongs.
fn block_of(blocks: &[Block], due: Due) -> usize
    requires some { 1 ≤ length blocks.now }
    requires blocks { AreBlocks blocks.now }
    ensures { IsIn due blocks.now result (result + 1) }
{
    let mut low = 0;
    let mut high = blocks.len();
    while high - low > 1 {
        (low, high) = narrowed(blocks, due, low, high);
    }
    low
}

// Looks at the block in the middle, and leaves those before it or the others.
fn narrowed(blocks: &[Block], due: Due, low: usize, high: usize) -> (usize, usize)
    requires more { low + 1 < high }
    requires blocks { AreBlocks blocks.now }
    requires between { IsIn due blocks.now low high }
    ensures between { IsIn due blocks.now result.0 result.1 }
    ensures less { result.1 + low < high + result.0 }
{
    let middle = low + (high - low) / 2;
    if begins_behind(&blocks[middle], due) {
        (low, middle)
    } else {
        (middle, high)
    }
}

fn begins_behind(block: &Block, due: Due) -> bool
    requires { 1 ≤ length block.now }
    ensures { (first : Due) → slice_get block.now 0 ≡ Some first
        → result ≡ is_gt (compare_dues first due) }
{
    match block.first() {
        Some(first) => first > due,
        None => false,
    }
}

// The first due of a block, if there is one.
pub(crate) fn first_of(blocks: &[Block], place: usize) -> Option<Due>
    ensures { result ≡ option_and_then (λ b. slice_get b 0) (slice_get blocks.now place) }
{
    match blocks.get(place) {
        Some(block) => block.first(),
        None => None,
    }
}

// Makes more blocks, for which there is room.
pub(crate) fn make(alloc: Global, free: &mut Vec<Block>, more: usize) -> Result<(), Memory>
    requires { vec_len free.old + more ≤ vec_capacity free.old }
    ensures capacity { vec_capacity free.new ≡ vec_capacity free.old }
    ensures kept { vec_len free.old ≤ vec_len free.new }
    ensures most { vec_len free.new ≤ vec_len free.old + more }
    ensures made { OnOk result (vec_len free.new ≡ vec_len free.old + more) }
{
    for _ in 0..more {
        free.push_reserved(Block::new(alloc)?);
    }
    Ok(())
}

// Puts a due in its place.
pub(crate) fn put(blocks: &mut Vec<Block>, free: &mut Vec<Block>, due: Due)
    requires blocks { AreBlocks blocks.old.items }
    requires absent { has due (joined blocks.old.items) ≡ false }
    requires room { 2 * length (joined blocks.old.items) + MOST + 2
        ≤ MOST * (vec_len blocks.old + vec_len free.old) }
    requires capacity { vec_len blocks.old + vec_len free.old ≤ vec_capacity blocks.old }
    ensures dues { joined blocks.new.items ≡ put_due (joined blocks.old.items) due }
    ensures blocks { AreBlocks blocks.new.items }
    ensures all { vec_len blocks.new + vec_len free.new ≡ vec_len blocks.old + vec_len free.old }
    ensures capacity { vec_capacity blocks.new ≡ vec_capacity blocks.old }
    ensures free_capacity { vec_capacity free.new ≡ vec_capacity free.old }
{
    if blocks.is_empty() {
        push_on(blocks, free, 0, due);
        return;
    }
    let place = block_of(blocks, due);
    if let Some(last) = blocks[place].put(due) {
        push_on(blocks, free, place + 1, last);
    }
}

// Takes a due out, and says whether it was there.
pub(crate) fn take(blocks: &mut Vec<Block>, free: &mut Vec<Block>, due: Due) -> bool
    requires blocks { AreBlocks blocks.old.items }
    requires capacity { vec_len blocks.old + vec_len free.old ≤ vec_capacity free.old }
    ensures dues { joined blocks.new.items ≡ without (joined blocks.old.items) due }
    ensures found { result ≡ has due (joined blocks.old.items) }
    ensures blocks { AreBlocks blocks.new.items }
    ensures all { vec_len blocks.new + vec_len free.new ≡ vec_len blocks.old + vec_len free.old }
    ensures capacity { vec_capacity blocks.new ≡ vec_capacity blocks.old }
    ensures free_capacity { vec_capacity free.new ≡ vec_capacity free.old }
{
    if blocks.is_empty() {
        return false;
    }
    let place = block_of(blocks, due);
    let is_there = blocks[place].take(due);
    tidy(blocks, free, place);
    is_there
}

// The first due that comes after this one.
pub(crate) fn after(blocks: &[Block], due: Due) -> Option<Due>
    requires { AreBlocks blocks.now }
    ensures { result ≡ next_after due (joined blocks.now) }
{
    if blocks.is_empty() {
        return None;
    }
    let place = block_of(blocks, due);
    match blocks[place].after(due) {
        Some(next) => Some(next),
        None => first_of(blocks, place + 1),
    }
}

// Puts a due into a block in front of the others, or into a new one there where this is full.
fn push_on(blocks: &mut Vec<Block>, free: &mut Vec<Block>, place: usize, due: Due)
    requires place { place ≤ length blocks.old.items }
    requires room { length (pushed_on place due blocks.old.items)
        ≤ vec_len blocks.old + vec_len free.old }
    requires capacity { vec_len blocks.old + vec_len free.old ≤ vec_capacity blocks.old }
    ensures blocks { blocks.new.items ≡ pushed_on place due blocks.old.items }
    ensures all { vec_len blocks.new + vec_len free.new ≡ vec_len blocks.old + vec_len free.old }
    ensures capacity { vec_capacity blocks.new ≡ vec_capacity blocks.old }
    ensures free_capacity { vec_capacity free.new ≡ vec_capacity free.old }
{
    if place < blocks.len() {
        if blocks[place].len() < MOST {
            blocks[place].put_first(due);
            return;
        }
    }
    match free.pop() {
        Some(mut block) => {
            block.start(due);
            let _ = blocks.insert(place, block);
        }
        None => unreachable!(),
    }
}

// Joins a block that lost a due with the next one and with the one before, where they fit in one.
fn tidy(blocks: &mut Vec<Block>, free: &mut Vec<Block>, place: usize)
    requires few { AreFew blocks.old.items }
    requires capacity { vec_len blocks.old + vec_len free.old ≤ vec_capacity free.old }
    ensures blocks { blocks.new.items ≡ tidied place blocks.old.items }
    ensures all { vec_len blocks.new + vec_len free.new ≡ vec_len blocks.old + vec_len free.old }
    ensures capacity { vec_capacity blocks.new ≡ vec_capacity blocks.old }
    ensures free_capacity { vec_capacity free.new ≡ vec_capacity free.old }
{
    join(blocks, free, place);
    if place > 0 {
        join(blocks, free, place - 1);
    }
}

// Joins a block with the next one, where there is one and both fit in one.
fn join(blocks: &mut Vec<Block>, free: &mut Vec<Block>, place: usize)
    requires few { AreFew blocks.old.items }
    requires capacity { vec_len blocks.old + vec_len free.old ≤ vec_capacity free.old }
    ensures blocks { blocks.new.items ≡ joined_at place blocks.old.items }
    ensures few { AreFew blocks.new.items }
    ensures all { vec_len blocks.new + vec_len free.new ≡ vec_len blocks.old + vec_len free.old }
    ensures capacity { vec_capacity blocks.new ≡ vec_capacity blocks.old }
    ensures free_capacity { vec_capacity free.new ≡ vec_capacity free.old }
{
    let len = blocks.len();
    if len < 2 || place > len - 2 {
        return;
    }
    if blocks[place].len() + blocks[place + 1].len() > MOST {
        return;
    }
    let mut next = blocks.remove(place + 1);
    blocks[place].take_all(&mut next);
    free.push_reserved(next);
}
