//! What is noted of 16 places, and the intervals that held ones make.
ghost use Rattle.std.specs.Prelude.{◌≡◌, ◌<◌, ◌≤◌, ◌&&◌, ◌||◌, ◌==◌, ℕ, false, length, nat_lt, nat_le};
ghost use Rattle.someip_tp.specs.Blocks.{is_held, other_end, AreTied, AreUpTo, IsFirstTo, IsLastFrom};

/// What is noted of 16 places of a message: offsets are multiples of 16, so intervals begin between
/// two blocks.
#[derive(Clone, Copy)]
pub(crate) struct Block {
    /// The number of the message that the block is held for.
    pub(crate) message: u32,
    /// The block at the other end, where this is the first or the last one of an interval.
    pub(crate) other: u32,
}

/// Whether a block is held for a message.
pub(crate) fn is_held(blocks: &[Block], message: u32, k: usize) -> bool
    ensures { result ≡ is_held message blocks.now k }
{
    match blocks.get(k) {
        Some(block) => block.message == message,
        None => false,
    }
}

/// Where the interval begins that a block which is not held will be in.
fn first_to(blocks: &[Block], message: u32, k: u32) -> u32
    requires tied { AreTied (is_held message blocks.now) (other_end blocks.now) }
    requires new { is_held message blocks.now k ≡ false }
    ensures { IsFirstTo (is_held message blocks.now) k result }
{
    if k > 0 && is_held(blocks, message, k as usize - 1) {
        blocks[k as usize - 1].other
    } else {
        k
    }
}

/// Where the interval ends that a block which is not held will be in.
fn last_from(blocks: &[Block], message: u32, k: u32) -> u32
    requires tied { AreTied (is_held message blocks.now) (other_end blocks.now) }
    requires new { is_held message blocks.now k ≡ false }
    ensures { IsLastFrom (is_held message blocks.now) k result }
{
    if is_held(blocks, message, k as usize + 1) {
        blocks[k as usize + 1].other
    } else {
        k
    }
}

/// Notes an interval that a block is in by its ends.
fn tie(blocks: &mut [Block], message: u32, k: u32, first: u32, last: u32)
    requires inside { k < length blocks.old }
    requires tied { AreTied (is_held message blocks.old) (other_end blocks.old) }
    requires new { is_held message blocks.old k ≡ false }
    requires first { IsFirstTo (is_held message blocks.old) k first }
    requires last { IsLastFrom (is_held message blocks.old) k last }
    ensures held { (j : ℕ) → is_held message blocks.new j ≡ ((j == k) || is_held message blocks.old j) }
    ensures tied { AreTied (is_held message blocks.new) (other_end blocks.new) }
    ensures numbers { (top : ℕ) → message ≤ top → AreUpTo top blocks.old → AreUpTo top blocks.new }
    ensures len { length blocks.new ≡ length blocks.old }
{
    blocks[k as usize] = Block { message, other: k };
    blocks[first as usize] = Block {
        message,
        other: last,
    };
    blocks[last as usize] = Block {
        message,
        other: first,
    };
}

/// Holds a block for a message, and joins it to the intervals that it touches.
fn hold(blocks: &mut [Block], message: u32, k: u32)
    requires inside { k < length blocks.old }
    requires tied { AreTied (is_held message blocks.old) (other_end blocks.old) }
    ensures held { (j : ℕ) → is_held message blocks.new j ≡ ((j == k) || is_held message blocks.old j) }
    ensures tied { AreTied (is_held message blocks.new) (other_end blocks.new) }
    ensures numbers { (top : ℕ) → message ≤ top → AreUpTo top blocks.old → AreUpTo top blocks.new }
    ensures len { length blocks.new ≡ length blocks.old }
{
    if is_held(blocks, message, k as usize) {
        return;
    }
    let first = first_to(blocks, message, k);
    let last = last_from(blocks, message, k);
    tie(blocks, message, k, first, last);
}

/// Holds blocks for a message, and joins them to the intervals that they touch.
pub(crate) fn hold_all(blocks: &mut [Block], message: u32, from: u32, to: u32)
    requires inside { to ≤ length blocks.old }
    requires tied { AreTied (is_held message blocks.old) (other_end blocks.old) }
    ensures held { (j : ℕ) → is_held message blocks.new j
        ≡ ((nat_le from j && nat_lt j to) || is_held message blocks.old j) }
    ensures tied { AreTied (is_held message blocks.new) (other_end blocks.new) }
    ensures numbers { (top : ℕ) → message ≤ top → AreUpTo top blocks.old → AreUpTo top blocks.new }
    ensures len { length blocks.new ≡ length blocks.old }
{
    for k in from..to {
        hold(blocks, message, k);
    }
}
