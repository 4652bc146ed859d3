// The blocks of a taken listing, one after the other in one buffer. A block's second hop is the first of the next, so each line is read once.
ghost use Rattle.std.specs.Prelude.{◌≡◌, ◌++◌, ◌+◌, length, drop};
ghost use Rattle.listing.specs.BlockLaws.{NextHop, hop_at, place_behind};

use crate::hop::read_hop;

// Moves a block's second hop to its front.
fn shift(m: usize, block: &mut [i16])
    requires { length block.old ≡ m + m }
    ensures { block.new ≡ drop m block.old ++ drop m block.old }
{
    block.copy_within(m.., 0);
}

// Reads the hop whose line starts at a place, or zeros where no line is left, and answers where the next line starts.
fn read_next(input: &[u8], place: usize, out: &mut [i16]) -> usize
    requires { NextHop (length out.old) input.now place }
    ensures out_after { out.new ≡ hop_at (length out.old) input.now place }
    ensures value { result ≡ place_behind input.now place }
{
    if place == input.len() {
        out.fill(0);
        return place;
    }
    read_hop(input, place, out)
}

// Goes on to the next block: behind the hop that was second comes the one whose line starts at a place. Answers where the next line starts.
pub fn next_block(input: &[u8], place: usize, m: usize, block: &mut [i16]) -> usize
    requires { NextHop m input.now place × (length block.old ≡ m + m) }
    ensures block_after { block.new ≡ drop m block.old ++ hop_at m input.now place }
    ensures value { result ≡ place_behind input.now place }
{
    shift(m, block);
    read_next(input, place, &mut block[m..])
}
