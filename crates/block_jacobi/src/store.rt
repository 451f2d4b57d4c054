// The blocks in lent memory: 36 numbers a row, of which those of a block's first row hold its factor.
ghost use Rattle.std.specs.Prelude.{◌≡◌, ◌+◌, ◌*◌, ◌≤◌, length};
ghost use Rattle.block_jacobi.specs.Blocks.{put_block};

pub fn put_block(blocks: &mut [f64], start: usize, lower: &[f64; 36])
    requires { 36 * start + 36 ≤ length blocks.old }
    ensures { blocks.new ≡ put_block blocks.old start lower.now }
{
    let at = 36 * start;
    loops::copy(&mut blocks[at..at + 36], lower);
}
