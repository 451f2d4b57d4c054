// How many places for pairs n rows call for.
ghost use Rattle.std.specs.Prelude.{◌≡◌};
ghost use Rattle.pairs.specs.Pairs.{pair_room};

const PAIR_LIMIT: u64 = 16384;

fn wide(x: u32) -> u64
    ensures { result ≡ x }
{
    x as u64
}

// One for each two rows, and no more than the limit of 16,384.
pub fn pair_room(rows: u32) -> u32
    ensures { result ≡ pair_room rows }
{
    if rows == 0 {
        return 0;
    }
    let n = wide(rows);
    let all = n * (n - 1) / 2;
    if PAIR_LIMIT < all {
        return 16384;
    }
    all as u32
}
