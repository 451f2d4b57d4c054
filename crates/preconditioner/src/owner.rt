// The joint of each row, side by side: runs of equal owner are the blocks of mode 2.
ghost use Rattle.std.specs.Prelude.{◌≡◌, ◌+◌, ◌*◌, ◌≤◌, length, get_or};
ghost use Rattle.loops.specs.Tabulate.{tabulate};

pub fn gather_owners(words: &[u32], owners: &mut [u32])
    requires { 8 * length owners.old ≤ length words.now }
    ensures { owners.new ≡ tabulate (λ i. get_or words.now (8 * i + 6) 0) (length owners.old) }
{
    for i in 0..owners.len() {
        owners[i] = words[8 * i + 6];
    }
}
