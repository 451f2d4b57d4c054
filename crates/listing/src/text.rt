// Text into lent bytes. Every function here and above writes from the byte `at` on and returns the place after what it wrote.
ghost use Rattle.std.specs.Prelude.{[], ◌∷◌};
ghost use Rattle.listing.specs.Written.{Room, Wrote};

pub fn put_byte(out: &mut [u8], at: usize, b: u8) -> usize
    requires { Room out.old at (b ∷ []) }
    ensures { Wrote out.old at (b ∷ []) out.new result }
{
    out[at] = b;
    at + 1
}

pub fn put_text(out: &mut [u8], at: usize, text: &[u8]) -> usize
    requires { Room out.old at text.now }
    ensures { Wrote out.old at text.now out.new result }
{
    let end = at + text.len();
    out[at..end].copy_from_slice(text);
    end
}
