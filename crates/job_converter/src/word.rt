// The layout that the program's argument names.
ghost use Rattle.std.specs.Prelude.{◌≡◌};
ghost use Rattle.job_converter.specs.Program.{is_word, layout_named};

fn is_word(word: &[u8], a: u8, b: u8, c: u8) -> bool
    ensures { result ≡ is_word word.now a b c }
{
    if word.len() != 3 {
        return false;
    }
    (word[0] == a) & (word[1] == b) & (word[2] == c)
}

// 0 for `old`, 1 for `new`, and 2, which is none, for another word.
pub fn layout_named(word: &[u8]) -> u32
    ensures { result ≡ layout_named word.now }
{
    if is_word(word, b'o', b'l', b'd') {
        return 0;
    }
    if is_word(word, b'n', b'e', b'w') {
        return 1;
    }
    2
}
