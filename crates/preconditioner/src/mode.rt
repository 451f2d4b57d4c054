// The three preconditioners, by document 01's number. The factor of mode 1 takes a shift (document 02, f).
ghost use Rattle.std.specs.Prelude.{◌≡◌};
ghost use Rattle.preconditioner.specs.Mode.{mode_of};

#[derive(Clone, Copy)]
pub enum Mode {
    Diagonal,
    IncompleteCholesky(f64),
    BlockJacobi,
}

#[tactic(auto, unfolding(crate::specs::Mode::mode_of))]
pub fn mode_of(word: u32, shift: f64) -> Mode
    ensures { result ≡ mode_of word shift }
{
    if word == 0 {
        return Mode::Diagonal;
    }
    if word == 1 {
        return Mode::IncompleteCholesky(shift);
    }
    Mode::BlockJacobi
}
