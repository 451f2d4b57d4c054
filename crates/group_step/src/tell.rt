// What is told of a group: three words, its refusal or 0, its count and its flag; and of an accepted one two numbers, its residual maxima.
ghost use Rattle.std.specs.Prelude.{◌≡◌, cond, ◌+◌, ◌*◌, ◌≤◌, length};
ghost use Rattle.refusals.specs.Told.{told};
ghost use Rattle.group_step.specs.Step.{WordsPut, MaximaPut, TellsGroup};

use position_delivery::PositionPcgResult;
use refusals::Refusal;

fn flag_word(flag: bool) -> u32
    ensures { result ≡ cond flag 1 0 }
{
    if flag {
        return 1;
    }
    0
}

fn tell_words(at: usize, refusal: u32, count: u32, flag: u32, words: &mut [u32])
    requires { at + 3 ≤ length words.old }
    ensures { WordsPut at refusal count flag words.old words.new }
{
    words[at] = refusal;
    words[at + 1] = count;
    words[at + 2] = flag;
}

fn tell_maxima(at: usize, linear: f64, angular: f64, maxima: &mut [f64])
    requires { at + 2 ≤ length maxima.old }
    ensures { MaximaPut at linear angular maxima.old maxima.new }
{
    maxima[at] = linear;
    maxima[at + 1] = angular;
}

pub fn tell_group(
    answer: Result<PositionPcgResult, Refusal>,
    g: u32,
    group_answers: &mut [u32],
    group_maxima: &mut [f64],
)
    requires { (3 * g + 3 ≤ length group_answers.old) × (2 * g + 2 ≤ length group_maxima.old) }
    ensures { TellsGroup g (told answer) group_answers.old group_answers.new group_maxima.old group_maxima.new }
{
    let at = g as usize;
    match answer {
        Ok(r) => {
            let flag = flag_word(r.converged);
            tell_words(3 * at, 0, r.iterations, flag, group_answers);
            tell_maxima(
                2 * at,
                r.linear_residual_m,
                r.angular_residual_rad,
                group_maxima,
            );
        }
        Err(refusal) => {
            tell_words(3 * at, refusal.number(), 0, 0, group_answers);
        }
    }
}
