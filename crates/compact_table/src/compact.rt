// The compact table: of each row the twelve Jacobian numbers and the two body numbers, side by side for the operator's loops.
// A body's linear and angular numbers stand in turn, as the bodies' impulses do (kapitsa_joint, paired.rt): both dots of a body are then made two numbers at a time.
ghost use Rattle.std.specs.Prelude.{◌≡◌, ◌+◌, ◌*◌, ◌≤◌, length};
ghost use Rattle.kapitsa_joint.specs.Row.{row_of, jacobian_of};
ghost use Rattle.compact_table.specs.Compact.{compact_of, put_jacobian_of, put_link_of, Gathered};

use kapitsa_joint::{RowJacobian, jacobian_at};
use kapitsa_math::{put_spread, spread_at};

#[tactic(auto, unfolding(crate::specs::Compact::compact_of))]
pub fn compact_at(jacobians: &[f64], links: &[u32], i: usize) -> RowJacobian
    requires { (12 * i + 12 ≤ length jacobians.now) × (2 * i + 2 ≤ length links.now) }
    ensures { result ≡ compact_of jacobians.now links.now i }
{
    let at = 12 * i;
    let link = 2 * i;
    RowJacobian {
        linear_a: spread_at(jacobians, at),
        angular_a: spread_at(jacobians, at + 1),
        linear_b: spread_at(jacobians, at + 6),
        angular_b: spread_at(jacobians, at + 7),
        body_a: links[link],
        body_b: links[link + 1],
    }
}

#[tactic(auto, unfolding(crate::specs::Compact::put_jacobian_of))]
fn put_jacobian(jacobians: &mut [f64], i: usize, j: RowJacobian)
    requires { 12 * i + 12 ≤ length jacobians.old }
    ensures { jacobians.new ≡ put_jacobian_of jacobians.old i j }
{
    let at = 12 * i;
    let linear_a = j.linear_a;
    let angular_a = j.angular_a;
    let linear_b = j.linear_b;
    let angular_b = j.angular_b;
    put_spread(jacobians, at, linear_a);
    put_spread(jacobians, at + 1, angular_a);
    put_spread(jacobians, at + 6, linear_b);
    put_spread(jacobians, at + 7, angular_b);
}

#[tactic(auto, unfolding(crate::specs::Compact::put_link_of))]
fn put_link(links: &mut [u32], i: usize, j: RowJacobian)
    requires { 2 * i + 2 ≤ length links.old }
    ensures { links.new ≡ put_link_of links.old i j }
{
    let link = 2 * i;
    links[link] = j.body_a;
    links[link + 1] = j.body_b;
}

fn gather_at(numbers: &[f64], words: &[u32], i: usize, jacobians: &mut [f64], links: &mut [u32])
    requires { (27 * i + 27 ≤ length numbers.now) × (8 * i + 8 ≤ length words.now) × (12 * i + 12 ≤ length jacobians.old) × (2 * i + 2 ≤ length links.old) }
    ensures jacobians_after { jacobians.new ≡ put_jacobian_of jacobians.old i (jacobian_of (row_of numbers.now words.now i)) }
    ensures links_after { links.new ≡ put_link_of links.old i (jacobian_of (row_of numbers.now words.now i)) }
{
    let j = jacobian_at(numbers, words, i);
    put_jacobian(jacobians, i, j);
    put_link(links, i, j);
}

// The compact table of the first `rows` rows.
pub fn gather(numbers: &[f64], words: &[u32], rows: usize, jacobians: &mut [f64], links: &mut [u32])
    requires rows_in_bounds { (27 * rows ≤ length numbers.now) × (8 * rows ≤ length words.now) }
    requires rows_in_bounds_2 { (12 * rows ≤ length jacobians.old) × (2 * rows ≤ length links.old) }
    ensures { Gathered (λ i. jacobian_of (row_of numbers.now words.now i)) rows
        jacobians.old links.old jacobians.new links.new }
{
    for i in 0..rows {
        gather_at(numbers, words, i, jacobians, links);
    }
}
