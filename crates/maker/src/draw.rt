// Links of the table, written. The nodes stand in words that a C caller lends, so each is named by its place.
ghost use Rattle.std.specs.Prelude.{◌≡◌, ◌+◌, ◌-◌, ◌<◌, ◌≤◌};
ghost use Rattle.maker.specs.Walk.{put as written, pair, linked};

use crate::Walked;
use step::lent::put;
use step::table::{CF, CL, NODE_WORDS, NX, PR, W, first_child, last_child};

// Word j of node v.
#[tactic(auto, unfolding(crate::specs::Walk::put))]
fn write(table: &mut [u32], v: u32, j: usize, x: u32)
    requires { j < 9 }
    ensures { table.new ≡ written table.old v j x }
{
    put(table, NODE_WORDS * (v.saturating_sub(1) as usize) + j, x);
}

// Link f of v to u, and link g of u back to v.
#[tactic(auto, unfolding(crate::specs::Walk::pair))]
fn write_pair(table: &mut [u32], v: u32, f: usize, u: u32, g: usize)
    requires { (f < 9) × (g < 9) }
    ensures { table.new ≡ pair table.old v f u g }
{
    write(table, v, f, u);
    write(table, u, g, v);
}

// The links of the qif at from, whose branches came to first and second. The branch that took fewer cycles waits,
// at its first child.
#[tactic(auto, unfolding(crate::specs::Walk::linked))]
pub(crate) fn link_up(table: &mut [u32], from: Walked, first: Walked, second: Walked)
    requires { (from.nodes ≤ 509) × (second.nodes ≤ 510) }
    ensures { table.new ≡ linked from.node (from.nodes + 1) (from.nodes + 2) first.node second.node (second.nodes + 1)
        (second.cycles - first.cycles) (first.cycles - second.cycles) table.old }
{
    let v = from.node;
    let a = from.nodes + 1;
    let b = from.nodes + 2;
    write_pair(table, v, first_child(0), a, CF);
    write_pair(table, v, first_child(1), b, CF);
    write_pair(table, v, last_child(0), first.node, CL);
    write_pair(table, v, last_child(1), second.node, CL);
    write_pair(table, v, NX, second.nodes + 1, PR);
    write(table, a, W, second.cycles.saturating_sub(first.cycles));
    write(table, b, W, first.cycles.saturating_sub(second.cycles));
}
