// Links of the qif table, node by node.
ghost use Rattle.std.specs.Prelude.{◌≡◌, ◌<◌};
ghost use Rattle.step.specs.View.{words_in};
ghost use Rattle.links.specs.Check.{lowest_of, returns, children_return, unpaired};

use step::table::{CF, CL, NX, Nodes, PR, first_child, last_child};

// Links by number, as in step's table. Link j of node v is 0, or leads to a node from which link g or link h leads back.
#[tactic(auto, unfolding(crate::specs::Check::returns))]
fn is_returned(t: Nodes<'_>, v: u32, j: usize, g: usize, h: usize) -> bool
    ensures { result ≡ returns (words_in t.entry) t.entry.n v j g h }
{
    let u = t.link(v, j);
    u == 0 || t.has(u) && (t.link(u, g) == v || t.link(u, h) == v)
}

// Both children of node v for coin x lead back to it.
#[tactic(auto, unfolding(crate::specs::Check::children_return))]
fn are_children_returned(t: Nodes<'_>, v: u32, x: u32) -> bool
    ensures { result ≡ children_return (words_in t.entry) t.entry.n v x }
{
    is_returned(t, v, first_child(x), CF, CF) && is_returned(t, v, last_child(x), CL, CL)
}

// Node v has a link that is not 0 and not paired.
#[tactic(auto, unfolding(crate::specs::Check::unpaired))]
pub(crate) fn is_unpaired(t: Nodes<'_>, v: u32) -> bool
    ensures { result ≡ unpaired (words_in t.entry) t.entry.n v }
{
    !(are_children_returned(t, v, 0)
        && are_children_returned(t, v, 1)
        && is_returned(t, v, NX, PR, PR)
        && is_returned(t, v, PR, NX, NX)
        && is_returned(t, v, CF, first_child(0), first_child(1))
        && is_returned(t, v, CL, last_child(0), last_child(1)))
}

// The lowest node with an unpaired link.
pub(crate) fn first_unpaired(t: Nodes<'_>) -> Option<u32>
    requires { t.n < 4294967295 }
    ensures { result ≡ lowest_of (unpaired (words_in t.entry) t.entry.n) 1 t.entry.n }
{
    (1..t.n + 1).find(|v| is_unpaired(t, *v))
}
