// The check of a machine: its code words, and the links of its qif table.
#![tactic(auto)]

ghost use Rattle.std.specs.Prelude.{◌≡◌};
ghost use Rattle.word.specs.Refusal.{number};
ghost use Rattle.machine.specs.Lent.{at_entry};
ghost use Rattle.links.specs.Check.{lowest_of, no_instruction, checked_of, check_of, check_node_of};

mod nodes;

use machine::Record;
use nodes::{first_unpaired, is_unpaired};
use step::lent::{front, look};
use step::table::Nodes;
use word::refusals::Refusal;

// What fails in a machine: the sizes; else the code word at the lowest address that holds no instruction; else
// the lowest node with an unpaired link.
#[derive(Clone, Copy, Debug, PartialEq, Eq)]
pub enum Fault {
    Sizes,
    CodeWord(u32),
    Link(u32),
}

// The same for C: the refusal, 0 for none, and the address or node, 0 where there is none.
#[repr(C)]
#[derive(Clone, Copy)]
pub struct Checked {
    pub refusal: u32,
    pub place: u32,
}

impl From<Result<(), Fault>> for Checked {
    ghost from_gives = { λ answer checked. checked ≡ checked_of answer };

    fn from(answer: Result<(), Fault>) -> Checked {
        let (refusal, place) = match answer {
            Ok(()) => (0, 0),
            Err(Fault::Sizes) => (Refusal::Sizes.number(), 0),
            Err(Fault::CodeWord(address)) => (Refusal::CodeWord.number(), address),
            Err(Fault::Link(node)) => (Refusal::Link.number(), node),
        };
        Checked { refusal, place }
    }
}

// The lowest address of the first k that holds no instruction.
fn first_bad_address(words: &[u32], k: u32) -> Option<u32>
    ensures { result ≡ lowest_of (no_instruction words.now) 0 k }
{
    (0..k).find(|a| !machine::is_instruction(look(words, *a as usize)))
}

// The first fault, if there is one.
#[tactic(auto, unfolding(word::specs::Refusal::refuse))]
pub fn check(r: Record, mem: &[u32], table: &[u32]) -> Result<(), Fault>
    ensures { checked_of result ≡ check_of (at_entry r mem.now table.now) }
{
    if r.has_bad_sizes(mem, table) {
        return Err(Fault::Sizes);
    }
    if let Some(address) = first_bad_address(front(mem, r.m), r.k) {
        return Err(Fault::CodeWord(address));
    }
    match first_unpaired(Nodes {
        words: table,
        n: r.n,
    }) {
        Some(node) => Err(Fault::Link(node)),
        None => Ok(()),
    }
}

// The links of one node; the code words are not looked at.
#[tactic(auto, unfolding(word::specs::Refusal::refuse))]
pub fn check_node(r: Record, node: u32, mem: &[u32], table: &[u32]) -> Result<(), Refusal>
    ensures { number result ≡ check_node_of (at_entry r mem.now table.now) node }
{
    if r.has_bad_sizes(mem, table) {
        return Err(Refusal::Sizes);
    }
    let nodes = Nodes {
        words: table,
        n: r.n,
    };
    if !nodes.has(node) {
        return Err(Refusal::Node);
    }
    if is_unpaired(nodes, node) {
        return Err(Refusal::Link);
    }
    Ok(())
}
