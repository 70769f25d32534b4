// Whether a proposed run order is right.
ghost use Rattle.std.specs.Prelude.{◌≡◌, ◌≤◌, length};
ghost use Rattle.port_tables.specs.Limits.{node_slots};
ghost use Rattle.multiportgraph.specs.WellFormed.{MultiWf};
ghost use Rattle.files.specs.Forms.{nodes_of};
ghost use Rattle.timing.specs.RunOrder.{run_order};
ghost use Rattle.timing.specs.Naming.{marked, named, all_forward};
ghost use Rattle.timing.specs.Settling.{feeds_listed};

use crate::tables::{source_of, target_of, wires_in};
use files::ranks::at;
use multiportgraph::multiportgraph::MultiPortGraph;
use port_tables::index::{MOST_WIRES, NODE_SLOTS};
use port_tables::numbers::wide;
use port_tables::tables::store;

// Enters each block of a listing, with four numbers each.
#[tactic(auto, using(crate::specs::Passing::passing_from))]
fn mark_blocks(listed: &[u32], places: &mut [u32])
    ensures { places.new ≡ marked (nodes_of listed.now) places.old }
{
    for block in listed.chunks_exact(4) {
        store(places, wide(block[0]), 1);
    }
}

// Enters the place of each number named, as long as they name blocks that are not named yet; answers whether all do.
#[tactic(auto, unfolding(crate::specs::Naming::named), using(crate::specs::AnswerSteps::name_stop, crate::specs::AnswerSteps::name_turn, crate::specs::AnswerSteps::name_end))]
fn name_all(order: &[u32], places: &mut [u32]) -> bool
    requires { length order.now ≤ node_slots }
    ensures { (result ≡ (named places.old 0 order.now).right) × (places.new ≡ (named places.old 0 order.now).places) }
{
    for (i, number) in order.iter().enumerate() {
        let node = wide(*number);
        if at(places, node) != 1 {
            return false;
        }
        store(places, node, i as u32 + 2);
    }
    true
}

// Whether every wire goes from an earlier to a later place.
#[tactic(auto, using(crate::specs::AnswerSteps::forward_tested))]
fn all_forward<'a>(ends: &'a [u32], places: &'a [u32]) -> bool
    ensures { result ≡ all_forward places.now (feeds_listed ends.now) }
{
    ends.chunks_exact(8).all(|wire| at(places, wide(source_of(wire)))
        < at(places, wide(target_of(wire))))
}

// Whether the order names each block once and nothing else, and every wire goes from an earlier to a later one.
#[tactic(auto, unfolding(crate::specs::Settling::zeros), using(multiportgraph::specs::ListReads::few_blocks, files::specs::SaveSteps::blocks_first, files::specs::SaveSteps::blocks_long, crate::specs::AnswerSteps::count_wrong, crate::specs::AnswerSteps::not_named, crate::specs::AnswerSteps::named_answer))]
pub fn run_order(graph: &MultiPortGraph, order: &[u32]) -> bool
    requires { MultiWf graph.now }
    ensures { result ≡ run_order graph.now order.now }
{
    let blocks = graph.node_count();
    if order.len() != blocks {
        return false;
    }
    let mut listed = [0u32; 4 * NODE_SLOTS];
    let mut ends = [0u32; 8 * MOST_WIRES];
    // Of a slot with a block 1, then its place in the order, two higher. Stays numbers: all_forward compares them as they are, and an enum would be matched there.
    let mut places = [0u32; NODE_SLOTS];
    // The list is long enough, so every block is written.
    let _ = graph.list_blocks(&mut listed);
    mark_blocks(&listed[..4 * blocks], &mut places);
    if !name_all(order, &mut places) {
        return false;
    }
    all_forward(wires_in(graph, &mut ends), &places)
}
