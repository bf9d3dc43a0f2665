//! A tree's places in preorder.

ghost use Rattle.std.specs.Prelude.{◌≡◌, ◌++◌, ◌∷◌, [], Some, is_some, true, map, reverse, OnOk, IfOk};
ghost use Rattle.std.specs.List.{list_any};
ghost use Rattle.sc_base.specs.Numbered.{item_at};
ghost use Rattle.sc_tree.specs.declared.machine.Place.{Place};
ghost use Rattle.sc_tree.specs.Reading.{step_nodes, nodes_from, own_end, parts_of, FitsBelow, AddsPlace, IsReadable};
ghost use Rattle.sc_tree.specs.Keeping.{is_spent as spent_mark};

use crate::climb::find_place;
use crate::machine::{Mark, Place};
use crate::opened::{open_two, take_open};
use crate::places::copy_step;
use sc_deriv::{Closing, Node, Nodes, Step};
use sc_terms::Memory;
use std::alloc::Global;

/// Adds the steps of a chain.
fn add_chain(nodes: &mut Vec<Node>, chain: &[Step]) -> Result<(), Memory>
    ensures { OnOk result (nodes.new.items ≡ nodes.old.items ++ step_nodes chain.now) }
{
    for step in chain {
        match add_step(nodes, step) {
            Ok(()) => {}
            Err(e) => return Err(e),
        }
    }
    Ok(())
}

/// Adds a step.
fn add_step(nodes: &mut Vec<Node>, step: &Step) -> Result<(), Memory>
    ensures { OnOk result (nodes.new.items ≡ nodes.old.items ++ Node.Step step.now ∷ []) }
{
    nodes.push(Node::Step(copy_step(step)?))?;
    Ok(())
}

/// Adds a closing.
fn add_closing(nodes: &mut Vec<Node>, closing: &Closing) -> Result<(), Memory>
    ensures { OnOk result (nodes.new.items ≡ nodes.old.items ++ Node.Closing closing.now ∷ []) }
{
    nodes.push(Node::Closing(closing.clone()?))?;
    Ok(())
}

/// Adds what ends a place's chain; what its split made waits first.
fn add_end(nodes: &mut Vec<Node>, waiting: &mut Vec<u64>, mark: &Mark) -> Result<(), Memory>
    requires { FitsBelow mark.now }
    ensures nodes { OnOk result (nodes.new.items ≡ nodes.old.items ++ own_end mark.now) }
    ensures waiting { OnOk result (reverse waiting.new.items ≡ parts_of mark.now ++ reverse waiting.old.items) }
{
    match mark {
        Mark::Closed(closing) => add_closing(nodes, closing),
        Mark::Parted(step, first) => {
            add_step(nodes, step)?;
            waiting.reserve(2)?;
            open_two(waiting, *first);
            Ok(())
        }
        _ => Ok(()),
    }
}

/// Adds a place's own nodes; what its split made waits first.
fn add_place(nodes: &mut Vec<Node>, waiting: &mut Vec<u64>, place: &Place) -> Result<(), Memory>
    requires { FitsBelow place.now.mark }
    ensures { OnOk result (AddsPlace place.now nodes.old.items nodes.new.items (reverse waiting.old.items) (reverse waiting.new.items)) }
{
    add_chain(nodes, place.chain.as_slice())?;
    add_end(nodes, waiting, &place.mark)
}

/// The nodes of the tree of the places, from the first on, each of which is closed or split.
pub(crate) fn nodes_of(alloc: Global, places: &[Place]) -> Result<Nodes, Memory>
    requires readable { IsReadable places.now }
    requires some { is_some (item_at places.now 1) ≡ true }
    ensures { IfOk result (λ nodes. nodes ≡ nodes_from places.now 1) }
{
    let mut nodes = Vec::new(alloc);
    let mut waiting = Vec::new(alloc);
    waiting.push(1)?;
    while let Some(number) = take_open(&mut waiting) {
        let Some(place) = find_place(places, number) else {
            unreachable!()
        };
        match add_place(&mut nodes, &mut waiting, place) {
            Ok(()) => {}
            Err(e) => return Err(e),
        }
    }
    Ok(Nodes::from_vec(nodes))
}

/// Whether the place was given up.
pub(crate) fn is_spent(place: &Place) -> bool
    ensures { result ≡ spent_mark place.now.mark }
{
    matches!(&place.mark, Mark::Spent(_))
}

/// Whether some place was given up.
pub(crate) fn some_is_spent(places: &[Place]) -> bool
    ensures { result ≡ list_any (λ (p : Place). spent_mark p.mark) places.now }
{
    places.iter().any(|place| is_spent(place))
}
