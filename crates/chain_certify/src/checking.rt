// Whether a certificate is accepted.
ghost use Rattle.std.specs.Prelude.{◌≡◌, ◌≤◌, IfOk, IfSome, Some};
ghost use Rattle.chain_certify.specs.Flow.{value_of, flow_at_start};
ghost use Rattle.chain_certify.specs.Rules.{Next as NextView};
ghost use Rattle.chain_certify.specs.Check.{node_at, is_covering as is_covering_of, are_covered as are_covered_of, is_passed as is_passed_of, is_good as is_good_of, are_good as are_good_of, depth_of as depth_of_value, deepest as deepest_of, is_certificate as is_certificate_of, checked as checked_of};

use crate::flow_state::Flow;
use crate::looked::{Look, Next};
use crate::looking::look;
use crate::node::Node;
use crate::rules::is_bad_pointer;
use crate::value::Value;
use chain_flow::{Region, depth_of};
use hart_memory::Banks;
use hart_words::WantOfMemory;
use std::alloc::Global;

// A node says no more than is known at an address.
fn covers(node: &Node, at: u32, flow: &Flow) -> bool
    ensures { result ≡ is_covering_of (Some node.now) (record { at = at; flow = flow.now }) }
{
    node.at == at && flow.is_below(&node.flow)
}

// So does the node at a place.
fn is_covering(nodes: &[Node], place: u32, at: u32, flow: &Flow) -> bool
    ensures { result ≡ is_covering_of (node_at nodes.now place) (record { at = at; flow = flow.now }) }
{
    let place = place as usize;
    if place >= nodes.len() {
        return false;
    }
    covers(&nodes[place], at, flow)
}

fn is_next_covered(nodes: &[Node], place: u32, next: &Next) -> bool
    ensures { result ≡ is_covering_of (node_at nodes.now place) next.now }
{
    is_covering(nodes, place, next.at, &next.flow)
}

// Each of these is covered by the node that its hint names.
fn are_covered(nodes: &[Node], hints: &[u32], next: &[Next]) -> bool
    ensures { result ≡ are_covered_of nodes.now hints.now next.now }
{
    for i in 0..next.len() {
        if i >= hints.len() {
            return false;
        }
        if !is_next_covered(nodes, hints[i], &next[i]) {
            return false;
        }
    }
    true
}

// The instruction passes, and where it goes on is covered.
fn is_passed(nodes: &[Node], hints: &[u32], look: &Look) -> bool
    ensures { result ≡ is_passed_of nodes.now hints.now look.now }
{
    match look.why {
        Some(_) => false,
        None => are_covered(nodes, hints, &look.next),
    }
}

// Its stack pointer is known, its instruction passes, and where it goes on is covered.
fn is_good(
    alloc: Global,
    code: &Banks,
    region: &Region,
    nodes: &[Node],
    node: &Node,
) -> Result<bool, WantOfMemory>
    ensures { IfOk result (λ answer. answer ≡ is_good_of code.now.present.rom region.now nodes.now node.now) }
{
    if is_bad_pointer(node.flow.value(2)) {
        return Ok(false);
    }
    let look = look(alloc, code, region, node.at, &node.flow)?;
    Ok(is_passed(nodes, &node.hints, &look))
}

// Each node is good.
fn are_good(
    alloc: Global,
    code: &Banks,
    region: &Region,
    nodes: &[Node],
) -> Result<bool, WantOfMemory>
    ensures { IfOk result (λ answer. answer ≡ are_good_of code.now.present.rom region.now nodes.now nodes.now) }
{
    for i in 0..nodes.len() {
        if !is_good(alloc, code, region, nodes, &nodes[i])? {
            return Ok(false);
        }
    }
    Ok(true)
}

// How far the stack pointer is below the start.
fn depth(pointer: Value) -> u32
    ensures { result ≡ depth_of_value pointer }
{
    match pointer {
        Value::Stack(sp) => depth_of(sp),
        Value::Entry(_) | Value::Const(_) | Value::Range(_, _) | Value::Unknown => 0,
    }
}

fn depth_at(node: &Node) -> u32
    ensures { result ≡ depth_of_value (value_of node.now.flow.values 2) }
{
    depth(node.flow.value(2))
}

// The greatest depth of the stack pointer.
fn deepest(nodes: &[Node]) -> u32
    ensures { result ≡ deepest_of nodes.now }
{
    let mut greatest = 0;
    for i in 0..nodes.len() {
        greatest = greatest.max(depth_at(&nodes[i]));
    }
    greatest
}

// The first node is the handler's first address with what is known at the start, and all are good.
fn is_certificate(
    alloc: Global,
    code: &Banks,
    handler: u32,
    region: &Region,
    nodes: &[Node],
) -> Result<bool, WantOfMemory>
    ensures { IfOk result (λ answer. answer ≡ is_certificate_of code.now.present.rom handler region.now nodes.now) }
{
    if !is_covering(nodes, 0, handler, &Flow::at_start(alloc)) {
        return Ok(false);
    }
    are_good(alloc, code, region, nodes)
}

/// The bytes that a handler uses below its frame, where the certificate is accepted.
#[tactic(auto, unfolding(crate::specs::Check::checked))]
pub fn checked(
    alloc: Global,
    code: &Banks,
    handler: u32,
    region: &Region,
    nodes: &[Node],
) -> Result<Option<u32>, WantOfMemory>
    ensures exact { IfOk result (λ answer. answer ≡ checked_of code.now.present.rom handler region.now nodes.now) }
    ensures small { IfOk result (λ answer. IfSome answer (λ uses. uses ≤ 4096)) }
{
    if !is_certificate(alloc, code, handler, region, nodes)? {
        return Ok(None);
    }
    Ok(Some(deepest(nodes)))
}
