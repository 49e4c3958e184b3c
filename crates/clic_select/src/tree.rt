// The nodes of the tree of winners.
ghost use Rattle.std.specs.Prelude.{◌≡◌, ◌≢◌, ℕ, ◌+◌, ◌-◌, ◌*◌, ◌/◌, ◌<◌, ◌≤◌, length};
ghost use Rattle.clic_regs.specs.ClicState.{input_count};
ghost use Rattle.clic_select.specs.Tree.{beats, winner, node, waiting, IsWinner, IsTree, HasLeaves, Selects, binary_digits};

use crate::choice::Choice;
use crate::steps::Steps;
use clic_regs::Clic;
use std::sync::ledger::Ledger;

/// Whether the first is there and the second is not, or the first is greater. One call is one step.
#[inline]
pub fn beats<L: Ledger>(a: Option<Choice>, b: Option<Choice>, steps: &mut Steps<L>) -> bool
    ensures answer { result ≡ beats a b }
    ensures cost { steps.new ≡ steps.old + 1 }
{
    steps.tick();
    match (a, b) {
        (None, _) => false,
        (Some(_), None) => true,
        (Some(a), Some(b)) => a.is_greater(b),
    }
}

#[inline]
#[tactic(auto, unfolding(crate::specs::Tree::winner))]
fn winner<L: Ledger>(a: Option<Choice>, b: Option<Choice>, steps: &mut Steps<L>) -> Option<Choice>
    ensures answer { result ≡ winner a b }
    ensures cost { steps.new ≡ steps.old + 1 }
{
    if beats(b, a, steps) { b } else { a }
}

// An input as a choice, where it is pending and enabled.
#[inline]
pub(crate) fn waiting(clic: &Clic, i: u32) -> Option<Choice>
    requires { i < input_count clic.now }
    ensures { result ≡ waiting clic.now i }
{
    if clic.pending(i) && clic.enabled(i) {
        Some(Choice::of(clic, i))
    } else {
        None
    }
}

// Mends the nodes above a leaf, from the lowest to the root.
fn mend<L: Ledger>(nodes: &mut [Option<Choice>], inputs: usize, leaf: usize, steps: &mut Steps<L>)
    requires size { length nodes.old ≡ 2 * inputs }
    requires leaf { leaf < inputs }
    requires others { (k : ℕ) → 1 ≤ k → k < inputs → k ≢ (leaf + inputs) / 2 → IsWinner nodes.old k }
    ensures tree { IsTree inputs nodes.new }
    ensures leaves { (k : ℕ) → inputs ≤ k → node nodes.new k ≡ node nodes.old k }
    ensures counts { steps.old ≤ steps.new }
    ensures cost { steps.new ≤ steps.old + binary_digits (inputs - 1) }
{
    let mut k = (leaf + inputs) / 2;
    while k > 0 {
        nodes[k] = winner(nodes[2 * k], nodes[2 * k + 1], steps);
        k /= 2;
    }
}

/// Puts an input into its leaf, and mends the nodes above it.
pub(crate) fn refresh<L: Ledger>(
    clic: &Clic,
    i: u32,
    nodes: &mut [Option<Choice>],
    steps: &mut Steps<L>,
)
    requires input { i < input_count clic.now }
    requires tree { IsTree (input_count clic.now) nodes.old }
    requires others { (j : ℕ) → j < input_count clic.now → j ≢ i → node nodes.old (input_count clic.now + j) ≡ waiting clic.now j }
    ensures selects { Selects clic.now nodes.new }
    ensures counts { steps.old ≤ steps.new }
    ensures cost { steps.new ≤ steps.old + binary_digits (input_count clic.now - 1) }
{
    let inputs = clic.shape().inputs() as usize;
    let leaf = i as usize;
    nodes[leaf + inputs] = waiting(clic, i);
    mend(nodes, inputs, leaf, steps);
}

// Puts each input into its leaf.
fn fill_leaves(clic: &Clic, nodes: &mut [Option<Choice>], inputs: u32)
    requires inputs { inputs ≡ input_count clic.now }
    requires size { length nodes.old ≡ 2 * inputs }
    ensures size { length nodes.new ≡ 2 * inputs }
    ensures leaves { HasLeaves clic.now inputs nodes.new }
{
    for i in 0..inputs {
        nodes[i as usize + inputs as usize] = waiting(clic, i);
    }
}

// Mends all nodes, from the last one that is no leaf to the root.
fn mend_all<L: Ledger>(nodes: &mut [Option<Choice>], inputs: usize, steps: &mut Steps<L>)
    requires some { 0 < inputs }
    requires size { length nodes.old ≡ 2 * inputs }
    ensures tree { IsTree inputs nodes.new }
    ensures leaves { (k : ℕ) → inputs ≤ k → node nodes.new k ≡ node nodes.old k }
    ensures counts { steps.old ≤ steps.new }
    ensures cost { steps.new ≤ steps.old + (inputs - 1) }
{
    for done in 1..inputs {
        let k = inputs - done;
        nodes[k] = winner(nodes[2 * k], nodes[2 * k + 1], steps);
    }
}

/// Puts each input into its leaf, and mends all nodes.
pub(crate) fn rebuild<L: Ledger>(clic: &Clic, nodes: &mut [Option<Choice>], steps: &mut Steps<L>)
    requires { length nodes.old ≡ 2 * input_count clic.now }
    ensures selects { Selects clic.now nodes.new }
    ensures counts { steps.old ≤ steps.new }
    ensures cost { steps.new ≤ steps.old + (input_count clic.now - 1) }
{
    let inputs = clic.shape().inputs();
    fill_leaves(clic, nodes, inputs);
    mend_all(nodes, inputs as usize, steps);
}
