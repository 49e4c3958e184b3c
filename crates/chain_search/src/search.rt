// The search for a certificate.
ghost use Rattle.std.specs.Prelude.{◌≡◌, IfOk, IfSome};
ghost use Rattle.chain_flow.specs.declared.lint_why.LintWhy.TheVariants.{TooLong};
ghost use Rattle.chain_search.specs.Answer.{IsRefusal};

use crate::context::Contexts;
use crate::place::Place;
use crate::refusal::Refusal;
use chain_certify::{Flow, Next, Node, look};
use chain_flow::{LintWhy, Region, code_at};
use hart_memory::Banks;
use hart_words::WantOfMemory;
use rv_encoding::Ins;
use rvc_encoding::decode_bits;
use std::alloc::Global;
use std::collections::VecDeque;

// How many nodes a certificate may have, and how many instructions are looked at for it.
const MAX_NODES: usize = 4096;

const MAX_LOOKS: u32 = 65_536;

// What a jump does to the context of calls.
#[derive(Clone, Copy, Drop)]
enum Way {
    Stays,
    Calls,
    Returns,
}

// The link register, which calls set and returns read.
const LINK: u8 = 1;

fn way_of(code: &Banks, at: u32) -> Way {
    let Some((bits, length)) = code_at(code, at) else {
        return Way::Stays;
    };
    match decode_bits(bits, length) {
        Some(Ins::Jal { rd: LINK, .. } | Ins::Jalr { rd: LINK, .. }) => Way::Calls,
        Some(Ins::Jalr { rs1: LINK, .. }) => Way::Returns,
        _ => Way::Stays,
    }
}

// A flow at a place, which is looked at.
#[derive(Drop)]
struct Step {
    at: u32,
    context: usize,
    flow: Flow,
}

// Where the search has come so far, and what is still to be looked at. So many flows are kept apart at an address.
#[derive(Drop)]
struct Reach {
    places: Vec<Place>,
    contexts: Contexts,
    work: VecDeque<usize>,
    limit: u32,
}

impl Reach {
    fn new(alloc: Global, handler: u32, limit: u32) -> Result<Reach, WantOfMemory> {
        let mut search = Reach {
            places: Vec::new(alloc),
            contexts: Contexts::new(alloc)?,
            work: VecDeque::new(alloc),
            limit,
        };
        search.arrive(alloc, handler, 0, Flow::at_start(alloc))?;
        Ok(search)
    }

    // The place of an address in a context.
    fn find(&self, at: u32, context: usize) -> Option<usize> {
        for i in 0..self.places.len() {
            if self.places[i].at == at && self.places[i].context == context {
                return Some(i);
            }
        }
        None
    }

    // A flow comes to an address.
    fn arrive(
        &mut self,
        alloc: Global,
        at: u32,
        context: usize,
        flow: Flow,
    ) -> Result<(), WantOfMemory> {
        let i = match self.find(at, context) {
            Some(i) => i,
            None => {
                let end = self.places.len();
                self.places.push(Place::new(alloc, at, context))?;
                end
            }
        };
        if let Some(place) = self.places.get_mut(i) {
            if place.arrive(alloc, flow, self.limit)? {
                self.work.push_back(i)?;
            }
        }
        Ok(())
    }

    // What is looked at next: where flows are joined, what came first, and else what came last.
    fn take_work(&mut self) -> Option<usize> {
        if self.limit == 1 {
            self.work.pop_front()
        } else {
            self.work.pop_back()
        }
    }

    // The flow that is looked at next.
    fn take(&mut self, alloc: Global) -> Result<Option<Step>, WantOfMemory> {
        let Some(i) = self.take_work() else {
            return Ok(None);
        };
        let Some(place) = self.places.get_mut(i) else {
            return Ok(None);
        };
        let at = place.at;
        let context = place.context;
        match place.take_new(alloc)? {
            Some(flow) => Ok(Some(Step { at, context, flow })),
            None => Ok(None),
        }
    }

    // How many nodes there are.
    fn len(&self) -> usize {
        let mut count = 0usize;
        for place in &self.places {
            count = count.saturating_add(place.len());
        }
        count
    }

    // The context after an instruction. `None`: calls are too deep.
    fn context_after(
        &mut self,
        code: &Banks,
        at: u32,
        context: usize,
    ) -> Result<Option<usize>, WantOfMemory> {
        match way_of(code, at) {
            Way::Stays => Ok(Some(context)),
            Way::Calls => self.contexts.called(context, at),
            Way::Returns => Ok(Some(self.contexts.returned(context))),
        }
    }

    // What is known goes on.
    fn go_on(
        &mut self,
        alloc: Global,
        context: usize,
        next: Vec<Next>,
    ) -> Result<(), WantOfMemory> {
        for place in next {
            self.arrive(alloc, place.at, context, place.flow)?;
        }
        Ok(())
    }
}

// The nodes of a search that is through, without their hints.
fn nodes_of(alloc: Global, search: &Reach) -> Result<Vec<Node>, WantOfMemory> {
    let mut nodes = Vec::new(alloc);
    for place in &search.places {
        for i in 0..place.len() {
            if let Some(flow) = place.get(i) {
                nodes.push(Node {
                    at: place.at,
                    flow: flow.copy(alloc)?,
                    hints: Vec::new(alloc),
                })?;
            }
        }
    }
    Ok(nodes)
}

// The place of the first node that covers where an instruction goes on; 0 where there is none.
fn covering(nodes: &[Node], next: &Next) -> u32 {
    let mut place = 0u32;
    for node in nodes {
        if node.at == next.at && next.flow.is_below(&node.flow) {
            return place;
        }
        place = place.saturating_add(1);
    }
    0
}

// The hints of a node.
fn hints_of(alloc: Global, nodes: &[Node], next: &[Next]) -> Result<Vec<u32>, WantOfMemory> {
    let mut hints = Vec::new(alloc);
    for place in next {
        hints.push(covering(nodes, place))?;
    }
    Ok(hints)
}

// Gives each node its hints.
fn hint(
    alloc: Global,
    code: &Banks,
    region: &Region,
    nodes: &mut Vec<Node>,
) -> Result<(), WantOfMemory> {
    for i in 0..nodes.len() {
        if let Some(node) = nodes.get(i) {
            let look = look(alloc, code, region, node.at, &node.flow)?;
            let hints = hints_of(alloc, nodes, &look.next)?;
            if let Some(node) = nodes.get_mut(i) {
                node.hints = hints;
            }
        }
    }
    Ok(())
}

// Looks at one flow, and goes on from there.
fn look_on(
    alloc: Global,
    code: &Banks,
    region: &Region,
    search: &mut Reach,
    step: Step,
) -> Result<Option<Refusal>, WantOfMemory>
    ensures { IfOk result (λ answer. IfSome answer (λ r. IsRefusal code.now.present.rom region.now r.why r.at)) }
{
    let Step { at, context, flow } = step;
    let look = look(alloc, code, region, at, &flow)?;
    if let Some(why) = look.why {
        return Ok(Some(Refusal { why, at }));
    }
    let Some(context) = search.context_after(code, at, context)? else {
        return Ok(Some(too_long(at)));
    };
    search.go_on(alloc, context, look.next)?;
    if search.len() > MAX_NODES {
        return Ok(Some(too_long(at)));
    }
    Ok(None)
}

fn too_long(at: u32) -> Refusal
    ensures { result ≡ record { why = TooLong; at = at } }
{
    Refusal {
        why: LintWhy::TooLong,
        at,
    }
}

/// Puts the nodes of a certificate into a list, for a handler at an address, with so many flows kept apart at an
/// address; or tells the rule that refuses where the search stopped.
pub fn search(
    alloc: Global,
    code: &Banks,
    handler: u32,
    region: &Region,
    limit: u32,
    nodes: &mut Vec<Node>,
) -> Result<Option<Refusal>, WantOfMemory>
    ensures { IfOk result (λ answer. IfSome answer (λ r. IsRefusal code.now.present.rom region.now r.why r.at)) }
{
    let mut search = Reach::new(alloc, handler, limit)?;
    for _ in 0..MAX_LOOKS {
        if search.work.is_empty() {
            *nodes = nodes_of(alloc, &search)?;
            hint(alloc, code, region, nodes)?;
            return Ok(None);
        }
        if let Some(next) = search.take(alloc)? {
            if let Some(refusal) = look_on(alloc, code, region, &mut search, next)? {
                return Ok(Some(refusal));
            }
        }
    }
    Ok(Some(too_long(handler)))
}
