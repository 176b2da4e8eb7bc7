//! Instances of definitions: a body with terms for its parameters.
ghost use Rattle.std.specs.Prelude.{◌≡◌, ◌<◌, length, map, All, IfOk};
ghost use Rattle.nz_spec.specs.terms.Table.{term_in, terms_at};
ghost use Rattle.nz_spec.specs.terms.Definitions.{instance_of};
ghost use Rattle.nz_term.specs.Growth.{Grows};
ghost use Rattle.nz_term.specs.Heads.{head_of};
ghost use Rattle.nz_term.specs.Instances.{argument_of, instance_in, IsInstance, HasInstances};

use crate::heads::Head;
use crate::nodes::TermId;
use crate::order::post_order;
use crate::terms::Terms;
use nz_base::Memory;
use std::alloc::Global;
use std::collections::HashMap;

/// The term that a definition's body is with these terms for its parameters, made in the table.
///
/// A parameter past the end stays. Each shared term of the body is made once, and none where nothing in it changes. Takes
/// time and memory in proportion to the body, whatever else the table has, and none without arguments.
pub fn instance(
    alloc: Global,
    terms: &mut Terms,
    body: TermId,
    arguments: &[TermId],
) -> Result<TermId, Memory>
    requires body { body < length terms.old }
    requires within { All (λ k. k < length terms.old) arguments.now }
    ensures grows { Grows terms.old terms.new }
    ensures within { IfOk result (λ id. id < length terms.new) }
    ensures made { IfOk result (λ id. term_in terms.new id ≡ instance_of (terms_at (term_in terms.old) arguments.now) (term_in terms.old body)) }
{
    if arguments.is_empty() {
        return Ok(body);
    }
    let order = post_order(alloc, terms, &[body])?;
    let mut made = HashMap::new(alloc);
    for id in &order {
        let number = node_instance(alloc, terms, *id, arguments, &made)?;
        made.insert(*id, number)?;
    }
    Ok(instance_in(&made, body))
}

/// The number of the instance of a term, where those of its arguments are made.
fn node_instance(
    alloc: Global,
    terms: &mut Terms,
    id: TermId,
    arguments: &[TermId],
    made: &HashMap<TermId, TermId>,
) -> Result<TermId, Memory>
    requires id { id < length terms.old }
    requires within { All (λ k. k < length terms.old) arguments.now }
    requires done { HasInstances terms.old arguments.now (instance_in made.now) id }
    ensures grows { Grows terms.old terms.new }
    ensures made { IfOk result (λ made. IsInstance terms.new arguments.now id made) }
{
    let node = terms.node(id);
    if let Some(argument) = argument(node.head, arguments) {
        return Ok(argument);
    }
    let instances = listed(alloc, made, node.kids)?;
    if instances.as_slice() == node.kids {
        return Ok(id);
    }

    // A constant has no arguments.
    let Some(head) = node.head.detached() else {
        return Ok(id);
    };
    terms.make(head, instances.as_slice())
}

/// What is put for a parameter that isn't past the end; nothing for another head.
fn argument(head: Head<'_>, arguments: &[TermId]) -> Option<TermId>
    ensures argument { result ≡ argument_of (head_of head.entry) arguments.now }
{
    match head {
        Head::Parameter(place, _) => arguments.get(place).copied(),
        _ => None,
    }
}

/// The instances of these terms.
fn listed(
    alloc: Global,
    made: &HashMap<TermId, TermId>,
    ids: &[TermId],
) -> Result<Vec<TermId>, Memory>
    ensures listed { IfOk result (λ all. all.items ≡ map (instance_in made.now) ids.now) }
{
    Ok(ids.iter().map(|id| instance_in(made, *id)).collect(alloc)?)
}

/// The instance of a term; what none was made of stays.
fn instance_in(made: &HashMap<TermId, TermId>, id: TermId) -> TermId
    ensures instance { result ≡ instance_in made.now id }
{
    made.get(&id).copied().unwrap_or(id)
}
