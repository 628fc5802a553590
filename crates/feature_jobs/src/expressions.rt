//! Expressions over the layers of a block.
ghost use Rattle.std.specs.Prelude.{◌≡◌, ◌+◌, ◌∷◌, ◌++◌, [], codes, IfOk};
ghost use Rattle.overlay_terms.specs.Trees.{steps_value};
ghost use Rattle.layer_expr.specs.StepList.{evaluated};
ghost use Rattle.feature_jobs.specs.Expressions.{Bits, AreOfTwo, layer_name, layer_names, with_two, AreAsked};

use crate::fault::JobFault;
use expression_steps::steps_over;
use layer_expr::{Expr, Name, StepList, read_expr};
use std::alloc::Global;

/// The most layers of a block: beside them stand the core, the expression, and what of it lies in the core.
const LAYERS_MAX: usize = 29;

/// A small letter by its number, from 0 on.
fn letter(number: usize) -> Result<u8, JobFault>
    ensures { IfOk result (λ letter. letter ≡ 97 + number) }
{
    let Ok(own) = u8::try_from(number) else {
        return Err(JobFault::TooManyLayers);
    };
    match own.checked_add(b'a') {
        Some(letter) => Ok(letter),
        None => Err(JobFault::TooManyLayers),
    }
}

/// The name of a layer: L and two letters by its number.
fn layer_name(alloc: Global, number: usize) -> Result<Name, JobFault>
    ensures { IfOk result (λ name. name ≡ layer_name number) }
{
    let first = letter(number / 26)?;
    let second = letter(number % 26)?;
    Ok(Name::new(alloc, &[b'L', first, second])?)
}

/// The names of so many layers, then that of the core.
fn layer_names(alloc: Global, count: usize) -> Result<Vec<Name>, JobFault>
    ensures { IfOk result (λ names. names.items ≡ layer_names count ++ codes "Core" ∷ []) }
{
    let mut names = Vec::new(alloc);
    for number in 0..count {
        names.push(layer_name(alloc, number)?)?;
    }
    names.push(Name::new(alloc, b"Core")?)?;
    Ok(names)
}

/// The steps of an expression over so many layers and the core, which comes last, within that core.
pub(crate) fn within_core(alloc: Global, text: &[u8], layers: usize) -> Result<StepList, JobFault>
    ensures { IfOk result (λ steps. AreAsked text.now layers steps) }
{
    if layers > LAYERS_MAX {
        return Err(JobFault::TooManyLayers);
    }
    let names = layer_names(alloc, layers)?;
    let own = read_expr(alloc, text)?;
    let within = read_expr(alloc, b"Core & Asked")?;
    steps_within(alloc, &names, &own, &within)
}

/// The steps of the last of some layers: those with names, an expression over them, and another one over all of these.
fn steps_within(
    alloc: Global,
    names: &[Name],
    own: &Expr,
    within: &Expr,
) -> Result<StepList, JobFault>
    ensures { IfOk result (λ steps. (bits : Bits)
        → steps_value steps bits ≡ evaluated (with_two names.now own.now within.now) bits) }
{
    let asked = Name::new(alloc, b"Asked")?;
    let last = Name::new(alloc, b"Within")?;
    let mut list: Vec<(&Name, Option<&Expr>)> = Vec::new(alloc);
    for one in names {
        list.push((one, None))?;
    }
    list.push((&asked, Some(own)))?;
    list.push((&last, Some(within)))?;
    match steps_over(alloc, &list)? {
        Some(steps) => Ok(steps),
        None => Err(JobFault::BadExpression),
    }
}

/// The steps of an expression over two layers, A and B, and the core.
pub(crate) fn of_two(alloc: Global, text: &[u8]) -> Result<StepList, JobFault>
    ensures { IfOk result (λ steps. AreOfTwo text.now steps) }
{
    let a = Name::new(alloc, b"A")?;
    let b = Name::new(alloc, b"B")?;
    let core = Name::new(alloc, b"Core")?;
    let own = read_expr(alloc, text)?;
    let asked = Name::new(alloc, b"Asked")?;
    let list = [(&a, None), (&b, None), (&core, None), (&asked, Some(&own))];
    match steps_over(alloc, &list)? {
        Some(steps) => Ok(steps),
        None => Err(JobFault::BadExpression),
    }
}
