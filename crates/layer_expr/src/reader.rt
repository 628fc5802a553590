//! Where a reader is after some tokens: what was read and waits for more.
ghost use Rattle.std.specs.Prelude.{◌≡◌, ◌≤◌, length, IfOk, IfErr};
ghost use Rattle.layer_expr.specs.Expr.{operation, tree};
ghost use Rattle.layer_expr.specs.Token.{name, operator, open_bracket, close_bracket};
ghost use Rattle.layer_expr.specs.Lexeme.{token_in};
ghost use Rattle.layer_expr.specs.ReaderState.{tree_making, at_start, times, plus, finished};
ghost use Rattle.layer_expr.specs.Reader.{state_of, left_tree, factor_tree, IsAfterOperator, IsNext, IsStepFault, IsEndFault};

use crate::expr::{Node, Operation, combine};
use crate::fault::ExprFault;
use crate::lexeme::{Lexeme, Sign, Sort};
use crate::name::Name;
use std::alloc::{AllocError, Global};

/// A left operand that waits for the right one after its operator.
#[derive(Debug, Drop)]
pub struct Left {
    pub operation: Operation,
    pub operand: Node,
}

/// What waits outside an open bracket: a sum with its operator, and a product with its `&`.
#[derive(Debug, Drop)]
pub struct Frame {
    pub left: Option<Left>,
    pub factor: Option<Node>,
}

/// What waits within the innermost open bracket.
#[derive(Debug, Drop)]
pub enum Within {
    /// A sum with its operator and a product with its `&`. An operand comes next.
    Awaits(Option<Left>, Option<Node>),
    /// A sum with its operator, and the product that was read. An operator comes next.
    Holds(Option<Left>, Node),
}

/// The frames of the open brackets, the innermost last, and what waits within.
#[derive(Debug, Drop)]
pub struct Reader {
    pub outer: Vec<Frame>,
    pub within: Within,
}

impl Reader {
    pub fn new(alloc: Global) -> Reader
        ensures { state_of result ≡ at_start }
    {
        Reader {
            outer: Vec::new(alloc),
            within: Within::Awaits(None, None),
        }
    }

    /// The reader after one more token of the bytes.
    pub fn after(self, alloc: Global, bytes: &[u8], lexeme: Lexeme) -> Result<Reader, ExprFault>
        requires low { lexeme.at ≤ lexeme.end }
        requires high { lexeme.end ≤ length bytes.now }
        ensures ok { IfOk result (IsNext (token_in bytes.now lexeme).kind self) }
        ensures refused { IfErr result (IsStepFault (token_in bytes.now lexeme).kind lexeme.at (state_of self)) }
    {
        match lexeme.sort {
            Sort::Name => self.after_name(alloc, &bytes[lexeme.at..lexeme.end], lexeme.at),
            Sort::Sign(Sign::Operator(o)) => self.after_operator(alloc, o, lexeme.at),
            Sort::Sign(Sign::OpenBracket) => self.after_open(lexeme.at),
            Sort::Sign(Sign::CloseBracket) => self.after_close(alloc, lexeme.at),
            Sort::Sign(Sign::Stray) => Err(ExprFault::ExprSyntax(lexeme.at)),
        }
    }

    fn after_name(self, alloc: Global, bytes: &[u8], at: usize) -> Result<Reader, ExprFault>
        ensures ok { IfOk result (IsNext (name bytes.now) self) }
        ensures refused { IfErr result (IsStepFault (name bytes.now) at (state_of self)) }
    {
        let Reader { outer, within } = self;
        match within {
            Within::Holds(_, _) => Err(ExprFault::ExprSyntax(at)),
            Within::Awaits(left, factor) => {
                let name = Name::new(alloc, bytes)?;
                let operand = product(alloc, factor, Node::Leaf(name))?;
                Ok(Reader {
                    outer,
                    within: Within::Holds(left, operand),
                })
            }
        }
    }

    fn after_operator(self, alloc: Global, o: Operation, at: usize) -> Result<Reader, ExprFault>
        ensures ok { IfOk result (IsNext (operator (operation o)) self) }
        ensures refused { IfErr result (IsStepFault (operator (operation o)) at (state_of self)) }
    {
        let Reader { outer, within } = self;
        match within {
            Within::Awaits(_, _) => Err(ExprFault::ExprSyntax(at)),
            Within::Holds(left, operand) => {
                let within = waiting(alloc, left, operand, o)?;
                Ok(Reader { outer, within })
            }
        }
    }

    fn after_open(self, at: usize) -> Result<Reader, ExprFault>
        ensures ok { IfOk result (IsNext open_bracket self) }
        ensures refused { IfErr result (IsStepFault open_bracket at (state_of self)) }
    {
        let Reader { mut outer, within } = self;
        match within {
            Within::Holds(_, _) => Err(ExprFault::ExprSyntax(at)),
            Within::Awaits(left, factor) => {
                outer
                    .push(Frame { left, factor })
                    .map_err(AllocError::from)?;
                Ok(Reader {
                    outer,
                    within: Within::Awaits(None, None),
                })
            }
        }
    }

    fn after_close(self, alloc: Global, at: usize) -> Result<Reader, ExprFault>
        ensures ok { IfOk result (IsNext close_bracket self) }
        ensures refused { IfErr result (IsStepFault close_bracket at (state_of self)) }
    {
        let Reader { mut outer, within } = self;
        match within {
            Within::Awaits(_, _) => Err(ExprFault::ExprSyntax(at)),
            Within::Holds(left, operand) => match outer.pop() {
                None => Err(ExprFault::ExprSyntax(at)),
                Some(
                    Frame {
                        left: before,
                        factor,
                    },
                ) => {
                    let inner = sum(alloc, left, operand)?;
                    let operand = product(alloc, factor, inner)?;
                    Ok(Reader {
                        outer,
                        within: Within::Holds(before, operand),
                    })
                }
            },
        }
    }

    /// The whole expression, where the text ends at this offset.
    pub fn finish(self, alloc: Global, at: usize) -> Result<Node, ExprFault>
        ensures ok { IfOk result (λ root. finished tree_making (state_of self) ≡ Some (tree root)) }
        ensures refused { IfErr result (IsEndFault at (state_of self)) }
    {
        let Reader { outer, within } = self;
        match within {
            Within::Awaits(_, _) => Err(ExprFault::ExprSyntax(at)),
            Within::Holds(left, operand) => {
                if !outer.is_empty() {
                    return Err(ExprFault::ExprSyntax(at));
                }
                Ok(sum(alloc, left, operand)?)
            }
        }
    }
}

/// An operand after the product that waits for it.
fn product(alloc: Global, factor: Option<Node>, operand: Node) -> Result<Node, AllocError>
    ensures { IfOk result (λ node. tree node ≡ times tree_making (factor_tree factor) (tree operand)) }
{
    match factor {
        None => Ok(operand),
        Some(left) => combine(alloc, Operation::Intersection, left, operand),
    }
}

/// A product after the sum that waits for it.
fn sum(alloc: Global, left: Option<Left>, operand: Node) -> Result<Node, AllocError>
    ensures { IfOk result (λ node. tree node ≡ plus tree_making (left_tree left) (tree operand)) }
{
    match left {
        None => Ok(operand),
        Some(
            Left {
                operation,
                operand: before,
            },
        ) => combine(alloc, operation, before, operand),
    }
}

/// What waits after an operator.
fn waiting(
    alloc: Global,
    left: Option<Left>,
    operand: Node,
    o: Operation,
) -> Result<Within, AllocError>
    ensures { IfOk result (IsAfterOperator o left operand) }
{
    if o == Operation::Intersection {
        return Ok(Within::Awaits(left, Some(operand)));
    }
    let operand = sum(alloc, left, operand)?;
    Ok(Within::Awaits(
        Some(Left {
            operation: o,
            operand,
        }),
        None,
    ))
}
