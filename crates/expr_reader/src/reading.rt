//! Reading: from the tokens of a text to what they spell, by the signatures of the words.

ghost use Rattle.std.specs.Prelude.{◌≡◌, Some, IfOk, IfErr};
ghost use Rattle.expr_reader.specs.Nodes.{node_tree, args_tree};
ghost use Rattle.expr_reader.specs.Descent.{same_mark, behind_mark, more, after_numeral, after_tree, args_at, layer_at, tree_at, whole_at, answer_to, Answers};
ghost use Rattle.expr_reader.specs.Signatures as signatures;
ghost use Rattle.expr_reader.specs.Trees as trees;
ghost use Rattle.expr_reader.specs.Trees.{Tree, tree_of};
ghost use Rattle.expr_reader.specs.Answers.{IsAccepted, HasFault, IsFaultOrNoMemory, FailsWith, Gives, AnswersAreReadings, EachTextIsReadOnce};
ghost use Rattle.expr_reader.specs.Buildable.{IsBuildable};
ghost use Rattle.expr_reader.specs.declared.fault.ExprFault.{ExprFault};

use crate::fault::ExprFault;
use crate::flaws::first_flaw;
use crate::forms::expr_of;
use crate::lexing::tokens;
use crate::node::{Args, Node};
use crate::signature::{Entry, Signature, after_choice, after_layer, after_number, ends, takes};
use crate::token::{Choice, Kind, Mark, Name, Token, Word};
use crate::tree::Expr;
use std::alloc::Global;

/// How many layers may stand on one path above a leaf.
const MOST_LAYERS: u32 = 8;

fn same_mark(a: Mark, b: Mark) -> bool
    ensures { result ≡ same_mark a b }
{
    match (a, b) {
        (Mark::Open, Mark::Open) => true,
        (Mark::Comma, Mark::Comma) => true,
        (Mark::Close, Mark::Close) => true,
        _ => false,
    }
}

/// The row behind a mark.
fn behind_mark(mark: Mark, end: u64, row: &[Token]) -> Result<&[Token], ExprFault>
    ensures { Answers (λ rest. rest.now) result (behind_mark mark end row.now) }
{
    match row {
        [] => Err(ExprFault::Syntax { at: end }),
        [token, rest @ ..] => match token.kind {
            Kind::Mark(found) => {
                if same_mark(mark, found) {
                    Ok(rest)
                } else {
                    Err(ExprFault::Syntax { at: token.at })
                }
            }
            _ => Err(ExprFault::Syntax { at: token.at }),
        },
    }
}

/// What a signature takes with the parenthesis that closes it, of no more than `most` arguments, with `left` layers at most.
#[cycle(descent)]
#[tactic(auto, using(crate::proofs::Steps::arguments))]
fn arguments(
    alloc: Global,
    left: u32,
    most: usize,
    signature: Signature,
    end: u64,
    row: &[Token],
) -> Result<(Args, &[Token]), ExprFault>
    ensures { Answers (λ x. (args_tree x.0, x.1.now)) result (args_at (tree_at left) most signature end row.now) }
{
    if most == 0 {
        return Err(ExprFault::Syntax { at: end });
    }
    match row {
        [] => Err(ExprFault::Syntax { at: end }),
        [token, rest @ ..] => match token.kind {
            Kind::Word(Word::Named(_)) => layers(
                alloc,
                left,
                most - 1,
                signature,
                token.at,
                end,
                row,
            ),
            Kind::Word(Word::Chosen(choice)) => {
                let next = after_choice(choice, signature);
                chosen(alloc, left, most - 1, next, choice, token.at, end, rest)
            }
            Kind::Number(value) => {
                let next = after_number(signature);
                numbered(alloc, left, most - 1, next, value, token.at, end, rest)
            }
            _ => Err(ExprFault::Syntax { at: token.at }),
        },
    }
}

/// A word in place of numbers and what comes behind it, from the comma on.
#[cycle(descent)]
fn chosen(
    alloc: Global,
    left: u32,
    most: usize,
    next: Option<Signature>,
    choice: Choice,
    at: u64,
    end: u64,
    row: &[Token],
) -> Result<(Args, &[Token]), ExprFault>
    ensures { Answers (λ x. (args_tree x.0, x.1.now)) result (more (args_at (tree_at left) most) next at (trees.choice choice) end row.now) }
{
    match next {
        None => Err(ExprFault::Syntax { at }),
        Some(next) => {
            let row = behind_mark(Mark::Comma, end, row)?;
            let (rest, row) = arguments(alloc, left, most, next, end, row)?;
            let args = Args::Chosen {
                choice,
                rest: Box::new(alloc, rest)?,
            };
            Ok((args, row))
        }
    }
}

/// A number and what comes behind it, from the comma on.
#[cycle(descent)]
fn numbered(
    alloc: Global,
    left: u32,
    most: usize,
    next: Option<Signature>,
    value: Option<u64>,
    at: u64,
    end: u64,
    row: &[Token],
) -> Result<(Args, &[Token]), ExprFault>
    ensures { Answers (λ x. (args_tree x.0, x.1.now)) result (after_numeral (args_at (tree_at left) most) next at value end row.now) }
{
    match next {
        None => Err(ExprFault::Syntax { at }),
        Some(next) => match value {
            None => Err(ExprFault::NumberTooLarge { at }),
            Some(value) => {
                let row = behind_mark(Mark::Comma, end, row)?;
                let (rest, row) = arguments(alloc, left, most, next, end, row)?;
                let args = Args::Number {
                    value,
                    rest: Box::new(alloc, rest)?,
                };
                Ok((args, row))
            }
        },
    }
}

/// A layer and what comes behind it.
#[cycle(descent)]
fn layers(
    alloc: Global,
    left: u32,
    most: usize,
    signature: Signature,
    at: u64,
    end: u64,
    row: &[Token],
) -> Result<(Args, &[Token]), ExprFault>
    ensures { Answers (λ x. (args_tree x.0, x.1.now)) result (after_tree (tree_at left) (args_at (tree_at left) most) (signatures.ends (Some signature)) (signatures.after_layer (Some signature)) at end row.now) }
{
    if ends(signature) {
        let (below, row) = tree(alloc, left, end, row)?;
        let row = behind_mark(Mark::Close, end, row)?;
        let args = Args::Last {
            below: Box::new(alloc, below)?,
        };
        Ok((args, row))
    } else {
        match after_layer(signature) {
            None => Err(ExprFault::Syntax { at }),
            Some(next) => {
                let (below, row) = tree(alloc, left, end, row)?;
                let row = behind_mark(Mark::Comma, end, row)?;
                let (rest, row) = arguments(alloc, left, most, next, end, row)?;
                let args = Args::Layer {
                    below: Box::new(alloc, below)?,
                    rest: Box::new(alloc, rest)?,
                };
                Ok((args, row))
            }
        }
    }
}

/// A layer of `left` layers at most whose word stands at `at`, from the row behind the word.
#[cycle(descent)]
#[tactic(auto, using(crate::proofs::Steps::layers), unfolding(crate::specs::Descent::node_at))]
fn layer(
    alloc: Global,
    left: u32,
    at: u64,
    name: Name,
    signature: Signature,
    end: u64,
    row: &[Token],
) -> Result<(Node, &[Token]), ExprFault>
    ensures { Answers (λ x. (node_tree x.0, x.1.now)) result (layer_at left at name signature end row.now) }
{
    if left == 0 {
        return Err(ExprFault::TooDeep { at });
    }
    let row = behind_mark(Mark::Open, end, row)?;
    let (args, row) = arguments(alloc, left - 1, row.len(), signature, end, row)?;
    Ok((Node::Inner { at, name, args }, row))
}

/// What a row spells of `left` layers at most, and the row behind it.
#[cycle(descent)]
fn tree(alloc: Global, left: u32, end: u64, row: &[Token]) -> Result<(Node, &[Token]), ExprFault>
    ensures { Answers (λ x. (node_tree x.0, x.1.now)) result (tree_at left end row.now) }
{
    match row {
        [] => Err(ExprFault::Syntax { at: end }),
        [token, rest @ ..] => match token.kind {
            Kind::Word(Word::Named(name)) => match takes(name) {
                Entry::Missing => Err(ExprFault::Syntax { at: token.at }),
                Entry::Alone => Ok((Node::Leaf { at: token.at, name }, rest)),
                Entry::Takes(signature) => layer(alloc, left, token.at, name, signature, end, rest),
            },
            _ => Err(ExprFault::Syntax { at: token.at }),
        },
    }
}

/// What a whole row spells.
fn whole_row(alloc: Global, end: u64, row: &[Token]) -> Result<Node, ExprFault>
    ensures { Answers node_tree result (whole_at end row.now) }
{
    let (found, rest) = tree(alloc, MOST_LAYERS, end, row)?;
    match rest {
        [] => Ok(found),
        [token, ..] => Err(ExprFault::Syntax { at: token.at }),
    }
}

/// The answer to a text.
fn answer(alloc: Global, text: &[u8]) -> Result<Expr, ExprFault>
    ensures { Answers tree_of result (answer_to text.now) }
{
    let row = tokens(alloc, text)?;
    let found = whole_row(alloc, text.len() as u64, &row)?;
    match first_flaw(alloc, &found, &row)? {
        None => Ok(expr_of(alloc, MOST_LAYERS, found)?),
        Some(flaw) => Err(flaw),
    }
}

/// Reads an expression: all of the text, as the grammar says.
///
/// The first token that can't stand where it stands is the fault. Where the text reads, the first flaw is. Memory may run out at any text.
pub fn read(alloc: Global, text: &str) -> Result<Expr, ExprFault>
    // What is answered is spelled by the text, and has no flaw.
    ensures sound { IfOk result (λ e. IsAccepted text.now (tree_of e)) }
    // So `build` takes what is answered.
    ensures buildable { IfOk result (λ e. IsBuildable (tree_of e)) }
    // What the text spells without a flaw is answered.
    ensures complete { (e : Tree) → IsAccepted text.now e → Gives e result }
    // A fault comes only where it stands.
    ensures fault { IfErr result (λ f. IsFaultOrNoMemory text.now f) }
    // The fault of the text is told.
    ensures told { (f : ExprFault) → HasFault text.now f → FailsWith f result }
{
    answer(alloc, text.as_bytes())
}

/// Each text is read as one expression or has one fault, and no other: what the descent gives for it.
pub fn each_text_is_read_once()
    ensures once { EachTextIsReadOnce }
    ensures computed { AnswersAreReadings }
{}
