//! From what a row spells to an expression: what each word's form takes out of the arguments.

ghost use Rattle.std.specs.Prelude.{◌≡◌, ◌≤◌, ℕ, suc, false, IfOk};
ghost use Rattle.expr_reader.specs.Nodes.{node_tree, args_tree};
ghost use Rattle.expr_reader.specs.Signatures.{left, takes, inner};
ghost use Rattle.expr_reader.specs.Grammar.{Fits, FitsIn, depth, greatest_depth};
ghost use Rattle.expr_reader.specs.Trees.{leaf, node, last, tree_of, form_tree, kind_args};
ghost use Rattle.expr_reader.specs.Trees as trees;
ghost use Rattle.expr_reader.specs.declared.signature.Entry.TheVariants.{Alone};
ghost use Rattle.expr_reader.specs.declared.token.Name.TheVariants.{Quantize};

use crate::node::{Args, Node};
use crate::token::{Choice, Name};
use crate::tree::{Bounds, Expr, Form, RoundKind};
use std::alloc::{AllocError, Global};

/// A number, behind which `more` numbers and the last layer come.
#[tactic(auto, using(crate::proofs::Nothing::nothing_fits))]
fn number(args: Args, more: u32) -> (u64, Args)
    requires { FitsIn (args_tree args) (left (suc more) 0 false) }
    ensures is { args_tree args ≡ trees.number result.0 (args_tree result.1) }
    ensures behind { FitsIn (args_tree result.1) (left more 0 false) }
    ensures depth { greatest_depth (args_tree result.1) ≡ greatest_depth (args_tree args) }
{
    match args {
        Args::Number { value, rest } => (value, Box::into_inner(rest)),
        _ => unreachable!(),
    }
}

/// What a quantizer rounds up to, behind which the last layer comes.
#[tactic(auto, using(crate::proofs::Nothing::nothing_fits))]
fn round_kind(args: Args) -> (RoundKind, Args)
    requires { FitsIn (args_tree args) (inner (takes Quantize)) }
    ensures is { args_tree args ≡ kind_args result.0 (args_tree result.1) }
    ensures behind { FitsIn (args_tree result.1) (left 0 0 false) }
    ensures depth { greatest_depth (args_tree result.1) ≡ greatest_depth (args_tree args) }
{
    match args {
        Args::Number { value, rest } => (RoundKind::Step { step: value }, Box::into_inner(rest)),
        Args::Chosen { choice, rest } => match choice {
            Choice::Pow2 => (RoundKind::Pow2, Box::into_inner(rest)),
            Choice::Any => unreachable!(),
        },
        _ => unreachable!(),
    }
}

/// The last layer.
#[tactic(auto, using(crate::proofs::Nothing::nothing_fits))]
fn only(args: Args) -> Node
    requires { FitsIn (args_tree args) (left 0 0 false) }
    ensures is { args_tree args ≡ last (node_tree result) }
    ensures fits { Fits (node_tree result) }
    ensures depth { depth (node_tree result) ≡ greatest_depth (args_tree args) }
{
    match args {
        Args::Last { below } => Box::into_inner(below),
        _ => unreachable!(),
    }
}

/// The form of a word that stands alone.
fn leaf_form(name: Name) -> Form
    requires { takes name ≡ Alone }
    ensures { (at : ℕ) → form_tree at result ≡ leaf at name }
{
    match name {
        Name::Null => Form::Null,
        Name::Mem => Form::Mem,
        _ => unreachable!(),
    }
}

/// The form of a layer, with `left` layers at most below it.
#[cycle(forms)]
#[tactic(auto, using(crate::proofs::Nothing::nothing_fits))]
fn layer_form(alloc: Global, left: u32, name: Name, args: Args) -> Result<Form, AllocError>
    requires fits { FitsIn (args_tree args) (inner (takes name)) }
    requires shallow { greatest_depth (args_tree args) ≤ left }
    ensures { IfOk result (λ form. (at : ℕ) → form_tree at form ≡ node at name (args_tree args)) }
{
    match name {
        Name::Region => {
            let (size, args) = number(args, 1);
            let (align, args) = number(args, 0);
            let parent = parent(alloc, left, args)?;
            Ok(Form::Region {
                size,
                align,
                parent,
            })
        }
        Name::FreeList => {
            let (min, args) = number(args, 1);
            let (max, args) = number(args, 0);
            let parent = parent(alloc, left, args)?;
            let bounds = Bounds::Range { min, max };
            Ok(Form::FreeList { bounds, parent })
        }
        Name::Quantize => {
            let (kind, args) = round_kind(args);
            let parent = parent(alloc, left, args)?;
            Ok(Form::Quantize { kind, parent })
        }
        Name::Stats => {
            let parent = parent(alloc, left, args)?;
            Ok(Form::Stats { parent })
        }
        Name::Affix => {
            let (prefix, args) = number(args, 1);
            let (suffix, args) = number(args, 0);
            let parent = parent(alloc, left, args)?;
            Ok(Form::Affix {
                prefix,
                suffix,
                parent,
            })
        }
        _ => unreachable!(),
    }
}

/// The last layer, of `most` layers at most, as the parent of the layer above.
#[cycle(forms)]
fn parent(alloc: Global, most: u32, args: Args) -> Result<Box<Expr>, AllocError>
    requires fits { FitsIn (args_tree args) (left 0 0 false) }
    requires shallow { greatest_depth (args_tree args) ≤ most }
    ensures { IfOk result (λ parent. args_tree args ≡ last (tree_of parent.value)) }
{
    let expr = expr_of(alloc, most, only(args))?;
    Ok(Box::new(alloc, expr)?)
}

/// The expression that was read, of `left` layers at most.
#[cycle(forms)]
pub fn expr_of(alloc: Global, left: u32, node: Node) -> Result<Expr, AllocError>
    requires fits { Fits (node_tree node) }
    requires shallow { depth (node_tree node) ≤ left }
    ensures { IfOk result (λ e. tree_of e ≡ node_tree node) }
{
    match node {
        Node::Leaf { at, name } => Ok(Expr {
            at,
            form: leaf_form(name),
        }),
        Node::Inner { at, name, args } => Ok(Expr {
            at,
            form: layer_form(alloc, left - 1, name, args)?,
        }),
    }
}
