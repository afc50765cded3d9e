//! Printing: an expression as its canonical text.

ghost use Rattle.std.specs.Prelude.{◌≡◌, ◌↔◌, ◌++◌, List, ℕ, codes, string_bytes, OnOk, IfOk};
ghost use Rattle.expr_reader.specs.Trees.{Tree, tree_of};
ghost use Rattle.expr_reader.specs.Canonical.{numeral, canonical, word_text, choice_text, in_place};
ghost use Rattle.expr_reader.specs.Printing.{numerals, bounds_text, kind_text, members_text};
ghost use Rattle.expr_reader.specs.Grammar.{Spells, Fits};
ghost use Rattle.expr_reader.specs.Tokens.{tokens};
ghost use Rattle.expr_reader.specs.Answers.{IsAccepted};
ghost use Rattle.expr_reader.specs.Buildable.{IsBuildable};

use crate::token::{Choice, Name, Word};
use crate::tree::{Bounds, Expr, Form, Parts, RoundKind};
use crate::words::letters;
use space_core::NoMemory;
use std::alloc::{AllocError, Global};

/// Puts a number and a comma at the end.
fn put_number(out: &mut String, number: u64) -> Result<(), AllocError>
    ensures { OnOk result (string_bytes out.new ≡ string_bytes out.old ++ numeral number) }
{
    write!(out, "{number},")
}

/// Puts numbers with a comma behind each at the end.
fn put_numbers(out: &mut String, numbers: &[u64]) -> Result<(), AllocError>
    ensures { OnOk result (string_bytes out.new ≡ string_bytes out.old ++ numerals numbers.now) }
{
    for number in numbers {
        put_number(out, *number)?;
    }
    Ok(())
}

/// Puts the word of a layer and the parenthesis behind it at the end.
fn put_word(out: &mut String, name: Name) -> Result<(), AllocError>
    ensures { OnOk result (string_bytes out.new ≡ string_bytes out.old ++ (word_text name ++ codes "(")) }
{
    out.push_str(letters(Word::Named(name)))?;
    out.push_str("(")
}

/// Puts a word in place of numbers and a comma at the end.
fn put_choice(out: &mut String, choice: Choice) -> Result<(), AllocError>
    ensures { OnOk result (string_bytes out.new ≡ string_bytes out.old ++ (choice_text choice ++ codes ",")) }
{
    out.push_str(letters(Word::Chosen(choice)))?;
    out.push_str(",")
}

/// Puts the sizes that a free list keeps at the end.
fn put_bounds(out: &mut String, bounds: Bounds) -> Result<(), AllocError>
    ensures { OnOk result (string_bytes out.new ≡ string_bytes out.old ++ bounds_text bounds) }
{
    match bounds {
        Bounds::Any => put_choice(out, Choice::Any),
        Bounds::Range { min, max } => put_numbers(out, &[min, max]),
    }
}

/// Puts what a quantizer rounds up to at the end.
fn put_kind(out: &mut String, kind: RoundKind) -> Result<(), AllocError>
    ensures { OnOk result (string_bytes out.new ≡ string_bytes out.old ++ kind_text kind) }
{
    match kind {
        RoundKind::Pow2 => put_choice(out, Choice::Pow2),
        RoundKind::Step { step } => put_number(out, step),
    }
}

/// Puts the members of a segregator but the last at the end, with their thresholds.
#[cycle(print)]
fn put_members(out: &mut String, parts: &Parts) -> Result<(), AllocError>
    ensures { OnOk result (string_bytes out.new ≡ string_bytes out.old ++ members_text parts.now) }
{
    for part in &parts.items {
        put_number(out, part.threshold)?;
        put(out, &part.member)?;
        out.push_str(",")?;
    }
    Ok(())
}

/// Puts the last layer of some arguments at the end, and the parenthesis that closes.
#[cycle(print)]
fn put_last(out: &mut String, below: &Expr) -> Result<(), AllocError>
    ensures { OnOk result (string_bytes out.new ≡ string_bytes out.old ++ (canonical (tree_of below.now) ++ codes ")")) }
{
    put(out, below)?;
    out.push_str(")")
}

/// Puts a layer with one layer below it at the end.
#[cycle(print)]
fn put_layer(out: &mut String, name: Name, numbers: &[u64], below: &Expr) -> Result<(), AllocError>
    ensures { OnOk result (string_bytes out.new ≡ string_bytes out.old ++ (word_text name ++ (codes "(" ++ (numerals numbers.now ++ (canonical (tree_of below.now) ++ codes ")"))))) }
{
    put_word(out, name)?;
    put_numbers(out, numbers)?;
    put_last(out, below)
}

/// Puts the canonical text of an expression at the end.
#[cycle(print)]
#[tactic(auto, using(crate::proofs::Printed::texts))]
fn put(out: &mut String, expr: &Expr) -> Result<(), AllocError>
    ensures { OnOk result (string_bytes out.new ≡ string_bytes out.old ++ canonical (tree_of expr.now)) }
{
    match &expr.form {
        Form::Null => out.push_str(letters(Word::Named(Name::Null))),
        Form::Mem => out.push_str(letters(Word::Named(Name::Mem))),
        Form::Region {
            size,
            align,
            parent,
        } => put_layer(out, Name::Region, &[*size, *align], parent),
        Form::Bitmap {
            block,
            count,
            parent,
        } => put_layer(out, Name::Bitmap, &[*block, *count], parent),
        Form::Kr { size, parent } => put_layer(out, Name::Kr, &[*size], parent),
        Form::FreeList { bounds, parent } => {
            put_word(out, Name::FreeList)?;
            put_bounds(out, *bounds)?;
            put_last(out, parent)
        }
        Form::Quantize { kind, parent } => {
            put_word(out, Name::Quantize)?;
            put_kind(out, *kind)?;
            put_last(out, parent)
        }
        Form::Stats { parent } => put_layer(out, Name::Stats, &[], parent),
        Form::Affix {
            prefix,
            suffix,
            parent,
        } => put_layer(out, Name::Affix, &[*prefix, *suffix], parent),
        Form::Segregate { parts, last } => {
            put_word(out, Name::Segregate)?;
            put_members(out, parts)?;
            put_last(out, last)
        }
        Form::Buckets {
            min,
            max,
            step,
            member,
        } => put_layer(out, Name::Buckets, &[*min, *max, *step], member),
        Form::Fallback { primary, second } => {
            put_word(out, Name::Fallback)?;
            put(out, primary)?;
            out.push_str(",")?;
            put_last(out, second)
        }
        Form::List { count, member } => put_layer(out, Name::List, &[*count], member),
    }
}

/// The canonical text of an expression: no spaces, and no leading zeros.
pub fn print(alloc: Global, expr: &Expr) -> Result<String, NoMemory>
    ensures { IfOk result (λ text. string_bytes text ≡ canonical (tree_of expr.now)) }
{
    let mut out = String::new(alloc);
    put(&mut out, expr)?;
    Ok(out)
}

/// The canonical text of an expression spells that expression in its places, and no other.
pub fn canonical_is_read()
    ensures { (e : Tree) → Fits e → (f : Tree) → Spells f (tokens (canonical e)) ↔ (f ≡ in_place 0 e) }
{}

/// The canonical text of a buildable expression is accepted, as that expression in its places. So it is of one that was accepted.
pub fn canonical_is_accepted()
    ensures buildable { (e : Tree) → IsBuildable e → IsAccepted (canonical e) (in_place 0 e) }
    ensures accepted { (text : List ℕ) → (e : Tree) → IsAccepted text e → IsAccepted (canonical e) (in_place 0 e) }
{}
