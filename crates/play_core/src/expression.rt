// What is told of an expression: its fault, or what stands in it.
ghost use Rattle.std.specs.Prelude.{◌≡◌, ◌≤◌, ◌++◌, List, ℕ, codes, length, string_bytes, IfOk, OnOk};
ghost use Rattle.space_core.specs.Memory.{no_memory};
ghost use Rattle.expr_reader.specs.Buildable.{IsBuildable};
ghost use Rattle.expr_reader.specs.Canonical.{canonical};
ghost use Rattle.expr_reader.specs.Trees.{tree_of};
ghost use Rattle.play_core.specs.CheckText.{check_text, offered, offers_text, rules_text};
ghost use Rattle.play_core.specs.Runs.{HasAllFree};
ghost use Rattle.play_core.specs.Telling.{cause_line, expression_text};

use expr_builder::build;
use expr_builder::laws::buildable_are_compositions;
use expr_reader::{Expr, ExprFault, print};
use layer_core::{Layer, Offers};
use line_text::{Line, push_number};
use space_core::{NoMemory, Space};
use std::alloc::{AllocError, Global};

// The line that tells what is wrong with an expression, and where.
fn cause_line(cause: &str, at: u64) -> Line
    requires { length cause.now ≤ 100 }
    ensures { result.bytes ≡ cause_line cause.now at }
{
    let mut line = Line::new();
    line.push_str("expression: ");
    line.push_str(cause);
    line.push_str(" at ");
    push_number(&mut line, at);
    line.push_str("\n");
    line
}

// The line of a fault; want of memory has none.
pub(crate) fn expression_line(fault: ExprFault) -> Line
    ensures { result.bytes ≡ expression_text fault }
{
    match fault {
        ExprFault::Syntax { at } => cause_line("syntax", at),
        ExprFault::NumberTooLarge { at } => cause_line("number too large", at),
        ExprFault::TooDeep { at } => cause_line("too deep", at),
        ExprFault::BadParameter { at } => cause_line("bad parameter", at),
        ExprFault::NeedsAlignment { at } => cause_line("needs alignment", at),
        ExprFault::NoMemory => Line::new(),
    }
}

// Puts a word behind a space, where it is offered.
fn put_offer(text: &mut String, is_offered: bool, word: &str) -> Result<(), AllocError>
    ensures { OnOk result (string_bytes text.new ≡ string_bytes text.old ++ offered is_offered word.now) }
{
    if is_offered {
        write!(text, " {word}")
    } else {
        Ok(())
    }
}

// Puts each call that is offered, or none.
fn put_offers(text: &mut String, offers: Offers) -> Result<(), AllocError>
    ensures { OnOk result (string_bytes text.new ≡ string_bytes text.old ++ offers_text offers) }
{
    if !(offers.owns || offers.expand || offers.aligned || offers.all) {
        return text.push_str(" none");
    }
    put_offer(text, offers.owns, "owns")?;
    put_offer(text, offers.expand, "expand")?;
    put_offer(text, offers.aligned, "aligned")?;
    put_offer(text, offers.all, "all")
}

// Puts the nodes of a root, its alignment, and what it offers.
#[tactic(auto, unfolding(crate::specs::CheckText::rules_text))]
fn put_rules<L: Layer>(text: &mut String, root: &L) -> Result<(), AllocError>
    ensures { OnOk result (string_bytes text.new ≡ string_bytes text.old ++ rules_text (L.model root.now).rules) }
{
    write!(
        text,
        "nodes {}\nalign {}\noffers",
        root.nodes(),
        root.alignment()
    )?;
    put_offers(text, root.offers())?;
    text.push_str("\n")
}

// What stands in an expression that this root was built of.
fn text_of<L: Layer>(alloc: Global, expr: &Expr, root: L) -> Result<String, NoMemory>
    ensures { IfOk result (λ text. string_bytes text ≡ canonical (tree_of expr.now) ++ (codes "\n" ++ rules_text (L.model root).rules)) }
{
    let mut text = print(alloc, expr)?;
    text.push_str("\n")?;
    put_rules(&mut text, &root)?;
    Ok(text)
}

// What stands in an expression.
pub(crate) fn check_text(alloc: Global, expr: &Expr, space: &mut Space) -> Result<String, NoMemory>
    requires closed { space.old ≡ no_memory 0 }
    requires buildable { IsBuildable (tree_of expr.now) }
    ensures text { IfOk result (λ text. string_bytes text ≡ check_text (tree_of expr.now)) }
    ensures free { HasAllFree space.new }
{
    buildable_are_compositions();
    let root = build(alloc, expr, space)?;
    text_of(alloc, expr, root)
}
