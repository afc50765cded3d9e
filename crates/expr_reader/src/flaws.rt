//! The flaws of what was read, by the table of words.

ghost use Rattle.std.specs.Prelude.{◌≡◌, ◌≤◌, ◌++◌, List, ℕ, map, min, length, slice_get, None, IfOk, OnOk};
ghost use Rattle.size_round.specs.Sizes.{is_multiple, is_power_of_two, limit};
ghost use Rattle.expr_reader.specs.Nodes.{node_tree, args_tree};
ghost use Rattle.expr_reader.specs.Trees.{place_of};
ghost use Rattle.expr_reader.specs.Flaws as spec;
ghost use Rattle.expr_reader.specs.Flaws.{alignment, least_alignment, layer_flaws, flaws, flaws_in, first_told, head_places};
ghost use Rattle.expr_reader.specs.declared.token.Token.{Token};

use crate::fault::ExprFault;
use crate::node::{Args, Head, Node};
use crate::table::{Alignment, Allowed, profile_of};
use crate::token::{Name, Token};
use affix_layer::alignment_behind;
use size_round::{PowerOfTwo, Rounding};
use std::alloc::{AllocError, Global};

// ---- what the table says of a word

/// The word's number with this index, and else another.
fn number_or(other: u64, heads: &[Head], index: usize) -> u64
    ensures { result ≡ spec.number_or other (slice_get heads.now index) }
{
    match heads.get(index) {
        Some(Head::Number(n)) => *n,
        _ => other,
    }
}

/// An alignment, from the word's numbers and the alignment below it.
fn own_alignment(alignment: Alignment, heads: &[Head], below: u64) -> u64
    ensures { result ≡ spec.own_alignment alignment heads.now below }
{
    match alignment {
        Alignment::AsBelow => below,
        Alignment::Fixed { bytes } => bytes,
        Alignment::OfNumber { index } => number_or(below, heads, index),
        Alignment::Behind { index } => alignment_behind(number_or(0, heads, index), below),
    }
}

/// The alignment that is needed below.
fn own_need(alignment: Alignment, heads: &[Head]) -> u64
    ensures { result ≡ spec.own_need alignment heads.now }
{
    match alignment {
        Alignment::AsBelow => 0,
        Alignment::Fixed { bytes } => bytes,
        Alignment::OfNumber { index } => number_or(0, heads, index),
        Alignment::Behind { index } => {
            if number_or(0, heads, index) == 0 {
                0
            } else {
                8
            }
        }
    }
}

/// The alignment of a word, where the least alignment below it is `below`.
fn word_alignment(name: Name, heads: &[Head], below: u64) -> u64
    ensures { result ≡ spec.word_alignment name heads.now below }
{
    own_alignment(profile_of(name).alignment, heads, below)
}

fn is_power_of_two(n: u64) -> bool
    requires one { 1 ≤ n }
    requires most { n ≤ limit }
    ensures { result ≡ is_power_of_two n }
{
    PowerOfTwo.round(n) == n
}

/// Whether the number is a multiple of the step; of 0 only 0 is.
fn is_multiple(n: u64, step: u64) -> bool
    ensures { result ≡ is_multiple n step }
{
    if step == 0 {
        return n == 0;
    }
    n % step == 0
}

/// Whether the number is allowed, among all that its word has.
fn is_allowed(all: &[Head], allowed: Allowed, n: u64) -> bool
    ensures { result ≡ spec.is_allowed all.now allowed n }
{
    match allowed {
        Allowed::Between { least, most } => least <= n && n <= most,
        Allowed::PowerOfTwo { most } => n >= 1 && n <= u64::from(most) && is_power_of_two(n),
        Allowed::MultipleOf { step, most } => n <= most && is_multiple(n, step),
        Allowed::AtMostNumber { index } => n <= number_or(n, all, index),
    }
}

/// What a layer gives to a word in place of numbers directly below it.
fn gives(_name: Name, _heads: &[Head]) -> Option<u64>
    ensures { result ≡ spec.gives _name _heads.now }
{
    None
}

// ---- all else goes by the arguments

/// Puts the numbers of the arguments, and the words in their place, at the end.
fn put_heads(args: &Args, out: &mut Vec<Head>) -> Result<(), AllocError>
    ensures { OnOk result (out.new.items ≡ out.old.items ++ spec.heads (args_tree args.now)) }
{
    match args {
        Args::Last { .. } => Ok(()),
        Args::Number { value, rest } => {
            out.push(Head::Number(*value))?;
            put_heads(rest, out)
        }
        Args::Chosen { choice, rest } => {
            out.push(Head::Chosen(*choice))?;
            put_heads(rest, out)
        }
        Args::Layer { rest, .. } => put_heads(rest, out),
    }
}

/// How many tokens spell what was read, where there are no more than `most`.
#[cycle(sizes)]
fn size(node: &Node, most: usize) -> usize
    requires { spec.size (node_tree node.now) ≤ most }
    ensures { result ≡ spec.size (node_tree node.now) }
{
    match node {
        Node::Leaf { .. } => 1,
        Node::Inner { args, .. } => size_in(args, most - 2) + 2,
    }
}

/// How many tokens spell the arguments.
#[cycle(sizes)]
fn size_in(args: &Args, most: usize) -> usize
    requires { spec.size_in (args_tree args.now) ≤ most }
    ensures { result ≡ spec.size_in (args_tree args.now) }
{
    match args {
        Args::Last { below } => size(below, most - 1) + 1,
        Args::Number { rest, .. } => size_in(rest, most - 2) + 2,
        Args::Chosen { rest, .. } => size_in(rest, most - 2) + 2,
        Args::Layer { below, rest } => size(below, most) + 1 + size_in(rest, most),
    }
}

/// Puts the places of the numbers, and of the words in their place, at the end. The tokens of the arguments begin at `places`.
fn put_places(args: &Args, places: &[u64], out: &mut Vec<u64>) -> Result<(), AllocError>
    requires { spec.size_in (args_tree args.now) ≤ length places.now }
    ensures { OnOk result (out.new.items ≡ out.old.items ++ head_places (args_tree args.now) places.now) }
{
    match args {
        Args::Last { .. } => Ok(()),
        Args::Number { rest, .. } => {
            out.push(places[0])?;
            put_places(rest, &places[2..], out)
        }
        Args::Chosen { rest, .. } => {
            out.push(places[0])?;
            put_places(rest, &places[2..], out)
        }
        Args::Layer { below, rest } => {
            let first = size(below, places.len()) + 1;
            put_places(rest, &places[first..], out)
        }
    }
}

fn node_place(node: &Node) -> u64
    ensures { result ≡ place_of (node_tree node.now) }
{
    match node {
        Node::Leaf { at, .. } => *at,
        Node::Inner { at, .. } => *at,
    }
}

/// The place of the first layer.
fn first_place(args: &Args) -> u64
    ensures { result ≡ spec.first_place (args_tree args.now) }
{
    match args {
        Args::Last { below } => node_place(below),
        Args::Number { rest, .. } => first_place(rest),
        Args::Chosen { rest, .. } => first_place(rest),
        Args::Layer { below, .. } => node_place(below),
    }
}

fn unless(is_kept: bool, fault: ExprFault) -> Option<ExprFault>
    ensures { result ≡ spec.unless is_kept fault }
{
    if is_kept { None } else { Some(fault) }
}

fn fault_place(fault: ExprFault) -> u64
    ensures { result ≡ spec.fault_place fault }
{
    match fault {
        ExprFault::Syntax { at } => at,
        ExprFault::NumberTooLarge { at } => at,
        ExprFault::TooDeep { at } => at,
        ExprFault::BadParameter { at } => at,
        ExprFault::NeedsAlignment { at } => at,
        ExprFault::NoMemory => 0,
    }
}

fn fault_rank(fault: ExprFault) -> u32
    ensures { result ≡ spec.fault_rank fault }
{
    match fault {
        ExprFault::Syntax { .. } => 0,
        ExprFault::NumberTooLarge { .. } => 1,
        ExprFault::TooDeep { .. } => 2,
        ExprFault::BadParameter { .. } => 3,
        ExprFault::NeedsAlignment { .. } => 4,
        ExprFault::NoMemory => 5,
    }
}

fn goes_before(first: ExprFault, second: ExprFault) -> bool
    ensures { result ≡ spec.goes_before first second }
{
    let place = fault_place(first);
    let other = fault_place(second);
    if place == other {
        fault_rank(first) < fault_rank(second)
    } else {
        place < other
    }
}

fn first_of_two(first: Option<ExprFault>, second: Option<ExprFault>) -> Option<ExprFault>
    ensures { result ≡ spec.first_of_two first second }
{
    match (first, second) {
        (None, _) => second,
        (Some(_), None) => first,
        (Some(f), Some(g)) => { if goes_before(g, f) { second } else { first } }
    }
}

/// The fault that is told of the numbers that aren't allowed, where each has its place. All that the word has are `all`.
#[tactic(auto, using(crate::proofs::Told::told))]
fn broken(
    given: Option<u64>,
    all: &[Head],
    allowed: &[Allowed],
    heads: &[Head],
    places: &[u64],
) -> Option<ExprFault>
    ensures { result ≡ first_told (spec.broken (spec.are_allowed given all.now allowed.now heads.now) places.now) }
{
    match allowed {
        [] => None,
        [test, tests @ ..] => match heads {
            [Head::Number(n), more @ ..] => match places {
                [] => first_of_two(
                    unless(
                        is_allowed(all, *test, *n),
                        ExprFault::BadParameter { at: 0 },
                    ),
                    broken(given, all, tests, more, places),
                ),
                [place, others @ ..] => first_of_two(
                    unless(
                        is_allowed(all, *test, *n),
                        ExprFault::BadParameter { at: *place },
                    ),
                    broken(given, all, tests, more, others),
                ),
            },
            _ => None,
        },
    }
}

/// The lesser of two alignments.
fn lesser(a: u64, b: u64) -> u64
    ensures { result ≡ min a b }
{
    if a <= b { a } else { b }
}

/// An alignment in bytes, and the flaw that is told.
#[derive(Clone, Copy, Drop)]
struct Judged {
    align: u64,
    flaw: Option<ExprFault>,
}

/// The flaw of a layer itself that is told, where the least alignment below it is `align`. Its arguments begin at `places`.
#[tactic(auto, using(crate::proofs::Told::told))]
fn layer_flaw(
    alloc: Global,
    given: Option<u64>,
    name: Name,
    args: &Args,
    heads: &[Head],
    align: u64,
    places: &[u64],
) -> Result<Option<ExprFault>, AllocError>
    requires heads { heads.now ≡ spec.heads (args_tree args.now) }
    requires align { align ≡ least_alignment (args_tree args.now) }
    requires places { spec.size_in (args_tree args.now) ≤ length places.now }
    ensures { IfOk result (λ flaw. flaw ≡ first_told (layer_flaws given name (args_tree args.now) places.now)) }
{
    let mut head_places = Vec::new(alloc);
    put_places(args, places, &mut head_places)?;
    let low = unless(
        own_need(profile_of(name).alignment, heads) <= align,
        ExprFault::NeedsAlignment {
            at: first_place(args),
        },
    );
    let bad = broken(given, heads, profile_of(name).allowed, heads, &head_places);
    Ok(first_of_two(low, bad))
}

/// What is to be said of a layer whose tokens begin at `places`, below one that gives `given`.
#[cycle(judging)]
#[tactic(auto, using(crate::proofs::Told::told))]
fn judge(
    alloc: Global,
    given: Option<u64>,
    node: &Node,
    places: &[u64],
) -> Result<Judged, AllocError>
    requires { spec.size (node_tree node.now) ≤ length places.now }
    ensures align { IfOk result (λ x. x.align ≡ alignment (node_tree node.now)) }
    ensures flaw { IfOk result (λ x. x.flaw ≡ first_told (flaws given (node_tree node.now) places.now)) }
{
    match node {
        Node::Leaf { name, .. } => Ok(Judged {
            align: word_alignment(*name, &[], 0),
            flaw: None,
        }),
        Node::Inner { name, args, .. } => {
            let places = &places[2..];
            let mut heads = Vec::new(alloc);
            put_heads(args, &mut heads)?;
            let below = judge_args(alloc, gives(*name, &heads), args, places)?;
            let own = layer_flaw(alloc, given, *name, args, &heads, below.align, places)?;
            Ok(Judged {
                align: word_alignment(*name, &heads, below.align),
                flaw: first_of_two(own, below.flaw),
            })
        }
    }
}

/// What is to be said of the layers of some arguments: the least alignment, and the flaw that is told.
#[cycle(judging)]
#[tactic(auto, using(crate::proofs::Told::told))]
fn judge_args(
    alloc: Global,
    given: Option<u64>,
    args: &Args,
    places: &[u64],
) -> Result<Judged, AllocError>
    requires { spec.size_in (args_tree args.now) ≤ length places.now }
    ensures align { IfOk result (λ x. x.align ≡ least_alignment (args_tree args.now)) }
    ensures flaw { IfOk result (λ x. x.flaw ≡ first_told (flaws_in given (args_tree args.now) places.now)) }
{
    match args {
        Args::Last { below } => judge(alloc, given, below, places),
        Args::Number { rest, .. } => judge_args(alloc, given, rest, &places[2..]),
        Args::Chosen { rest, .. } => judge_args(alloc, given, rest, &places[2..]),
        Args::Layer { below, rest } => {
            let first = judge(alloc, given, below, places)?;
            let behind = size(below, places.len()) + 1;
            let others = judge_args(alloc, given, rest, &places[behind..])?;
            Ok(Judged {
                align: lesser(first.align, others.align),
                flaw: first_of_two(first.flaw, others.flaw),
            })
        }
    }
}

/// Where the tokens of a row begin.
fn starts(alloc: Global, row: &[Token]) -> Result<Vec<u64>, AllocError>
    ensures { IfOk result (λ v. v.items ≡ map (λ (t : Token). t.at) row.now) }
{
    let mut places = Vec::new(alloc);
    for token in row {
        places.push(token.at)?;
    }
    Ok(places)
}

/// The flaw that is told of what a row spells.
pub fn first_flaw(
    alloc: Global,
    node: &Node,
    row: &[Token],
) -> Result<Option<ExprFault>, AllocError>
    requires { spec.size (node_tree node.now) ≤ length row.now }
    ensures { IfOk result (λ flaw. flaw ≡ first_told (flaws None (node_tree node.now) (map (λ (t : Token). t.at) row.now))) }
{
    let places = starts(alloc, row)?;
    let judged = judge(alloc, None, node, &places)?;
    Ok(judged.flaw)
}
