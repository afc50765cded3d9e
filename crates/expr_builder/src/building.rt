//! Building: from an expression to a closed composition of layers.

ghost use Rattle.std.specs.Prelude.{◌≡◌, true, ℕ, ◌+◌, ◌≤◌, IfOk};
ghost use Rattle.space_core.specs.Memory.{most_leaves};
ghost use Rattle.layer_rules.specs.Layering.{IsShut};
ghost use Rattle.size_round.specs.Sizes.{is_proper_kind};
ghost use Rattle.quantize_rules.specs.QuantizeRules.{quantize_rules};
ghost use Rattle.quantizer.specs.QuantizerProper.{IsProper};
ghost use Rattle.composition.specs.CompositionModel.{composition_of};
ghost use Rattle.composition.specs.LevelModel.{over_of};
ghost use Rattle.composition.specs.AnyModel.{any_of};
ghost use Rattle.shapes.specs.RulesOf.{rules_of};
ghost use Rattle.expr_reader.specs.Trees.{tree_of};
ghost use Rattle.expr_reader.specs.Grammar.{depth};
ghost use Rattle.expr_reader.specs.Buildable.{IsBuildable};
ghost use Rattle.expr_builder.specs.ShapeOf.{shape_of, kind_of};
ghost use Rattle.expr_builder.specs.Sound.{leaf_count, with_leaves};

use affix_layer::Affix;
use composition::{AnyLayer, Composition, Half, Leaf, Over, Over2, Quarter, ThreeQuarters};
use expr_reader::{Bounds, Expr, Form, RoundKind};
use free_list::FreeList;
use layer_core::{Layer, NullLayer};
use quantizer::Quantizer;
use region_block::Region;
use size_round::{Multiple, PowerOfTwo};
use space_core::{NoMemory, Space};
use stats_collector::StatsCollector;
use std::alloc::Global;

/// A level of a composition that builds itself, with all below it, from an expression.
trait Level: Layer {
    /// How many layers it has room for on a path.
    ghost levels: { ℕ };

    /// The closed level for the expression, over the next leaf of the Space.
    fn build(alloc: Global, expr: &Expr, space: &mut Space) -> Result<Self, NoMemory>
        requires buildable { IsBuildable (tree_of expr.now) }
        requires levels { depth (tree_of expr.now) ≤ levels }
        requires leaves { space.old.leaves + leaf_count (tree_of expr.now) ≤ most_leaves }
        ensures rules { IfOk result (λ l. (Self.model l).rules ≡ rules_of (shape_of (tree_of expr.now) space.old.leaves)) }
        ensures shut { IfOk result (λ l. IsShut (Self.model l)) }
        ensures space { space.new ≡ with_leaves (leaf_count (tree_of expr.now)) space.old };
}

impl Level for Leaf {
    ghost levels = { 0 };

    #[tactic(auto, unfolding(shapes::specs::RulesOf::rules_of, composition::specs::LeafModel::leaf_of))]
    fn build(_alloc: Global, expr: &Expr, space: &mut Space) -> Result<Leaf, NoMemory> {
        match &expr.form {
            Form::Null => Ok(Leaf::Null(NullLayer::new())),
            Form::Mem => match space.new_leaf() {
                Some(leaf) => Ok(Leaf::Mem(leaf)),
                None => unreachable!(),
            },
            // Any other layer stands on a level above.
            _ => unreachable!(),
        }
    }
}

/// A layer in memory of its own.
fn boxed<L: Drop>(alloc: Global, layer: L) -> Result<Box<L>, NoMemory>
    ensures { IfOk result (λ b. b.value ≡ layer) }
{
    Box::new(alloc, layer).map_err(|_failed| NoMemory)
}

/// A quantizer over the layer, by the rounding that is known only at run time.
#[tactic(auto, unfolding(composition::specs::AnyModel::any_of))]
fn quantizer<P: Layer>(kind: RoundKind, below: P) -> AnyLayer<P>
    requires kind { is_proper_kind (kind_of kind) ≡ true }
    requires shut { IsShut (P.model below) }
    requires proper { IsProper (P.model below).rules }
    ensures rules { (any_of P.model result).rules ≡ quantize_rules (kind_of kind) (P.model below).rules }
    ensures shut { IsShut (any_of P.model result) }
{
    match kind {
        RoundKind::Step { step } => {
            AnyLayer::QuantizeStep(Quantizer::new(Multiple::new(step), below))
        }
        RoundKind::Pow2 => { AnyLayer::QuantizePow2(Quantizer::new(PowerOfTwo, below)) }
    }
}

impl<P: Level> Level for Over<P> {
    ghost levels = { P.levels + 1 };

    #[tactic(auto, using(expr_reader::proofs::Nothing::nothing_fits), unfolding(shapes::specs::RulesOf::rules_of, composition::specs::LevelModel::over_of, composition::specs::AnyModel::any_of))]
    fn build(alloc: Global, expr: &Expr, space: &mut Space) -> Result<Over<P>, NoMemory> {
        match &expr.form {
            Form::Region {
                size,
                align,
                parent,
            } => {
                let layer = Region::new(*size, *align, P::build(alloc, parent, space)?);
                Ok(Over::Layer(boxed(alloc, AnyLayer::Region(layer))?))
            }
            Form::FreeList { bounds, parent } => match *bounds {
                Bounds::Range { min, max } => {
                    let layer = FreeList::new(min, max, P::build(alloc, parent, space)?);
                    Ok(Over::Layer(boxed(alloc, AnyLayer::FreeList(layer))?))
                }
                // The word `any` is none of the grammar yet.
                Bounds::Any => unreachable!(),
            },
            Form::Quantize { kind, parent } => {
                let layer = quantizer(*kind, P::build(alloc, parent, space)?);
                Ok(Over::Layer(boxed(alloc, layer)?))
            }
            Form::Stats { parent } => {
                let layer = StatsCollector::new(P::build(alloc, parent, space)?);
                Ok(Over::Layer(boxed(alloc, AnyLayer::Stats(layer))?))
            }
            Form::Affix {
                prefix,
                suffix,
                parent,
            } => {
                let layer = Affix::new(*prefix, *suffix, P::build(alloc, parent, space)?);
                Ok(Over::Layer(boxed(alloc, AnyLayer::Affix(layer))?))
            }
            // Below the last layer the composition ends.
            _ => Ok(Over::Leaf(Leaf::build(alloc, expr, space)?)),
        }
    }
}

impl Level for Quarter {
    ghost levels = { 2 };

    fn build(alloc: Global, expr: &Expr, space: &mut Space) -> Result<Quarter, NoMemory> {
        let root = <Over2<Leaf>>::build(alloc, expr, space)?;
        Ok(Quarter { root })
    }
}

impl Level for Half {
    ghost levels = { 4 };

    fn build(alloc: Global, expr: &Expr, space: &mut Space) -> Result<Half, NoMemory> {
        let root = <Over2<Quarter>>::build(alloc, expr, space)?;
        Ok(Half { root })
    }
}

impl Level for ThreeQuarters {
    ghost levels = { 6 };

    fn build(alloc: Global, expr: &Expr, space: &mut Space) -> Result<ThreeQuarters, NoMemory> {
        let root = <Over2<Half>>::build(alloc, expr, space)?;
        Ok(ThreeQuarters { root })
    }
}

impl Level for Composition {
    ghost levels = { 8 };

    fn build(alloc: Global, expr: &Expr, space: &mut Space) -> Result<Composition, NoMemory> {
        let root = <Over2<ThreeQuarters>>::build(alloc, expr, space)?;
        Ok(Composition { root })
    }
}

/// A closed composition that stands for the expression, over the next leaves of the Space: its `mem` leaves take the next tags in preorder.
///
/// # Errors
/// `NoMemory` where the process has no memory left. The Space has made the leaves then too.
pub fn build(alloc: Global, expr: &Expr, space: &mut Space) -> Result<Composition, NoMemory>
    // Read or made by hand: words of the grammar that keep their rules, on no path too many.
    requires buildable { IsBuildable (tree_of expr.now) }
    // The Space has room for its leaves.
    requires leaves { space.old.leaves + leaf_count (tree_of expr.now) ≤ most_leaves }
    ensures rules { IfOk result (λ t. (composition_of t).rules ≡ rules_of (shape_of (tree_of expr.now) space.old.leaves)) }
    ensures shut { IfOk result (λ t. IsShut (composition_of t)) }
    // Only the count of leaves changes, whatever is answered.
    ensures space { space.new ≡ with_leaves (leaf_count (tree_of expr.now)) space.old }
{
    Composition::build(alloc, expr, space)
}
