//! What every expression that keeps the rules stands for.

ghost use Rattle.std.specs.Prelude.{◌≡◌, ℕ};
ghost use Rattle.expr_reader.specs.Trees.{Tree};
ghost use Rattle.expr_reader.specs.Canonical.{in_place};
ghost use Rattle.expr_builder.specs.ShapeOf.{shape_of};
ghost use Rattle.expr_builder.specs.Sound.{AcceptedAreCompositions, BuildableAreCompositions};

/// A buildable expression stands for a composition within its bounds, whose rules are lawful. Its leaves are the next that the
/// Space makes, each once.
pub fn buildable_are_compositions()
    ensures { BuildableAreCompositions }
{}

/// So does an expression that was accepted.
pub fn accepted_are_compositions()
    ensures { AcceptedAreCompositions }
{}

/// The canonical text of an expression stands for its shape.
pub fn canonical_has_its_shape()
    ensures { (e : Tree) → (made : ℕ) → shape_of (in_place 0 e) made ≡ shape_of e made }
{}
