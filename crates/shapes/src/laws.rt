//! What holds of the rules of each shape, and of each that is proper.

ghost use Rattle.shapes.specs.ShapeMeanings.{RulesOfMembers, ProperMembers, OwningMembers, ProperHasMember, ProperHasBucket, ShapesHaveUnrangedLaws, ShapesAreRegular, ShapesAreLawful, CompositionsAreMade};

/// The rules of members are those of each, and members are proper, and own, where each does.
pub fn members_one_by_one()
    ensures rules { RulesOfMembers }
    ensures proper { ProperMembers }
    ensures owning { OwningMembers }
{}

/// Of proper members there is one for each length, by thresholds, and by buckets for each length in range.
pub fn members_for_lengths()
    ensures member { ProperHasMember }
    ensures bucket { ProperHasBucket }
{}

/// Each shape, proper or not: who holds a block reads no byte; a refused call leaves all but statistics; between calls the tails that
/// are served from are free; closed stays closed and open open; `owns` answers `holds`; and free cells alone are taken, for own leaves.
pub fn every_shape()
    ensures { ShapesHaveUnrangedLaws }
{}

/// Each proper shape is regular, and lawful where its leaves have tags of their own.
pub fn every_proper_shape()
    ensures regular { ShapesAreRegular }
    ensures lawful { ShapesAreLawful }
{}

/// Each composition is a layer that may be made.
pub fn every_composition()
    ensures { CompositionsAreMade }
{}
