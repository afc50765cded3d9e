//! A leaf, and the rows of a path and of a line's bytes.
#![tactic(auto, unfolding(leaf_rules::specs::MemRules::mem_rules))]

use crate::calls::{close, open, serve, space_and_leaf};
use layer_core::{Layer, Octets, Path};
use std::test::Fail;

// A leaf has cells only while it is open.
#[test]
fn a_leaf_gives_its_cells_back(rt: HostRuntime) -> Result<(), Fail> {
    let (mut space, mut leaf) = space_and_leaf(rt.alloc(), 4)?;
    assert!(rt; open(&mut leaf, &mut space, 0).is_ok());
    assert!(rt; serve(&mut leaf, &mut space, 65).is_some());
    assert_eq!(rt; space.used_by(leaf.tag()), 2);
    close(&mut leaf, &mut space);
    assert!(rt; !Layer::is_open(&leaf));
    assert_eq!(rt; space.used_by(leaf.tag()), 0);
    Ok(())
}

// A path of eight steps takes no ninth.
#[test]
fn a_path_has_eight_steps(rt: HostRuntime) {
    let mut path = Path::new();
    for step in 0..8 {
        assert!(rt; path.add(step));
    }
    assert!(rt; !path.add(8));
    assert!(rt; path.len() == 8);
    assert_eq!(rt; path.at(7), 7);
    let mut bytes = Octets::new();
    for value in 0..64 {
        assert!(rt; bytes.add(value));
    }
    assert!(rt; !bytes.add(64));
}
