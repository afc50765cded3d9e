//! The layers of a heap that is not made yet.
ghost use Rattle.std.specs.Prelude.{◌≡◌, ◌+◌, ◌≤◌, ◌<◌, true, false, [], Ok, Err, IfOk, IfErr};

use crate::heap::OwnedHeap;
use affix_layer::Affix;
use free_list::FreeList;
use layer_core::{Layer, Mem, Refused};
use quantizer::Quantizer;
use quota::Quota;
use region_block::Region;
use size_round::Rounding;
use space_core::{NoMemory, Space};
use stats_collector::StatsCollector;
use std::alloc::Global;
use std::marker::Model;

/// Memory in cells of 64 bytes, with one leaf, and the layers that stand on it, all closed. Each call puts one more
/// layer on top, by its plain numbers.
///
/// At most 8 layers stand above the leaf.
///
/// Contracts see the root, and of it how many cells there are, the alignment, how many nodes it has, and how many
/// layers stand above the leaf.
#[derive(Drop)]
pub struct Layers<L: Layer> {
    space: Space,
    root: L,
}

impl<L: Layer> Model for Layers<L> {
    ghost use Rattle.std.specs.Prelude.{length};
    ghost use Rattle.owned_heap.specs.Plans.{Plan, IsPlan};

    ghost Value = { Plan L };

    ghost view = { λ a. record { root = a.root; cells = length a.space.cells.tags; alignment = (L.model a.root).rules.alignment; nodes = (L.model a.root).rules.nodes; depth = (L.model a.root).rules.depth } };

    ghost invariant = { λ a. IsPlan (L.model a.root) a.space };
}

/// The memory and the leaf of layers that were taken off it, for a layer of one's own.
#[derive(Drop)]
pub struct Ground {
    space: Space,
}

impl Model for Ground {
    ghost use Rattle.std.specs.Prelude.{ℕ, length};
    ghost use Rattle.owned_heap.specs.Plans.{IsFresh};

    ghost Value = { ℕ };

    ghost view = { λ a. length a.space.cells.tags };

    ghost invariant = { λ a. IsFresh a.space };
}

impl Layers<Mem> {
    ghost use Rattle.space_core.specs.Memory.{most_cells};

    /// So many cells, and a leaf: 1 to 262,144 cells, which are 16 MiB.
    ///
    /// # Errors
    /// `NoMemory` where the process has no memory for them.
    pub fn new(alloc: Global, cells: u32) -> Result<Layers<Mem>, NoMemory>
        requires some { 1 ≤ cells }
        requires most { cells ≤ most_cells }
        ensures cells { IfOk result (λ layers. layers.cells ≡ cells) }
        ensures alignment { IfOk result (λ layers. layers.alignment ≡ 64) }
        ensures nodes { IfOk result (λ layers. layers.nodes ≡ 1) }
        ensures depth { IfOk result (λ layers. layers.depth ≡ 0) }
    {
        let mut space = Space::closed();
        space.set_up(alloc, cells)?;
        match space.new_leaf() {
            Some(root) => Ok(Layers { space, root }),
            None => unreachable!(),
        }
    }
}

impl<L: Layer> Layers<L> {
    ghost use Rattle.std.specs.Prelude.{◌∷◌};
    ghost use Rattle.size_round.specs.Sizes.{size_bound, is_multiple};
    ghost use Rattle.layer_laws.specs.Lawful.{most_nodes, most_layers};
    ghost use Rattle.layer_rules.specs.Layering.{IsShut};
    ghost use Rattle.region_rules.specs.RegionRules.{region_rules};
    ghost use Rattle.region_block.specs.RegionModel.{region_of};
    ghost use Rattle.free_list_rules.specs.FreeListRules.{free_list_rules};
    ghost use Rattle.free_list.specs.FreeListModel.{free_list_of};
    ghost use Rattle.quota_rules.specs.QuotaRules.{quota_rules};
    ghost use Rattle.quota.specs.QuotaModel.{quota_of};
    ghost use Rattle.stats_rules.specs.StatsRules.{stats_rules};
    ghost use Rattle.stats_collector.specs.CollectorModel.{collector_of};
    ghost use Rattle.quantize_rules.specs.QuantizeRules.{quantize_rules};
    ghost use Rattle.quantizer.specs.QuantizerModel.{quantizer_of};
    ghost use Rattle.affix_rules.specs.AffixRules.{affix_rules, affix_bound, alignment_behind};
    ghost use Rattle.affix_layer.specs.AffixModel.{affix_of};
    ghost use Rattle.owned_heap.specs.Plans.{is_alignment, IsOneMore, HasRoom, opening_in, begun_in};
    ghost use Rattle.owned_heap.specs.Events.{is_live};

    /// A region on top: one chunk of at least `size` bytes, from which blocks are handed out from front to back, at multiples
    /// of `align`.
    pub fn region(self, size: u64, align: u64) -> Layers<Region<L>>
        requires some { 1 ≤ size }
        requires most { size ≤ size_bound }
        requires align { is_alignment align ≡ true }
        requires aligned { align ≤ self.alignment }
        requires room { HasRoom self.nodes self.depth }
        ensures more { IsOneMore self.cells self.nodes self.depth result.cells result.nodes result.depth }
        ensures alignment { result.alignment ≡ align }
        ensures rules { (region_of L.model result.root).rules ≡ region_rules size align (L.model self.root).rules }
    {
        let Layers { space, root } = self;
        Layers {
            space,
            root: Region::new(size, align, root),
        }
    }

    /// A free list on top: it keeps freed blocks of `least` to `greatest` bytes, of which the greater is 8 to 2^30.
    pub fn free_list(self, least: u64, greatest: u64) -> Layers<FreeList<L>>
        requires word { 8 ≤ greatest }
        requires most { greatest ≤ size_bound }
        requires ordered { least ≤ greatest }
        requires room { HasRoom self.nodes self.depth }
        ensures more { IsOneMore self.cells self.nodes self.depth result.cells result.nodes result.depth }
        ensures alignment { result.alignment ≡ self.alignment }
        ensures rules { (free_list_of L.model result.root).rules ≡ free_list_rules least greatest (L.model self.root).rules }
    {
        let Layers { space, root } = self;
        Layers {
            space,
            root: FreeList::new(least, greatest, root),
        }
    }

    /// A quota on top: its blocks have at most `most` bytes in sum.
    pub fn quota(self, most: u64) -> Layers<Quota<L>>
        requires { HasRoom self.nodes self.depth }
        ensures more { IsOneMore self.cells self.nodes self.depth result.cells result.nodes result.depth }
        ensures alignment { result.alignment ≡ self.alignment }
        ensures rules { (quota_of L.model result.root).rules ≡ quota_rules most (L.model self.root).rules }
    {
        let Layers { space, root } = self;
        Layers {
            space,
            root: Quota::new(most, root),
        }
    }

    /// A collector on top: it counts the calls.
    pub fn stats(self) -> Layers<StatsCollector<L>>
        requires { HasRoom self.nodes self.depth }
        ensures more { IsOneMore self.cells self.nodes self.depth result.cells result.nodes result.depth }
        ensures alignment { result.alignment ≡ self.alignment }
        ensures rules { (collector_of L.model result.root).rules ≡ stats_rules (L.model self.root).rules }
    {
        let Layers { space, root } = self;
        Layers {
            space,
            root: StatsCollector::new(root),
        }
    }

    /// A quantizer on top: it asks for rounded lengths alone.
    pub fn quantizer<R: Rounding>(self, rounding: R) -> Layers<Quantizer<L, R>>
        requires { HasRoom self.nodes self.depth }
        ensures more { IsOneMore self.cells self.nodes self.depth result.cells result.nodes result.depth }
        ensures alignment { result.alignment ≡ self.alignment }
        ensures rules { (quantizer_of L.model R.kind result.root).rules ≡ quantize_rules (R.kind rounding) (L.model self.root).rules }
    {
        let Layers { space, root } = self;
        Layers {
            space,
            root: Quantizer::new(rounding, root),
        }
    }

    /// An affix on top: it keeps `prefix` bytes in front of each block and `suffix` bytes behind it, multiples of 8 up to 256.
    pub fn affix(self, prefix: u64, suffix: u64) -> Layers<Affix<L>>
        requires prefix_whole { is_multiple prefix 8 ≡ true }
        requires suffix_whole { is_multiple suffix 8 ≡ true }
        requires prefix_most { prefix ≤ affix_bound }
        requires suffix_most { suffix ≤ affix_bound }
        requires aligned { 8 ≤ self.alignment }
        requires room { HasRoom self.nodes self.depth }
        ensures more { IsOneMore self.cells self.nodes self.depth result.cells result.nodes result.depth }
        ensures alignment { result.alignment ≡ alignment_behind prefix self.alignment }
        ensures rules { (affix_of L.model result.root).rules ≡ affix_rules prefix suffix (L.model self.root).rules }
    {
        let Layers { space, root } = self;
        Layers {
            space,
            root: Affix::new(prefix, suffix, root),
        }
    }

    /// The memory and the root apart, to put a layer of one's own between: `Ground::under`.
    pub fn parts(self) -> (Ground, L)
        ensures root { result.1 ≡ self.root }
        ensures cells { result.0 ≡ self.cells }
        ensures shut { IsShut (L.model result.1) }
        ensures tags { (L.model result.1).rules.leaf_tags ≡ 1 ∷ [] }
    {
        let Layers { space, root } = self;
        (Ground { space }, root)
    }

    /// The heap of these layers. It opens the root.
    ///
    /// # Errors
    /// `Refused` with the node that can't be opened, counted in preorder from the root as 0.
    pub fn heap(self) -> Result<OwnedHeap<L>, Refused>
        ensures empty { IfOk result (λ heap. (b : _) → is_live heap.events b ≡ false) }
        ensures rules { IfOk result (λ heap. (L.model heap.root).rules ≡ (L.model self.root).rules) }
        ensures ok { IfOk result (λ heap. opening_in L.model self ≡ Ok (begun_in L.model heap)) }
        ensures err { IfErr result (λ refused. opening_in L.model self ≡ Err refused.node) }
    {
        OwnedHeap::open(self.space, self.root)
    }
}

impl Ground {
    ghost use Rattle.std.specs.Prelude.{◌∷◌};
    ghost use Rattle.layer_rules.specs.Layering.{IsShut};

    /// The layers with this root, which stands on the leaf of this ground and on no other.
    pub fn under<M: Layer>(self, root: M) -> Layers<M>
        requires shut { IsShut (M.model root) }
        requires tags { (M.model root).rules.leaf_tags ≡ 1 ∷ [] }
        ensures root { result.root ≡ root }
        ensures cells { result.cells ≡ self }
        ensures alignment { result.alignment ≡ (M.model root).rules.alignment }
        ensures nodes { result.nodes ≡ (M.model root).rules.nodes }
        ensures depth { result.depth ≡ (M.model root).rules.depth }
    {
        Layers {
            space: self.space,
            root,
        }
    }
}
