// The affix itself.
ghost use Rattle.std.specs.Prelude.{◌≡◌, ◌≤◌, ◌+◌, ◌-◌, true, ◌&&◌, length, min, nat_le};
ghost use Rattle.std.specs.Borrow.{Lends, Array, sem, u8 as byte};
ghost use Rattle.size_round.specs.Sizes.{limit};
ghost use Rattle.space_core.specs.contracts.Space.{the_row as the_space};
ghost use Rattle.space_core.specs.Words.{write_from};
ghost use Rattle.affix_rules.specs.AffixRules.{affix_down, affix_rules, has_affixes, has_length};
ghost use Rattle.layer_rules.specs.Offering.{is_served_size};
ghost use Rattle.affix_layer.specs.AffixProper.{IsProper};
ghost use Rattle.layer_rules.specs.Fields.{are_open};

use crate::alignment_behind;
use layer_core::{Asked, Block, Fact, Layer, Offers, Owning, Path, Refused, yes_if};
use size_round::LIMIT;
use space_core::Space;

// The byte of which each suffix is made.
const SUFFIX_BYTE: u8 = 0xA5;

/// A layer that keeps bytes of its own in front of each block, the prefix, and behind it, the suffix.
///
/// Sizes are in bytes. A prefix begins with the block's length, and its other bytes are 0; the bytes
/// of a suffix are `0xA5`. All but the length a caller may write over, and what he wrote goes along
/// where the block gets another length.
#[derive(Drop)]
pub struct Affix<P: Layer> {
    prefix: u64,
    suffix: u64,
    is_set: bool,
    parent: P,
    ghost proper: { IsProper prefix suffix (P.model parent).rules },
    ghost together: { are_open (P.model parent).fields ≡ is_set },
}

impl<P: Layer> Affix<P> {
    ghost use Rattle.space_core.specs.Memory.{IsMemory};
    ghost use Rattle.layer_rules.specs.Blocks.{end_of, is_apart};
    ghost use Rattle.layer_rules.specs.Layering.{Stands, IsShut, IsOutOf};
    ghost use Rattle.layer_laws.specs.Standing.{Writes};
    ghost use Rattle.affix_layer.specs.AffixModel.{affix_of};
    ghost use Rattle.affix_layer.specs.AffixBytes.{length_word, prefix_bytes, suffix_bytes, open_place, open_bytes, CarriesAffixes};
    ghost use Rattle.affix_layer.specs.AffixWrites.{WritesAffixes};

    /// A closed affix over a closed parent: of `prefix` bytes in front of each block and `suffix` bytes
    /// behind it, each a multiple of 8 up to 256. With a prefix the parent's alignment is at least 8.
    pub fn new(prefix: u64, suffix: u64, parent: P) -> Affix<P>
        requires shut { IsShut (P.model parent) }
        requires proper { IsProper prefix suffix (P.model parent).rules }
        ensures rules { (affix_of P.model result).rules ≡ affix_rules prefix suffix (P.model parent).rules }
        ensures prefix { result.prefix ≡ prefix }
        ensures suffix { result.suffix ≡ suffix }
        ensures shut { IsShut (affix_of P.model result) }
    {
        Affix {
            prefix,
            suffix,
            is_set: false,
            parent,
        }
    }

    /// The bytes in front of a block that is out: its length in the first word, then what a caller may write.
    pub fn prefix<'a>(&self, space: &'a Space, b: Block) -> &'a [u8]
        requires stands { Stands (affix_of P.model self.now) space.now }
        requires out { IsOutOf (affix_of P.model self.now) space.now b }
        ensures { result.now ≡ prefix_bytes self.now.prefix b space.now.bytes }
    {
        space.lend(b.place - self.prefix, self.prefix)
    }

    /// The bytes in front of a block that is out, but for the first word, for writing:
    /// `Affix::prefix_mut(&mut space, &layer, b)`, with the Space first, since it is what lends. What is
    /// written there is all that changes, and harms nothing (`laws::writes_round_blocks`).
    pub fn prefix_mut<'a>(space: &'a mut Space, layer: &Affix<P>, b: Block) -> &'a mut [u8]
        requires stands { Stands (affix_of P.model layer.now) space.old }
        requires out { IsOutOf (affix_of P.model layer.now) space.old b }
        ensures* writes_back { sem 𝓛 (Lends the_space (Array byte 0) space.entry result (λ written. record space.old { bytes = write_from space.old.bytes (open_place layer.now.prefix b) written })) }
        ensures value { result.now ≡ open_bytes layer.now.prefix b space.old.bytes }
    {
        let open = layer.open_len();
        space.lend_mut(b.place - open, open)
    }

    /// The bytes behind a block that is out.
    pub fn suffix<'a>(&self, space: &'a Space, b: Block) -> &'a [u8]
        requires stands { Stands (affix_of P.model self.now) space.now }
        requires out { IsOutOf (affix_of P.model self.now) space.now b }
        ensures { result.now ≡ suffix_bytes self.now.suffix b space.now.bytes }
    {
        space.lend(b.place + b.len, self.suffix)
    }

    /// The bytes behind a block that is out, for writing: `Affix::suffix_mut(&mut space, &layer, b)`, as
    /// `prefix_mut`.
    pub fn suffix_mut<'a>(space: &'a mut Space, layer: &Affix<P>, b: Block) -> &'a mut [u8]
        requires stands { Stands (affix_of P.model layer.now) space.old }
        requires out { IsOutOf (affix_of P.model layer.now) space.old b }
        ensures* writes_back { sem 𝓛 (Lends the_space (Array byte 0) space.entry result (λ written. record space.old { bytes = write_from space.old.bytes (end_of b) written })) }
        ensures value { result.now ≡ suffix_bytes layer.now.suffix b space.old.bytes }
    {
        space.lend_mut(b.place + b.len, layer.suffix)
    }

    // Whether the block has a length that is served, and room for a prefix in front of it.
    fn can_have(&self, b: Block) -> bool
        ensures { result ≡ (is_served_size b.len && nat_le self.now.prefix b.place) }
    {
        b.len >= 1 && b.len <= LIMIT && b.place >= self.prefix
    }

    // The block with its prefix and suffix, as the parent sees it.
    fn affixed(&self, b: Block) -> Block
        requires fits { self.now.prefix ≤ b.place }
        requires most { b.len ≤ limit }
        ensures { result ≡ affix_down self.now.prefix self.now.suffix b }
    {
        Block {
            place: b.place - self.prefix,
            len: b.len + self.prefix + self.suffix,
        }
    }

    // How many bytes of a prefix stand behind its first word.
    fn open_len(&self) -> u64
        ensures { result ≡ self.now.prefix - 8 }
    {
        self.prefix.saturating_sub(8)
    }

    // Writes the length of the block into the first word of its prefix, where there is one.
    fn write_length(&self, space: &mut Space, b: Block)
        requires fits { self.now.prefix ≤ b.place }
        requires room { b.place ≤ length space.old.bytes }
        ensures length { has_length self.now.prefix b space.new.bytes ≡ true }
        ensures inside { Writes (length_word self.now.prefix b) space.old space.new }
    {
        if self.prefix >= 8 {
            space.set_word(b.place - self.prefix, b.len);
        }
    }

    // Writes the bytes round a block: its length, zeros up to it, and the suffix behind it.
    fn write_affixes(&self, space: &mut Space, b: Block)
        requires fits { self.now.prefix ≤ b.place }
        requires room { end_of b + self.now.suffix ≤ length space.old.bytes }
        requires memory { IsMemory space.old }
        ensures clean { has_affixes self.now.prefix self.now.suffix b space.new.bytes ≡ true }
        ensures inside { Writes (affix_down self.now.prefix self.now.suffix b) space.old space.new }
    {
        let open = self.open_len();
        self.write_length(space, b);
        space.fill(b.place - open, open, 0);
        space.fill(b.place + b.len, self.suffix, SUFFIX_BYTE);
    }

    // Copies what a caller may have written round one block to where he may write round another.
    fn carry_affixes(&self, space: &mut Space, b: Block, c: Block)
        requires fits { self.now.prefix ≤ b.place }
        requires room { end_of b + self.now.suffix ≤ length space.old.bytes }
        requires new_fits { self.now.prefix ≤ c.place }
        requires new_room { end_of c + self.now.suffix ≤ length space.old.bytes }
        requires apart { is_apart (affix_down self.now.prefix self.now.suffix b) (affix_down self.now.prefix self.now.suffix c) ≡ true }
        requires memory { IsMemory space.old }
        ensures carried { CarriesAffixes self.now.prefix self.now.suffix space.old.bytes space.new.bytes b c }
        ensures inside { WritesAffixes self.now.prefix self.now.suffix c space.old space.new }
    {
        let open = self.open_len();
        space.copy(b.place - open, c.place - open, open);
        space.copy(b.place + b.len, c.place + c.len, self.suffix);
    }
}

impl<P: Layer> Layer for Affix<P> {
    ghost use Rattle.layer_rules.specs.Layering.{Stands, IsSetUp, IsShut, IsOutOf, IsMarkedOf, SetsUp, TearsDown, Allocates, Expands, Reallocates, ReallocatesGenerally, MovesBlock, Deallocates, DeallocatesAll, Owns};
    ghost use Rattle.affix_layer.specs.AffixModel.{affix_of, KeepsLengths};
    ghost use Rattle.affix_layer.specs.AffixBytes.{CarriesAffixes, KeepsAffixes, KeepsOtherAffixes};
    ghost use Rattle.affix_layer.specs.AffixMade.{affix_made};

    ghost model = { affix_of P.model };

    fn nodes(&self) -> u32 {
        self.parent.nodes() + 1
    }

    fn offers(&self) -> Offers {
        let offers = self.parent.offers();
        Offers {
            owns: offers.owns,
            expand: offers.expand,
            aligned: false,
            all: offers.all,
        }
    }

    fn alignment(&self) -> u64 {
        alignment_behind(self.prefix, self.parent.alignment())
    }

    fn good_alloc_size(&self, n: u64) -> u64 {
        if n == 0 || n > LIMIT {
            return n;
        }
        self.parent.good_alloc_size(n + self.prefix + self.suffix) - self.prefix - self.suffix
    }

    fn is_open(&self) -> bool {
        self.is_set
    }

    fn set_up(&mut self, space: &mut Space, need: u64) -> Result<(), Refused>
        requires stands { Stands (affix_of P.model self.old) space.old }
        requires shut { IsShut (affix_of P.model self.old) }
        requires need { need ≤ limit }
        ensures opens { SetsUp (affix_of P.model self.old) (affix_of P.model self.new) space.old space.new need result }
        ensures lengths { KeepsLengths self.old self.new }
    {
        let parent_need = if need == 0 {
            0
        } else {
            need + self.prefix + self.suffix
        };
        if parent_need > LIMIT {
            return Err(Refused { node: 0 });
        }
        match self.parent.set_up(space, parent_need) {
            Ok(()) => {
                self.is_set = true;
                Ok(())
            }
            Err(refused) => Err(Refused {
                node: refused.node + 1,
            }),
        }
    }

    fn tear_down(&mut self, space: &mut Space)
        requires { Stands (affix_of P.model self.old) space.old }
        ensures closes { TearsDown (affix_of P.model self.old) (affix_of P.model self.new) space.old space.new }
        ensures lengths { KeepsLengths self.old self.new }
    {
        self.parent.tear_down(space);
        self.is_set = false;
    }

    fn allocate(&mut self, space: &mut Space, n: u64) -> Option<Block>
        requires stands { Stands (affix_of P.model self.old) space.old }
        requires opened { IsSetUp (affix_of P.model self.old) }
        ensures serves { Allocates (affix_of P.model self.old) (affix_of P.model self.new) space.old space.new n result }
        ensures around { KeepsAffixes self.old.prefix self.old.suffix (affix_of P.model self.old) space.old space.new }
        ensures lengths { KeepsLengths self.old self.new }
    {
        if n == 0 || n > LIMIT {
            return None;
        }
        match self.parent.allocate(space, n + self.prefix + self.suffix) {
            Some(whole) => {
                let b = Block {
                    place: whole.place + self.prefix,
                    len: n,
                };
                self.write_affixes(space, b);
                Some(b)
            }
            None => None,
        }
    }

    fn aligned_allocate(&mut self, _space: &mut Space, _n: u64, _a: u64) -> Option<Block> {
        unreachable!()
    }

    fn expand(&mut self, space: &mut Space, b: &mut Block, delta: u64) -> bool
        requires stands { Stands (affix_of P.model self.old) space.old }
        requires opened { IsSetUp (affix_of P.model self.old) }
        requires offered { (affix_of P.model self.old).rules.offers.expand ≡ true }
        requires out { IsOutOf (affix_of P.model self.old) space.old b.old }
        requires marked { IsMarkedOf (affix_of P.model self.old) space.old b.old }
        ensures expands { Expands (affix_of P.model self.old) (affix_of P.model self.new) space.old space.new b.old b.new delta result }
        ensures carried { CarriesAffixes self.old.prefix self.old.suffix space.old.bytes space.new.bytes b.old b.new }
        ensures around { KeepsOtherAffixes self.old.prefix self.old.suffix (affix_of P.model self.old) space.old space.new b.old result }
        ensures lengths { KeepsLengths self.old self.new }
    {
        if delta == 0 {
            return true;
        }
        if delta > LIMIT - b.len {
            return false;
        }
        let mut whole = self.affixed(*b);
        if !self.parent.expand(space, &mut whole, delta) {
            return false;
        }
        // The suffix goes along before the length is mended.
        let end = b.place + b.len;
        space.copy(end, end + delta, self.suffix);
        b.len += delta;
        self.write_length(space, *b);
        true
    }

    fn reallocate(&mut self, space: &mut Space, b: &mut Block, n: u64) -> bool
        requires stands { Stands (affix_of P.model self.old) space.old }
        requires opened { IsSetUp (affix_of P.model self.old) }
        requires out { IsOutOf (affix_of P.model self.old) space.old b.old }
        requires marked { IsMarkedOf (affix_of P.model self.old) space.old b.old }
        ensures reallocates { Reallocates (affix_of P.model self.old) (affix_of P.model self.new) space.old space.new b.old b.new n result }
        ensures carried { 1 ≤ b.new.len → CarriesAffixes self.old.prefix self.old.suffix space.old.bytes space.new.bytes b.old b.new }
        ensures around { KeepsOtherAffixes self.old.prefix self.old.suffix (affix_of P.model self.old) space.old space.new b.old result }
        ensures lengths { KeepsLengths self.old self.new }
    {
        self.reallocate_generally(space, b, n)
    }

    // The trait's own form, said of what a caller wrote round the block too: it goes along.
    fn reallocate_generally(&mut self, space: &mut Space, b: &mut Block, n: u64) -> bool
        requires stands { Stands (affix_of P.model self.old) space.old }
        requires opened { IsSetUp (affix_of P.model self.old) }
        requires out { IsOutOf (affix_of P.model self.old) space.old b.old }
        requires marked { IsMarkedOf (affix_of P.model self.old) space.old b.old }
        ensures generally { ReallocatesGenerally (affix_of P.model self.old) (affix_of P.model self.new) space.old space.new b.old b.new n result }
        ensures carried { 1 ≤ b.new.len → CarriesAffixes self.old.prefix self.old.suffix space.old.bytes space.new.bytes b.old b.new }
        ensures around { KeepsOtherAffixes self.old.prefix self.old.suffix (affix_of P.model self.old) space.old space.new b.old result }
        ensures lengths { KeepsLengths self.old self.new }
    {
        if n == b.len {
            return true;
        }
        if n == 0 {
            self.deallocate(space, *b);
            *b = Block { place: 0, len: 0 };
            return true;
        }
        if n > LIMIT {
            return false;
        }
        if n > b.len && self.offers().expand {
            if self.expand(space, b, n - b.len) {
                return true;
            }
            return self.move_block(space, b, n);
        }
        self.move_block(space, b, n)
    }

    // The same for a block that is moved.
    fn move_block(&mut self, space: &mut Space, b: &mut Block, n: u64) -> bool
        requires stands { Stands (affix_of P.model self.old) space.old }
        requires opened { IsSetUp (affix_of P.model self.old) }
        requires out { IsOutOf (affix_of P.model self.old) space.old b.old }
        requires marked { IsMarkedOf (affix_of P.model self.old) space.old b.old }
        ensures moves { MovesBlock (affix_of P.model self.old) (affix_of P.model self.new) space.old space.new b.old b.new n result }
        ensures carried { CarriesAffixes self.old.prefix self.old.suffix space.old.bytes space.new.bytes b.old b.new }
        ensures around { KeepsOtherAffixes self.old.prefix self.old.suffix (affix_of P.model self.old) space.old space.new b.old result }
        ensures lengths { KeepsLengths self.old self.new }
    {
        match self.allocate(space, n) {
            None => false,
            Some(new) => {
                space.copy(b.place, new.place, n.min(b.len));
                self.carry_affixes(space, *b, new);
                self.deallocate(space, *b);
                *b = new;
                true
            }
        }
    }

    fn deallocate(&mut self, space: &mut Space, b: Block) -> bool
        requires stands { Stands (affix_of P.model self.old) space.old }
        requires opened { IsSetUp (affix_of P.model self.old) }
        requires out { IsOutOf (affix_of P.model self.old) space.old b }
        requires marked { IsMarkedOf (affix_of P.model self.old) space.old b }
        ensures takes { Deallocates (affix_of P.model self.old) (affix_of P.model self.new) space.old space.new b result }
        ensures around { KeepsOtherAffixes self.old.prefix self.old.suffix (affix_of P.model self.old) space.old space.new b true }
        ensures lengths { KeepsLengths self.old self.new }
    {
        let whole = self.affixed(b);
        self.parent.deallocate(space, whole)
    }

    fn deallocate_all(&mut self, space: &mut Space)
        requires stands { Stands (affix_of P.model self.old) space.old }
        requires opened { IsSetUp (affix_of P.model self.old) }
        requires offered { (affix_of P.model self.old).rules.offers.all ≡ true }
        ensures takes { DeallocatesAll (affix_of P.model self.old) (affix_of P.model self.new) space.old space.new }
        ensures lengths { KeepsLengths self.old self.new }
    {
        self.parent.deallocate_all(space);
    }

    fn holds(&self, b: Block) -> bool {
        self.is_set && self.can_have(b) && self.parent.holds(self.affixed(b))
    }

    fn owns(&mut self, b: Block) -> bool
        requires opened { IsSetUp (affix_of P.model self.old) }
        requires offered { (affix_of P.model self.old).rules.offers.owns ≡ true }
        ensures owns { Owns (affix_of P.model self.old) (affix_of P.model self.new) b result }
        ensures lengths { KeepsLengths self.old self.new }
    {
        if !self.can_have(b) {
            return false;
        }
        let whole = self.affixed(b);
        self.parent.owns(whole)
    }

    fn owns_at(&self, path: &Path, from: usize, b: Block) -> Asked {
        if from < path.len() {
            if path.at(from) > 0 {
                return Asked::NoSuchLayer;
            }
            if self.can_have(b) {
                return self.parent.owns_at(path, from + 1, self.affixed(b));
            }
            // The walk goes on for the path alone: no layer below can have the block.
            let none = Block { place: 0, len: 0 };
            return yes_if(false, self.parent.owns_at(path, from + 1, none));
        }
        if !self.parent.offers().owns {
            return Asked::NotOffered;
        }
        if self.holds(b) { Asked::Yes } else { Asked::No }
    }

    fn extent(&self, b: Block) -> u64 {
        self.parent.extent(self.affixed(b))
    }

    fn fact(&self, space: &Space, node: u32) -> Fact {
        if node > 0 {
            return self.parent.fact(space, node - 1);
        }
        if self.is_set {
            Fact::Plain
        } else {
            Fact::Closed
        }
    }

    fn state_len(&self, node: u32) -> u32 {
        if node > 0 {
            return self.parent.state_len(node - 1);
        }
        if self.is_set { 1 } else { 0 }
    }

    fn state_number(&self, node: u32, k: u32) -> u64 {
        if node > 0 {
            return self.parent.state_number(node - 1, k);
        }
        1
    }

    ghost made = { λ l. affix_made P.made l };
}

impl<P: Owning> Owning for Affix<P> {
    ghost use Rattle.affix_layer.specs.AffixOwning.{affix_owning};

    ghost owning = { λ l. affix_owning P.owning l };
}
