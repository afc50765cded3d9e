// The quota itself.
ghost use Rattle.std.specs.Prelude.{◌≡◌, is_some};
ghost use Rattle.quota_rules.specs.QuotaRules.{quota_rules};
ghost use Rattle.quota.specs.QuotaProper.{IsProper};
ghost use Rattle.layer_rules.specs.Fields.{are_open};

use layer_core::{Asked, Block, Fact, Layer, Offers, Owning, Path, Refused};
use size_round::LIMIT;
use space_core::Space;

/// A layer that hands each call down to its parent, as long as its blocks have no more than a
/// quota of bytes in sum. It can't be opened for a need above the quota.
///
/// Sizes are in bytes. A block counts by its length, whatever it takes up below, and one that the
/// parent can't reuse stays counted. What a report says of it are two numbers: the bytes that it
/// counts, and the quota.
#[derive(Drop)]
pub struct Quota<P: Layer> {
    most: u64,
    used: Option<u64>,
    parent: P,
    ghost proper: { IsProper (P.model parent).rules },
    ghost together: { are_open (P.model parent).fields ≡ is_some used },
}

impl<P: Layer> Quota<P> {
    ghost use Rattle.quota.specs.QuotaModel.{quota_of};
    ghost use Rattle.layer_rules.specs.Layering.{IsShut};

    /// A closed quota over a closed parent: its blocks will have at most `most` bytes in sum.
    pub fn new(most: u64, parent: P) -> Quota<P>
        requires shut { IsShut (P.model parent) }
        requires proper { IsProper (P.model parent).rules }
        ensures rules { (quota_of P.model result).rules ≡ quota_rules most (P.model parent).rules }
        ensures shut { IsShut (quota_of P.model result) }
    {
        Quota {
            most,
            used: None,
            parent,
        }
    }
}

impl<P: Layer> Layer for Quota<P> {
    ghost use Rattle.quota.specs.QuotaModel.{quota_of};
    ghost use Rattle.quota.specs.QuotaMade.{quota_made};

    ghost model = { quota_of P.model };

    fn nodes(&self) -> u32 {
        self.parent.nodes() + 1
    }

    fn offers(&self) -> Offers {
        let offers = self.parent.offers();
        Offers {
            owns: offers.owns,
            expand: offers.expand,
            aligned: false,
            all: offers.all,
        }
    }

    fn alignment(&self) -> u64 {
        self.parent.alignment()
    }

    fn good_alloc_size(&self, n: u64) -> u64 {
        self.parent.good_alloc_size(n)
    }

    fn is_open(&self) -> bool {
        self.used.is_some()
    }

    fn set_up(&mut self, space: &mut Space, need: u64) -> Result<(), Refused> {
        if need > self.most {
            return Err(Refused { node: 0 });
        }
        match self.parent.set_up(space, need) {
            Ok(()) => {
                self.used = Some(0);
                Ok(())
            }
            Err(refused) => Err(Refused {
                node: refused.node + 1,
            }),
        }
    }

    fn tear_down(&mut self, space: &mut Space) {
        self.parent.tear_down(space);
        self.used = None;
    }

    fn allocate(&mut self, space: &mut Space, n: u64) -> Option<Block> {
        if n == 0 || n > LIMIT {
            return None;
        }
        match self.used {
            Some(used) => {
                if n > self.most - used {
                    return None;
                }
                match self.parent.allocate(space, n) {
                    Some(b) => {
                        self.used = Some(used + n);
                        Some(b)
                    }
                    None => None,
                }
            }
            None => unreachable!(),
        }
    }

    fn aligned_allocate(&mut self, _space: &mut Space, _n: u64, _a: u64) -> Option<Block> {
        unreachable!()
    }

    fn expand(&mut self, space: &mut Space, b: &mut Block, delta: u64) -> bool {
        if delta == 0 {
            return true;
        }
        if delta > LIMIT - b.len {
            return false;
        }
        match self.used {
            Some(used) => {
                if delta > self.most - used {
                    return false;
                }
                if !self.parent.expand(space, b, delta) {
                    return false;
                }
                self.used = Some(used + delta);
                true
            }
            None => unreachable!(),
        }
    }

    fn reallocate(&mut self, space: &mut Space, b: &mut Block, n: u64) -> bool {
        self.reallocate_generally(space, b, n)
    }

    fn deallocate(&mut self, space: &mut Space, b: Block) -> bool {
        match self.used {
            Some(used) => {
                if !self.parent.deallocate(space, b) {
                    return false;
                }
                self.used = Some(used.saturating_sub(b.len));
                true
            }
            None => unreachable!(),
        }
    }

    fn deallocate_all(&mut self, space: &mut Space) {
        self.parent.deallocate_all(space);
        self.used = Some(0);
    }

    fn holds(&self, b: Block) -> bool {
        self.used.is_some() && b.len >= 1 && b.len <= LIMIT && self.parent.holds(b)
    }

    fn owns(&mut self, b: Block) -> bool {
        if b.len == 0 || b.len > LIMIT {
            return false;
        }
        self.parent.owns(b)
    }

    fn owns_at(&self, path: &Path, from: usize, b: Block) -> Asked {
        if from < path.len() {
            if path.at(from) > 0 {
                return Asked::NoSuchLayer;
            }
            let answer = self.parent.owns_at(path, from + 1, b);
            if matches!(answer, Asked::Yes) && (b.len == 0 || b.len > LIMIT) {
                return Asked::No;
            }
            return answer;
        }
        if !self.parent.offers().owns {
            return Asked::NotOffered;
        }
        if self.holds(b) { Asked::Yes } else { Asked::No }
    }

    fn extent(&self, b: Block) -> u64 {
        self.parent.extent(b)
    }

    fn fact(&self, space: &Space, node: u32) -> Fact {
        if node > 0 {
            return self.parent.fact(space, node - 1);
        }
        match self.used {
            Some(used) => Fact::Numbers {
                first: used,
                second: self.most,
            },
            None => Fact::Closed,
        }
    }

    fn state_len(&self, node: u32) -> u32 {
        if node > 0 {
            return self.parent.state_len(node - 1);
        }
        if self.used.is_some() { 2 } else { 0 }
    }

    fn state_number(&self, node: u32, k: u32) -> u64 {
        if node > 0 {
            return self.parent.state_number(node - 1, k);
        }
        match self.used {
            Some(used) => { if k == 0 { 1 } else { used } }
            None => unreachable!(),
        }
    }

    ghost made = { λ l. quota_made P.made l };
}

impl<P: Owning> Owning for Quota<P> {
    ghost use Rattle.quota.specs.QuotaOwning.{quota_owning};

    ghost owning = { λ l. quota_owning P.owning l };
}
