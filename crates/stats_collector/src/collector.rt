// The statistics collector itself.
ghost use Rattle.std.specs.Prelude.{◌≡◌, is_some};
ghost use Rattle.stats_rules.specs.StatsRules.{stats_rules, slack_of};
ghost use Rattle.stats_collector.specs.CollectorProper.{IsProper};
ghost use Rattle.layer_rules.specs.Fields.{are_open};

use crate::counting::{
    after_clearing, after_deallocation, after_expansion, after_failed_reallocation, after_owns,
    after_reallocation, after_request, in_order, no_counts,
};
use layer_core::{Asked, Block, Fact, Layer, Offers, Owning, Path, Refused};
use layer_rules::Stats;
use size_round::LIMIT;
use space_core::Space;

/// A layer that hands each call down to its parent, and keeps fifteen numbers of what it was asked.
///
/// Sizes are in bytes. A call that asks for nothing isn't counted: a request of 0 bytes, growth by 0, and a
/// reallocation to the same length. One above the limit is counted, and the parent isn't asked. The slack of
/// a block is what the parent's good size for its length is longer than that.
#[derive(Drop)]
pub struct StatsCollector<P: Layer> {
    counts: Option<Stats>,
    parent: P,
    ghost proper: { IsProper (P.model parent).rules },
    ghost together: { are_open (P.model parent).fields ≡ is_some counts },
}

impl<P: Layer> StatsCollector<P> {
    ghost use Rattle.stats_collector.specs.CollectorModel.{collector_of, AreCountsOf};
    ghost use Rattle.layer_rules.specs.Layering.{IsShut};

    /// A closed collector over a closed parent.
    pub fn new(parent: P) -> StatsCollector<P>
        requires shut { IsShut (P.model parent) }
        requires proper { IsProper (P.model parent).rules }
        ensures rules { (collector_of P.model result).rules ≡ stats_rules (P.model parent).rules }
        ensures shut { IsShut (collector_of P.model result) }
    {
        StatsCollector {
            counts: None,
            parent,
        }
    }

    /// The fifteen numbers since the layer was opened; while it is closed all are 0.
    pub fn stats(&self) -> Stats
        ensures { AreCountsOf (collector_of P.model self.now) result }
    {
        match self.counts {
            Some(counts) => counts,
            None => no_counts(),
        }
    }

    // What the parent's good size for `n` is longer.
    fn slack(&self, n: u64) -> u64
        ensures { result ≡ slack_of (P.model self.now.parent).rules n }
    {
        self.parent.good_alloc_size(n) - n
    }
}

impl<P: Layer> Layer for StatsCollector<P> {
    ghost use Rattle.stats_collector.specs.CollectorModel.{collector_of};
    ghost use Rattle.stats_collector.specs.CollectorMade.{collector_made};

    ghost model = { collector_of P.model };

    fn nodes(&self) -> u32 {
        self.parent.nodes() + 1
    }

    fn offers(&self) -> Offers {
        self.parent.offers()
    }

    fn alignment(&self) -> u64 {
        self.parent.alignment()
    }

    fn good_alloc_size(&self, n: u64) -> u64 {
        self.parent.good_alloc_size(n)
    }

    fn is_open(&self) -> bool {
        self.counts.is_some()
    }

    fn set_up(&mut self, space: &mut Space, need: u64) -> Result<(), Refused> {
        match self.parent.set_up(space, need) {
            Ok(()) => {
                self.counts = Some(no_counts());
                Ok(())
            }
            Err(refused) => Err(Refused {
                node: refused.node + 1,
            }),
        }
    }

    fn tear_down(&mut self, space: &mut Space) {
        self.parent.tear_down(space);
        self.counts = None;
    }

    fn allocate(&mut self, space: &mut Space, n: u64) -> Option<Block> {
        if n == 0 {
            return None;
        }
        match self.counts {
            Some(counts) => {
                if n > LIMIT {
                    self.counts = Some(after_request(counts, false, n, 0));
                    return None;
                }
                let slack = self.slack(n);
                let served = self.parent.allocate(space, n);
                self.counts = Some(after_request(counts, served.is_some(), n, slack));
                served
            }
            None => unreachable!(),
        }
    }

    fn aligned_allocate(&mut self, space: &mut Space, n: u64, a: u64) -> Option<Block> {
        if n == 0 {
            return None;
        }
        match self.counts {
            Some(counts) => {
                if n > LIMIT {
                    self.counts = Some(after_request(counts, false, n, 0));
                    return None;
                }
                let slack = self.slack(n);
                let served = self.parent.aligned_allocate(space, n, a);
                self.counts = Some(after_request(counts, served.is_some(), n, slack));
                served
            }
            None => unreachable!(),
        }
    }

    fn expand(&mut self, space: &mut Space, b: &mut Block, delta: u64) -> bool {
        if delta == 0 {
            return true;
        }
        match self.counts {
            Some(counts) => {
                if delta > LIMIT - b.len {
                    self.counts = Some(after_expansion(counts, false, delta, 0, 0));
                    return false;
                }
                let old_slack = self.slack(b.len);
                let new_slack = self.slack(b.len + delta);
                let grown = self.parent.expand(space, b, delta);
                self.counts = Some(after_expansion(counts, grown, delta, old_slack, new_slack));
                grown
            }
            None => unreachable!(),
        }
    }

    fn reallocate(&mut self, space: &mut Space, b: &mut Block, n: u64) -> bool {
        if n == b.len {
            return true;
        }
        if n == 0 {
            self.deallocate(space, *b);
            *b = Block { place: 0, len: 0 };
            return true;
        }
        match self.counts {
            Some(counts) => {
                if n > LIMIT {
                    self.counts = Some(after_failed_reallocation(counts));
                    return false;
                }
                let old = *b;
                let old_slack = self.slack(old.len);
                let new_slack = self.slack(n);
                if !self.parent.reallocate(space, b, n) {
                    self.counts = Some(after_failed_reallocation(counts));
                    return false;
                }
                let in_place = old.place == b.place;
                self.counts = Some(after_reallocation(
                    counts, in_place, old.len, n, old_slack, new_slack,
                ));
                true
            }
            None => unreachable!(),
        }
    }

    fn deallocate(&mut self, space: &mut Space, b: Block) -> bool {
        match self.counts {
            Some(counts) => {
                let slack = self.slack(b.len);
                let freed = self.parent.deallocate(space, b);
                self.counts = Some(after_deallocation(counts, b.len, slack));
                freed
            }
            None => unreachable!(),
        }
    }

    fn deallocate_all(&mut self, space: &mut Space) {
        match self.counts {
            Some(counts) => {
                self.parent.deallocate_all(space);
                self.counts = Some(after_clearing(counts));
            }
            None => unreachable!(),
        }
    }

    fn holds(&self, b: Block) -> bool {
        self.counts.is_some() && b.len >= 1 && b.len <= LIMIT && self.parent.holds(b)
    }

    fn owns(&mut self, b: Block) -> bool {
        match self.counts {
            Some(counts) => {
                self.counts = Some(after_owns(counts));
                b.len >= 1 && b.len <= LIMIT && self.parent.owns(b)
            }
            None => unreachable!(),
        }
    }

    fn owns_at(&self, path: &Path, from: usize, b: Block) -> Asked {
        if from < path.len() {
            if path.at(from) > 0 {
                return Asked::NoSuchLayer;
            }
            let answer = self.parent.owns_at(path, from + 1, b);
            if matches!(answer, Asked::Yes) && (b.len == 0 || b.len > LIMIT) {
                return Asked::No;
            }
            return answer;
        }
        if !self.parent.offers().owns {
            return Asked::NotOffered;
        }
        if self.holds(b) { Asked::Yes } else { Asked::No }
    }

    fn extent(&self, b: Block) -> u64 {
        self.parent.extent(b)
    }

    fn fact(&self, space: &Space, node: u32) -> Fact {
        if node > 0 {
            return self.parent.fact(space, node - 1);
        }
        match self.counts {
            Some(counts) => Fact::Counters { stats: counts },
            None => Fact::Closed,
        }
    }

    fn state_len(&self, node: u32) -> u32 {
        if node > 0 {
            return self.parent.state_len(node - 1);
        }
        if self.counts.is_some() { 16 } else { 0 }
    }

    fn state_number(&self, node: u32, k: u32) -> u64 {
        if node > 0 {
            return self.parent.state_number(node - 1, k);
        }
        match self.counts {
            Some(counts) => {
                if k == 0 {
                    1
                } else {
                    in_order(counts)[k as usize - 1]
                }
            }
            None => unreachable!(),
        }
    }

    ghost made = { λ l. collector_made P.made l };
}

impl<P: Owning> Owning for StatsCollector<P> {
    ghost use Rattle.stats_collector.specs.CollectorOwns.{collector_owns};

    ghost owning = { λ l. collector_owns P.owning l };
}
