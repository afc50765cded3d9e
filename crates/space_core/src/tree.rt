//! A tree of summaries over numbered positions, by which runs of free positions are found.
ghost use Rattle.std.specs.Prelude.{◌≡◌, ◌≢◌, ℕ, ◌+◌, ◌*◌, ◌/◌, ◌≤◌, ◌<◌, ◌^◌, true, false, not, length, replicate, slice_index, slice_index_or, slice_set, nat_le, nat_eq, cond, ◌⊎◌, IfOk, IfSome};
ghost use Rattle.std.specs.Int.{IsPowerOfTwo, IsNextPowerOfTwo};
ghost use Rattle.space_core.specs.Memory.{most_cells};
ghost use Rattle.space_core.specs.Runs.{first_run, put_run};
ghost use Rattle.space_core.specs.Summaries.{IsSummary, IsLongest, leaf_of, join_of};
ghost use Rattle.space_core.specs.Trees.{IsNode, IsTree, Covers, Tells, node_at};

use crate::NoMemory;
use crate::runs::put_run;
use std::alloc::Global;
use std::marker::Model;

/// The lengths of the free run at the front of some positions, of that at their back, and of the longest.
#[derive(Clone, Copy, Debug, PartialEq, Eq)]
pub struct Summary {
    pub front: u32,
    pub back: u32,
    pub best: u32,
}

impl Summary {
    /// The summary of one position.
    fn leaf(taken: bool) -> Summary
        ensures { result ≡ leaf_of taken }
    {
        let run = if taken { 0 } else { 1 };
        Summary {
            front: run,
            back: run,
            best: run,
        }
    }

    /// The summary of the positions of two, which have `len` positions each.
    fn join(len: u32, a: Summary, b: Summary) -> Summary
        requires len { 2 * len < 2 ^ 32 }
        requires front { b.front ≤ len }
        requires back { a.back ≤ len }
        ensures { result ≡ join_of len a b }
    {
        Summary {
            front: if a.front == len {
                len + b.front
            } else {
                a.front
            },
            back: if b.back == len { len + a.back } else { b.back },
            best: a.best.max(b.best).max(a.back + b.front),
        }
    }

    /// How many free positions stand just before the end of these `len`, where so many stand just before them.
    fn run_behind(self, len: u32, run: u32) -> u32
        requires { run + len < 2 ^ 32 }
        ensures { result ≡ cond (nat_eq self.front len) (run + len) self.back }
    {
        if self.front == len {
            run + len
        } else {
            self.back
        }
    }
}

/// A row of numbered positions, each free or taken, in which runs of free positions are found.
///
/// Contracts see a list, in which true is taken. Over it stands a complete tree: node 1 is the root, and the children
/// of node `i` are `2 * i` and `2 * i + 1`. Each node with children has its summary kept under its number, so there
/// are as many, with an unused one for 0, as the tree has leaves. What a leaf says is read off the row.
#[derive(Drop)]
pub struct RunTree {
    taken: Vec<bool>,
    nodes: Vec<Summary>,
}

impl Model for RunTree {
    ghost use Rattle.std.specs.Prelude.{List, Bool};
    ghost use Rattle.space_core.specs.Trees.{IsTree};

    ghost Value = { List Bool };

    ghost view = { λ a. a.taken.items };

    ghost invariant = { λ a. IsTree a.taken.items a.nodes.items };
}

impl RunTree {
    /// So many positions, all free.
    ///
    /// # Errors
    /// `NoMemory` where the process has no memory for them.
    pub fn new(alloc: Global, n: u32) -> Result<RunTree, NoMemory>
        requires some { 1 ≤ n }
        requires most { n ≤ most_cells }
        ensures { IfOk result (λ tree. tree ≡ replicate n false) }
    {
        let len = n as usize;
        let width = len.next_power_of_two();
        let taken = vec![in alloc; false; len]?;
        let none = Summary {
            front: 0,
            back: 0,
            best: 0,
        };
        let mut nodes = vec![in alloc; none; width]?;
        refresh(&taken, &mut nodes, 0, width);
        Ok(RunTree { taken, nodes })
    }

    /// How many positions there are.
    pub fn len(&self) -> u32
        ensures { result ≡ length self.now }
    {
        self.taken.len() as u32
    }

    /// Whether the position is free.
    pub fn is_free(&self, at: u32) -> bool
        requires { at < length self.now }
        ensures { result ≡ not (slice_index_or self.now at true) }
    {
        !self.taken[at as usize]
    }

    /// Frees or takes so many positions from one on.
    pub fn set(&mut self, from: u32, count: u32, free: bool)
        requires { from + count ≤ length self.old }
        ensures { self.new ≡ put_run (not free) from count self.old }
    {
        let first = from as usize;
        let len = count as usize;
        put_run(&mut self.taken, first, len, !free);
        refresh(&self.taken, &mut self.nodes, first, first + len);
    }

    /// The length of the longest run of free positions.
    pub fn longest(&self) -> u32
        ensures { IsLongest self.now result }
    {
        summary_of(&self.taken, &self.nodes, 1).best
    }

    /// The summary of a node.
    pub fn summary(&self, node: u32) -> Summary
        requires some { 1 ≤ node }
        requires inside { (width : ℕ) → IsNextPowerOfTwo (length self.now) width → node < 2 * width }
        ensures { (p n : ℕ) → Covers self.now node p n → IsSummary self.now p n result.front result.back result.best }
    {
        summary_of(&self.taken, &self.nodes, node as usize)
    }

    /// The least position that is at least `from` and from which `k` positions are free.
    pub fn least_from(&self, from: u32, k: u32) -> Option<u32>
        requires { 1 ≤ k }
        ensures { result ≡ first_run (λ i. nat_le from i) k 0 self.now }
    {
        match find(&self.taken, &self.nodes, from as usize, k) {
            Some(at) => Some(at as u32),
            None => None,
        }
    }
}

/// The summary of a node: that which is kept, or at a leaf that of its position, which is taken where it is past the
/// last.
fn summary_of(taken: &[bool], nodes: &[Summary], node: usize) -> Summary
    ensures { result ≡ node_at taken.now nodes.now node }
{
    if node < nodes.len() {
        return nodes[node];
    }
    let at = node - nodes.len();
    Summary::leaf(at >= taken.len() || taken[at])
}

/// Makes a node sum up its positions, where those of `len` positions do, of which its children are two.
fn refresh_node(taken: &[bool], nodes: &mut [Summary], len: u32, i: usize)
    requires most { length nodes.old < 524288 }
    requires power { IsPowerOfTwo len }
    requires node { (p : ℕ) × IsNode (length nodes.old) i p (2 * len) }
    requires children { (j p : ℕ) → Tells taken.now nodes.old j p len }
    ensures size { length nodes.new ≡ length nodes.old }
    ensures tells { (j p n : ℕ) → (j ≢ i → Tells taken.now nodes.old j p n) → Tells taken.now nodes.new j p n }
{
    let left = summary_of(taken, nodes, 2 * i);
    let right = summary_of(taken, nodes, 2 * i + 1);
    nodes[i] = Summary::join(len, left, right);
}

/// Makes some nodes in a row sum up their positions, where those of `len` positions do, of which their children are.
fn refresh_level(taken: &[bool], nodes: &mut [Summary], len: u32, low: usize, high: usize)
    requires most { length nodes.old < 524288 }
    requires power { IsPowerOfTwo len }
    requires low { length nodes.old ≤ low * (2 * len) }
    requires high { (high + 1) * (2 * len) ≤ 2 * length nodes.old }
    requires children { (i p : ℕ) → Tells taken.now nodes.old i p len }
    ensures size { length nodes.new ≡ length nodes.old }
    ensures tells { (i p n : ℕ) → ((low ≤ i → high < i) → Tells taken.now nodes.old i p n) → Tells taken.now nodes.new i p n }
{
    for i in low..high + 1 {
        refresh_node(taken, nodes, len, i);
    }
}

/// Makes all nodes sum up their positions, where those do already that have no position from `from` up to `to`.
///
/// It goes up from the leaves, level by level, and writes the nodes that have one.
fn refresh(taken: &[bool], nodes: &mut [Summary], from: usize, to: usize)
    requires width { IsPowerOfTwo (length nodes.old) }
    requires most { length nodes.old < 524288 }
    requires from { from ≤ to }
    requires to { to ≤ length nodes.old }
    requires beside { (i p n : ℕ) → (from < to → p < to → p + n ≤ from) → Tells taken.now nodes.old i p n }
    ensures size { length nodes.new ≡ length nodes.old }
    ensures tells { (i p n : ℕ) → Tells taken.now nodes.new i p n }
{
    if from == to {
        return;
    }
    let width = nodes.len();
    let mut low = width + from;
    let mut high = width + to - 1;
    let mut len = 1;
    while (len as usize) < width {
        low /= 2;
        high /= 2;
        refresh_level(taken, nodes, len, low, high);
        len *= 2;
    }
}

/// A node that a walk stands at, and how many positions it has.
#[derive(Clone, Copy)]
struct Place {
    node: usize,
    len: u32,
}

impl Place {
    /// Its first child.
    fn below(self) -> Place
        requires { self.node < 2 ^ 63 }
        ensures node { result.node ≡ 2 * self.node }
        ensures len { result.len ≡ self.len / 2 }
    {
        Place {
            node: 2 * self.node,
            len: self.len / 2,
        }
    }

    /// The node behind it, or its parent where that begins at the same position.
    fn behind(self) -> Place
        requires node { self.node < 2 ^ 63 }
        requires len { self.len < 2 ^ 31 }
        ensures { ((result.node ≡ self.node + 1) × (result.len ≡ self.len)) ⊎ ((2 * result.node ≡ self.node + 1) × (result.len ≡ 2 * self.len)) }
    {
        let next = self.node + 1;
        if next % 2 == 0 {
            Place {
                node: next / 2,
                len: 2 * self.len,
            }
        } else {
            Place {
                node: next,
                len: self.len,
            }
        }
    }
}

/// The least position that is at least `from` and from which `k` positions are free, in a tree of nodes.
///
/// It walks from the leaf of `from` to the right, node by node: over a node where no run can end or stand, and down
/// into one where a run stands. A node behind a right child is looked at through its parent.
fn find(taken: &[bool], nodes: &[Summary], from: usize, k: u32) -> Option<usize>
    requires tree { IsTree taken.now nodes.now }
    requires some { 1 ≤ k }
    ensures first { result ≡ first_run (λ i. nat_le from i) k 0 taken.now }
    ensures within { IfSome result (λ at. at < length taken.now) }
{
    if from >= taken.len() {
        return None;
    }
    let width = nodes.len();
    let mut place = Place {
        node: width + from,
        len: 1,
    };
    let mut at = from;
    let mut run = 0;
    while at < width {
        let summary = summary_of(taken, nodes, place.node);
        if run + summary.front >= k {
            return Some(at - run as usize);
        }
        if summary.best >= k {
            place = place.below();
        } else {
            run = summary.run_behind(place.len, run);
            at += place.len as usize;
            place = place.behind();
        }
    }
    None
}

#[cfg(test)]
mod tests {
    use super::*;
    use std::process::Abort;

    /// Asks for so many positions from one on, and wants the start at the row's end.
    fn finds(rt: &impl Abort, tree: &RunTree, rows: &[(u32, u32, Option<u32>)]) {
        for &(from, k, want) in rows {
            assert!(rt; 1 <= k);
            assert_eq!(rt; tree.least_from(from, k), want, "{k} from {from}");
        }
    }

    /// Wants this summary of all positions.
    fn sums_up(rt: &impl Abort, tree: &RunTree, want: Summary) {
        assert!(rt; 1 <= tree.len());
        assert_eq!(rt; tree.summary(1), want);
        assert_eq!(rt; tree.longest(), want.best);
    }

    #[test]
    fn finds_the_least_run(rt: HostRuntime) -> Result<(), NoMemory> {
        let mut tree = RunTree::new(rt.alloc(), 8)?;
        for &at in &[2, 5] {
            assert!(rt; at < tree.len());
            tree.set(at, 1, false);
        }
        finds(
            &rt,
            &tree,
            &[
                (0, 2, Some(0)),
                (1, 2, Some(3)),
                (6, 2, Some(6)),
                (0, 3, None),
            ],
        );
        sums_up(
            &rt,
            &tree,
            Summary {
                front: 2,
                back: 2,
                best: 2,
            },
        );
        Ok(())
    }

    #[test]
    fn has_one_position(rt: HostRuntime) -> Result<(), NoMemory> {
        let mut tree = RunTree::new(rt.alloc(), 1)?;
        finds(&rt, &tree, &[(0, 1, Some(0)), (0, 2, None), (1, 1, None)]);
        sums_up(
            &rt,
            &tree,
            Summary {
                front: 1,
                back: 1,
                best: 1,
            },
        );
        tree.set(0, 1, false);
        finds(&rt, &tree, &[(0, 1, None)]);
        Ok(())
    }

    #[test]
    fn ends_at_the_last_position(rt: HostRuntime) -> Result<(), NoMemory> {
        let tree = RunTree::new(rt.alloc(), 5)?;
        finds(
            &rt,
            &tree,
            &[(0, 5, Some(0)), (1, 4, Some(1)), (2, 4, None), (5, 1, None)],
        );
        sums_up(
            &rt,
            &tree,
            Summary {
                front: 5,
                back: 0,
                best: 5,
            },
        );
        Ok(())
    }
}
