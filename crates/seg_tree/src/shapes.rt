//! How drafts are opened, balanced and joined.
ghost use Rattle.std.specs.Prelude.{◌≡◌, None, ◌++◌, ◌+◌, ◌<◌, ◌≤◌, length, IfOk};
ghost use Rattle.seg_tree.specs.Trees.{leaf, run, height, fork, rotate_left, rotate_right, balance, adjoin, graft_right, graft_left, join};
ghost use Rattle.seg_tree.specs.Drafts.{draft_tree, IsGood, IsDraft, OpensTo};

use crate::drafts::{Draft, Opened, Slot};
use crate::nodes::Nodes;
use smallvec::SmallVec;
use std::alloc::AllocError;

impl Nodes {
    /// The height of a draft's tree.
    pub(crate) fn height_of(&self, draft: &Draft) -> u32
        requires good { IsGood self.now draft.now }
        ensures value { result ≡ height (draft_tree self.now draft.now) }
        ensures low { result < length (run (draft_tree self.now draft.now)) }
    {
        match draft {
            Draft::Old(k) => match self.slot(*k) {
                Slot::Leaf(_) => 0,
                Slot::Branch(_, _, _, high) => *high,
            },
            Draft::Leaf(_) => 0,
            Draft::Branch(_, _, _, high) => *high,
        }
    }

    /// The number of items of a draft's tree.
    pub(crate) fn len_of(&self, draft: &Draft) -> u32
        requires good { IsGood self.now draft.now }
        ensures { result ≡ length (run (draft_tree self.now draft.now)) }
    {
        match draft {
            Draft::Old(k) => match self.slot(*k) {
                Slot::Leaf(items) => items.len() as u32,
                Slot::Branch(_, _, len, _) => *len,
            },
            Draft::Leaf(items) => items.len() as u32,
            Draft::Branch(_, _, len, _) => *len,
        }
    }

    pub(crate) fn open(&self, draft: Draft) -> Opened
        requires good { IsGood self.now draft }
        ensures { OpensTo self.now (draft_tree self.now draft) result }
    {
        match draft {
            Draft::Old(k) => match self.slot(k) {
                Slot::Leaf(_) => Opened::Leaf(Draft::Old(k)),
                Slot::Branch(left, right, _, _) => Opened::Branch(
                    Draft::Old(*left),
                    Draft::Old(*right),
                ),
            },
            Draft::Leaf(items) => Opened::Leaf(Draft::Leaf(items)),
            Draft::Branch(left, right, _, _) => Opened::Branch(
                Box::into_inner(left),
                Box::into_inner(right),
            ),
        }
    }

    /// A new branch.
    pub(crate) fn fork(&self, left: Draft, right: Draft) -> Result<Draft, AllocError>
        requires left { IsGood self.now left }
        requires right { IsGood self.now right }
        requires fits { length (run (draft_tree self.now left)) + length (run (draft_tree self.now right)) ≤ 65536 }
        ensures { IfOk result (λ p. IsDraft self.now (fork (draft_tree self.now left) (draft_tree self.now right)) p) }
    {
        let high = self.height_of(&left).max(self.height_of(&right)) + 1;
        let len = self.len_of(&left) + self.len_of(&right);
        let left = Box::new(self.alloc(), left)?;
        let right = Box::new(self.alloc(), right)?;
        Ok(Draft::Branch(left, right, len, high))
    }

    /// `left`, and a higher tree of the sides `middle` and `right`.
    #[tactic(auto, using(crate::proofs::Cases::balancing))]
    fn rotate_left(&self, left: Draft, middle: Draft, right: Draft) -> Result<Draft, AllocError>
        requires left { IsGood self.now left }
        requires middle { IsGood self.now middle }
        requires right { IsGood self.now right }
        requires fits { length (run (draft_tree self.now left)) + length (run (draft_tree self.now middle)) + length (run (draft_tree self.now right)) ≤ 65536 }
        ensures { IfOk result (λ p. IsDraft self.now (rotate_left (draft_tree self.now left) (draft_tree self.now middle) (draft_tree self.now right)) p) }
    {
        if self.height_of(&middle) <= self.height_of(&right) {
            let left = self.fork(left, middle)?;
            return self.fork(left, right);
        }
        match self.open(middle) {
            Opened::Leaf(_) => unreachable!(),
            Opened::Branch(a, b) => {
                let left = self.fork(left, a)?;
                let right = self.fork(b, right)?;
                self.fork(left, right)
            }
        }
    }

    /// A higher tree of the sides `left` and `middle`, and `right`.
    #[tactic(auto, using(crate::proofs::Cases::balancing))]
    fn rotate_right(&self, left: Draft, middle: Draft, right: Draft) -> Result<Draft, AllocError>
        requires left { IsGood self.now left }
        requires middle { IsGood self.now middle }
        requires right { IsGood self.now right }
        requires fits { length (run (draft_tree self.now left)) + length (run (draft_tree self.now middle)) + length (run (draft_tree self.now right)) ≤ 65536 }
        ensures { IfOk result (λ p. IsDraft self.now (rotate_right (draft_tree self.now left) (draft_tree self.now middle) (draft_tree self.now right)) p) }
    {
        if self.height_of(&middle) <= self.height_of(&left) {
            let right = self.fork(middle, right)?;
            return self.fork(left, right);
        }
        match self.open(middle) {
            Opened::Leaf(_) => unreachable!(),
            Opened::Branch(a, b) => {
                let left = self.fork(left, a)?;
                let right = self.fork(b, right)?;
                self.fork(left, right)
            }
        }
    }

    /// Two trees, the heights of which differ by at most 2.
    #[tactic(auto, using(crate::proofs::Cases::balancing))]
    fn balance(&self, left: Draft, right: Draft) -> Result<Draft, AllocError>
        requires left { IsGood self.now left }
        requires right { IsGood self.now right }
        requires fits { length (run (draft_tree self.now left)) + length (run (draft_tree self.now right)) ≤ 65536 }
        ensures { IfOk result (λ p. IsDraft self.now (balance (draft_tree self.now left) (draft_tree self.now right)) p) }
    {
        let a = self.height_of(&left);
        let b = self.height_of(&right);
        if b.saturating_sub(a) > 1 {
            return match self.open(right) {
                Opened::Leaf(_) => unreachable!(),
                Opened::Branch(middle, right) => self.rotate_left(left, middle, right),
            };
        }
        if a.saturating_sub(b) > 1 {
            return match self.open(left) {
                Opened::Leaf(_) => unreachable!(),
                Opened::Branch(left, middle) => self.rotate_right(left, middle, right),
            };
        }
        self.fork(left, right)
    }

    /// The items of a leaf.
    pub(crate) fn items<'a>(&'a self, draft: &'a Draft) -> &'a [u64]
        requires good { IsGood self.now draft.now }
        requires flat { height (draft_tree self.now draft.now) ≡ 0 }
        ensures { result.now ≡ run (draft_tree self.now draft.now) }
    {
        match draft {
            Draft::Old(k) => match self.slot(*k) {
                Slot::Leaf(items) => items.as_slice(),
                Slot::Branch(_, _, _, _) => unreachable!(),
            },
            Draft::Leaf(items) => items.as_slice(),
            Draft::Branch(_, _, _, _) => unreachable!(),
        }
    }

    /// One leaf of two.
    #[tactic(auto, using(crate::proofs::Cases::adjoining))]
    fn merge(&self, left: &Draft, right: &Draft) -> Result<Draft, AllocError>
        requires left { IsGood self.now left.now }
        requires right { IsGood self.now right.now }
        requires flat { height (draft_tree self.now left.now) + height (draft_tree self.now right.now) ≡ 0 }
        requires some { 0 < length (run (draft_tree self.now left.now)) }
        requires fits { length (run (draft_tree self.now left.now)) + length (run (draft_tree self.now right.now)) ≤ 8 }
        ensures { IfOk result (λ p. IsDraft self.now (leaf None (run (draft_tree self.now left.now) ++ run (draft_tree self.now right.now))) p) }
    {
        let mut items = SmallVec::from_slice(self.alloc(), self.items(left))?;
        items.extend_from_slice(self.items(right))?;
        Ok(Draft::Leaf(items))
    }

    /// Two trees of about one height.
    #[tactic(auto, using(crate::proofs::Cases::adjoining))]
    fn adjoin(&self, left: Draft, right: Draft) -> Result<Draft, AllocError>
        requires left { IsGood self.now left }
        requires right { IsGood self.now right }
        requires fits { length (run (draft_tree self.now left)) + length (run (draft_tree self.now right)) ≤ 65536 }
        ensures { IfOk result (λ p. IsDraft self.now (adjoin (draft_tree self.now left) (draft_tree self.now right)) p) }
    {
        let len = self.len_of(&left);
        if self.height_of(&left) > 0
            || self.height_of(&right) > 0
            || len + self.len_of(&right) > 8
        {
            return self.fork(left, right);
        }
        self.merge(&left, &right)
    }

    /// `right` goes to the right end of a higher tree.
    #[tactic(auto, using(crate::proofs::Cases::joining))]
    fn graft_right(&self, left: Draft, right: Draft) -> Result<Draft, AllocError>
        requires left { IsGood self.now left }
        requires right { IsGood self.now right }
        requires fits { length (run (draft_tree self.now left)) + length (run (draft_tree self.now right)) ≤ 65536 }
        ensures { IfOk result (λ p. IsDraft self.now (graft_right (draft_tree self.now left) (draft_tree self.now right)) p) }
    {
        if self.height_of(&left).saturating_sub(self.height_of(&right)) <= 1 {
            return self.adjoin(left, right);
        }
        match self.open(left) {
            Opened::Leaf(_) => unreachable!(),
            Opened::Branch(first, rest) => {
                let rest = self.graft_right(rest, right)?;
                self.balance(first, rest)
            }
        }
    }

    /// `left` goes to the left end of a higher tree.
    #[tactic(auto, using(crate::proofs::Cases::joining))]
    fn graft_left(&self, left: Draft, right: Draft) -> Result<Draft, AllocError>
        requires left { IsGood self.now left }
        requires right { IsGood self.now right }
        requires fits { length (run (draft_tree self.now left)) + length (run (draft_tree self.now right)) ≤ 65536 }
        ensures { IfOk result (λ p. IsDraft self.now (graft_left (draft_tree self.now left) (draft_tree self.now right)) p) }
    {
        if self.height_of(&right).saturating_sub(self.height_of(&left)) <= 1 {
            return self.adjoin(left, right);
        }
        match self.open(right) {
            Opened::Leaf(_) => unreachable!(),
            Opened::Branch(rest, last) => {
                let rest = self.graft_left(left, rest)?;
                self.balance(rest, last)
            }
        }
    }

    /// Two trees in one.
    #[tactic(auto, using(crate::proofs::Cases::joining))]
    pub(crate) fn join(&self, left: Draft, right: Draft) -> Result<Draft, AllocError>
        requires left { IsGood self.now left }
        requires right { IsGood self.now right }
        requires fits { length (run (draft_tree self.now left)) + length (run (draft_tree self.now right)) ≤ 65536 }
        ensures { IfOk result (λ p. IsDraft self.now (join (draft_tree self.now left) (draft_tree self.now right)) p) }
    {
        if self.height_of(&left).saturating_sub(self.height_of(&right)) > 1 {
            self.graft_right(left, right)
        } else {
            self.graft_left(left, right)
        }
    }
}
