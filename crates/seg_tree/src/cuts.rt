//! How drafts are cut, built and spliced.
ghost use Rattle.std.specs.Prelude.{◌≡◌, ◌+◌, ◌-◌, ◌<◌, ◌≤◌, length, IfOk};
ghost use Rattle.seg_tree.specs.Trees.{height, run, run_maybe, concat, split, split_maybe, built, build, splice};
ghost use Rattle.seg_tree.specs.Table.{root_tree, IsRoot};
ghost use Rattle.seg_tree.specs.Drafts.{draft_tree, maybe_tree, IsGood, IsGoodMaybe, IsDraft, IsMaybe, ArePair};

use crate::drafts::{Draft, Opened};
use crate::node::Node;
use crate::nodes::Nodes;
use smallvec::SmallVec;
use std::alloc::AllocError;

impl Nodes {
    /// Two trees, or what there is of them.
    #[tactic(auto, using(crate::proofs::Cases::concatenating))]
    pub(crate) fn draft_concat(
        &self,
        left: Option<Draft>,
        right: Option<Draft>,
    ) -> Result<Option<Draft>, AllocError>
        requires left { IsGoodMaybe self.now left }
        requires right { IsGoodMaybe self.now right }
        requires fits { length (run_maybe (maybe_tree self.now left)) + length (run_maybe (maybe_tree self.now right)) ≤ 65536 }
        ensures { IfOk result (λ p. IsMaybe self.now (concat (maybe_tree self.now left) (maybe_tree self.now right)) p) }
    {
        let Some(left) = left else {
            return Ok(right);
        };
        let Some(right) = right else {
            return Ok(Some(left));
        };
        let draft = self.join(left, right)?;
        Ok(Some(draft))
    }

    /// A leaf in two.
    #[tactic(auto, using(crate::proofs::Cases::split_leaf, std::proofs::lemmas::List::take_rest))]
    fn cut_leaf(
        &self,
        draft: &Draft,
        at: usize,
    ) -> Result<(Option<Draft>, Option<Draft>), AllocError>
        requires good { IsGood self.now draft.now }
        requires flat { height (draft_tree self.now draft.now) ≡ 0 }
        requires short { length (run (draft_tree self.now draft.now)) ≤ 8 }
        requires above { 0 < at }
        requires below { at < length (run (draft_tree self.now draft.now)) }
        ensures { IfOk result (λ p. ArePair self.now (split (draft_tree self.now draft.now) at) p) }
    {
        let items = self.items(draft);
        let front = SmallVec::from_slice(self.alloc(), &items[..at])?;
        let back = SmallVec::from_slice(self.alloc(), &items[at..])?;
        Ok((Some(Draft::Leaf(front)), Some(Draft::Leaf(back))))
    }

    /// The parts before and behind a place.
    #[tactic(auto, using(crate::proofs::Cases::splitting, crate::proofs::Runs::cutting))]
    pub(crate) fn draft_split(
        &self,
        draft: Draft,
        at: u32,
    ) -> Result<(Option<Draft>, Option<Draft>), AllocError>
        requires good { IsGood self.now draft }
        requires within { at ≤ length (run (draft_tree self.now draft)) }
        requires fits { length (run (draft_tree self.now draft)) ≤ 65536 }
        ensures { IfOk result (λ p. ArePair self.now (split (draft_tree self.now draft) at) p) }
    {
        if at == 0 {
            return Ok((None, Some(draft)));
        }
        if at == self.len_of(&draft) {
            return Ok((Some(draft), None));
        }
        match self.open(draft) {
            Opened::Leaf(leaf) => self.cut_leaf(&leaf, at as usize),
            Opened::Branch(left, right) => {
                let len = self.len_of(&left);
                if at < len {
                    let (front, rest) = self.draft_split(left, at)?;
                    let back = self.draft_concat(rest, Some(right))?;
                    return Ok((front, back));
                }
                if at == len {
                    return Ok((Some(left), Some(right)));
                }
                let (rest, back) = self.draft_split(right, at - len)?;
                let front = self.draft_concat(Some(left), rest)?;
                Ok((front, back))
            }
        }
    }

    /// Leaves of eight items, in a tree.
    #[tactic(auto, using(crate::proofs::Runs::building))]
    pub(crate) fn draft_built(&self, items: &[u64]) -> Result<Draft, AllocError>
        requires some { 0 < length items.now }
        requires fits { length items.now ≤ 65536 }
        ensures { IfOk result (λ p. IsDraft self.now (built (length items.now) items.now) p) }
    {
        let len = items.len();
        if len <= 8 {
            let items = SmallVec::from_slice(self.alloc(), items)?;
            return Ok(Draft::Leaf(items));
        }
        let half = ((len + 7) / 8 + 1) / 2 * 8;
        let left = self.draft_built(&items[..half])?;
        let right = self.draft_built(&items[half..])?;
        self.fork(left, right)
    }

    /// The parts before and behind a place, of a tree that may be empty.
    fn draft_split_maybe(
        &self,
        draft: Option<Draft>,
        at: u32,
    ) -> Result<(Option<Draft>, Option<Draft>), AllocError>
        requires good { IsGoodMaybe self.now draft }
        requires within { at ≤ length (run_maybe (maybe_tree self.now draft)) }
        requires fits { length (run_maybe (maybe_tree self.now draft)) ≤ 65536 }
        ensures { IfOk result (λ p. ArePair self.now (split_maybe (maybe_tree self.now draft) at) p) }
    {
        match draft {
            None => Ok((None, None)),
            Some(draft) => self.draft_split(draft, at),
        }
    }

    /// The tree of a list of items, which may be empty.
    #[tactic(auto, using(crate::proofs::Runs::build_cases))]
    pub(crate) fn draft_build(&self, items: &[u64]) -> Result<Option<Draft>, AllocError>
        requires fits { length items.now ≤ 65536 }
        ensures { IfOk result (λ p. IsMaybe self.now (build items.now) p) }
    {
        if items.is_empty() {
            return Ok(None);
        }
        let draft = self.draft_built(items)?;
        Ok(Some(draft))
    }

    /// A tree with a range of its items replaced.
    #[tactic(auto, using(crate::proofs::Runs::splicing))]
    pub(crate) fn draft_splice(
        &self,
        whole: Option<Draft>,
        from: u32,
        to: u32,
        items: &[u64],
    ) -> Result<Option<Draft>, AllocError>
        requires good { IsGoodMaybe self.now whole }
        requires short { length (run_maybe (maybe_tree self.now whole)) ≤ 65536 }
        requires order { from ≤ to }
        requires within { to ≤ length (run_maybe (maybe_tree self.now whole)) }
        requires fits { length (run_maybe (maybe_tree self.now whole)) - (to - from) + length items.now ≤ 65536 }
        ensures { IfOk result (λ p. IsMaybe self.now (splice (maybe_tree self.now whole) from to items.now) p) }
    {
        let (front, rest) = self.draft_split_maybe(whole, from)?;
        let (_, back) = self.draft_split_maybe(rest, to - from)?;
        let middle = self.draft_build(items)?;
        let front = self.draft_concat(front, middle)?;
        self.draft_concat(front, back)
    }
}
