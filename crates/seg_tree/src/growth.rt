//! How the table grows.
ghost use Rattle.std.specs.Prelude.{◌≡◌, ◌≤◌, length, IfOk, OnErr};
ghost use Rattle.seg_tree.specs.Trees.{run_maybe, run};
ghost use Rattle.seg_tree.specs.Measures.{IsBalanced, IsBalancedMaybe};
ghost use Rattle.seg_tree.specs.Drafts.{draft_tree, maybe_tree, IsGood, IsGoodMaybe};
ghost use Rattle.seg_tree.specs.Growth.{Extends, Plants, PlantsMaybe, PlantsPair};

use crate::drafts::{Draft, Slot};
use crate::node::Node;
use crate::nodes::Nodes;
use std::alloc::AllocError;

impl Nodes {
    /// The new nodes of a draft, children first.
    fn plant(&mut self, draft: Draft) -> Result<Node, AllocError>
        requires good { IsGood self.old draft }
        requires balanced { IsBalanced (draft_tree self.old draft) }
        requires short { length (run (draft_tree self.old draft)) ≤ 65536 }
        ensures front { Extends self.old self.new }
        ensures tree { IfOk result (λ k. Plants self.old self.new (draft_tree self.old draft) k) }
    {
        match draft {
            Draft::Old(node) => Ok(node),
            Draft::Leaf(items) => self.push(Slot::Leaf(items)),
            Draft::Branch(left, right, len, high) => {
                let left = self.plant(Box::into_inner(left))?;
                let right = self.plant(Box::into_inner(right))?;
                self.push(Slot::Branch(left, right, len, high))
            }
        }
    }

    /// The new nodes of a draft, or none of them where memory is wanting.
    pub(crate) fn add(&mut self, draft: Option<Draft>) -> Result<Option<Node>, AllocError>
        requires good { IsGoodMaybe self.old draft }
        requires balanced { IsBalancedMaybe (maybe_tree self.old draft) }
        requires short { length (run_maybe (maybe_tree self.old draft)) ≤ 65536 }
        ensures front { Extends self.old self.new }
        ensures tree { IfOk result (λ r. PlantsMaybe self.old self.new (maybe_tree self.old draft) r) }
        ensures err { OnErr result (self.new ≡ self.old) }
    {
        let Some(draft) = draft else {
            return Ok(None);
        };
        let count = self.count();
        match self.plant(draft) {
            Ok(node) => Ok(Some(node)),
            Err(e) => {
                self.truncate(count);
                Err(e)
            }
        }
    }

    /// The new nodes of two drafts, or none of them where memory is wanting.
    pub(crate) fn add_pair(
        &mut self,
        front: Option<Draft>,
        back: Option<Draft>,
    ) -> Result<(Option<Node>, Option<Node>), AllocError>
        requires front_good { IsGoodMaybe self.old front }
        requires front_balanced { IsBalancedMaybe (maybe_tree self.old front) }
        requires front_short { length (run_maybe (maybe_tree self.old front)) ≤ 65536 }
        requires back_good { IsGoodMaybe self.old back }
        requires back_balanced { IsBalancedMaybe (maybe_tree self.old back) }
        requires back_short { length (run_maybe (maybe_tree self.old back)) ≤ 65536 }
        ensures tree { IfOk result (λ r. PlantsPair self.old self.new (maybe_tree self.old front, maybe_tree self.old back) r) }
        ensures err { OnErr result (self.new ≡ self.old) }
    {
        let count = self.count();
        let front = self.add(front)?;
        match self.add(back) {
            Ok(back) => Ok((front, back)),
            Err(e) => {
                self.truncate(count);
                Err(e)
            }
        }
    }
}
