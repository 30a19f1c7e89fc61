//! The calls on trees.
ghost use Rattle.std.specs.Prelude.{◌≡◌, ℕ, ◌+◌, ◌-◌, ◌*◌, ◌<◌, ◌≤◌, ◌++◌, ◌↔◌, max, [], length, take, drop, IsNone, IfOk, OnOk, OnErr};
ghost use Rattle.seg_tree.specs.Trees.{Tree, run, run_maybe, concat, split, build, splice};
ghost use Rattle.seg_tree.specs.Measures.{IsBalanced, IsBalancedMaybe, height_maybe, uses, uses_maybe};
ghost use Rattle.seg_tree.specs.Table.{tree, root_tree, IsRoot};
ghost use Rattle.seg_tree.specs.Growth.{PlantsMaybe, PlantsPair, Passes};
ghost use Rattle.seg_tree.specs.Laws.{IsJoin, IsBuild};

use crate::node::Node;
use crate::nodes::Nodes;
use std::alloc::AllocError;

impl Nodes {
    /// The tree of a list of items, and None of the empty list. Leaves have 8 items, the last the rest; of c leaves the
    /// left side has the first (c + 1) / 2, rounded down.
    pub fn build(&mut self, items: &[u64]) -> Result<Option<Node>, AllocError>
        requires { length items.now ≤ 65536 }
        ensures tree { IfOk result (λ r. PlantsMaybe self.old self.new (build items.now) r) }
        ensures none { IfOk result (λ r. IsNone r ↔ (items.now ≡ [])) }
        ensures shape { OnOk result (IsBuild items.now) }
        ensures run { IfOk result (λ r. run_maybe (root_tree self.new r) ≡ items.now) }
        ensures balanced { IfOk result (λ r. IsBalancedMaybe (root_tree self.new r)) }
        ensures nodes { IfOk result (λ r. Passes (length self.old) (length self.new) (λ k. 0) (λ k. uses_maybe k (root_tree self.new r))) }
        ensures bound { OnOk result (length self.new ≤ length self.old + 2 * length items.now) }
        ensures err { OnErr result (self.new ≡ self.old) }
    {
        let draft = self.draft_build(items)?;
        self.add(draft)
    }

    /// The items before a place and those from it on, each as a tree, or None where there are none.
    /// A place from 0 to the length.
    pub fn split(&mut self, root: Node, at: u32) -> Result<(Option<Node>, Option<Node>), AllocError>
        requires there { root < length self.old }
        requires within { at ≤ length (run (tree self.old root)) }
        ensures tree { IfOk result (λ r. PlantsPair self.old self.new (split (tree self.old root) at) r) }
        ensures front { IfOk result (λ r. run_maybe (root_tree self.new r.0) ≡ take at (run (tree self.old root))) }
        ensures back { IfOk result (λ r. run_maybe (root_tree self.new r.1) ≡ drop at (run (tree self.old root))) }
        ensures balanced { IfOk result (λ r. IsBalancedMaybe (root_tree self.new r.0) × IsBalancedMaybe (root_tree self.new r.1)) }
        ensures nodes { IfOk result (λ r. Passes (length self.old) (length self.new) (λ k. uses k (tree self.old root)) (λ k. uses_maybe k (root_tree self.new r.0) + uses_maybe k (root_tree self.new r.1))) }
        ensures err { OnErr result (self.new ≡ self.old) }
    {
        let draft = self.draft(root);
        let (front, back) = self.draft_split(draft, at)?;
        self.add_pair(front, back)
    }

    /// Two trees one after the other. A side that is None gives the other.
    pub fn concat(
        &mut self,
        left: Option<Node>,
        right: Option<Node>,
    ) -> Result<Option<Node>, AllocError>
        requires left { IsRoot self.old left }
        requires right { IsRoot self.old right }
        requires fits { length (run_maybe (root_tree self.old left)) + length (run_maybe (root_tree self.old right)) ≤ 65536 }
        ensures tree { IfOk result (λ r. PlantsMaybe self.old self.new (concat (root_tree self.old left) (root_tree self.old right)) r) }
        ensures shape { OnOk result ((a b : Tree ℕ) → IsBalanced a → IsBalanced b → IsJoin a b) }
        ensures run { IfOk result (λ r. run_maybe (root_tree self.new r) ≡ run_maybe (root_tree self.old left) ++ run_maybe (root_tree self.old right)) }
        ensures balanced { IfOk result (λ r. IsBalancedMaybe (root_tree self.new r)) }
        ensures nodes { IfOk result (λ r. Passes (length self.old) (length self.new) (λ k. uses_maybe k (root_tree self.old left) + uses_maybe k (root_tree self.old right)) (λ k. uses_maybe k (root_tree self.new r))) }
        ensures err { OnErr result (self.new ≡ self.old) }
    {
        let left = self.draft_of(left);
        let right = self.draft_of(right);
        let draft = self.draft_concat(left, right)?;
        self.add(draft)
    }

    /// A tree with the items from one place to another replaced by others, which may be none. The nodes that lie
    /// outside the range are shared with the old tree, so few are new, whatever the length.
    pub fn splice(
        &mut self,
        root: Option<Node>,
        from: u32,
        to: u32,
        items: &[u64],
    ) -> Result<Option<Node>, AllocError>
        requires there { IsRoot self.old root }
        requires order { from ≤ to }
        requires within { to ≤ length (run_maybe (root_tree self.old root)) }
        requires inserted { length items.now ≤ 65536 }
        requires fits { length (run_maybe (root_tree self.old root)) - (to - from) + length items.now ≤ 65536 }
        ensures tree { IfOk result (λ r. PlantsMaybe self.old self.new (splice (root_tree self.old root) from to items.now) r) }
        ensures run { IfOk result (λ r. run_maybe (root_tree self.new r) ≡ take from (run_maybe (root_tree self.old root)) ++ items.now ++ drop to (run_maybe (root_tree self.old root))) }
        ensures balanced { IfOk result (λ r. IsBalancedMaybe (root_tree self.new r)) }
        ensures nodes { IfOk result (λ r. Passes (length self.old) (length self.new) (λ k. uses_maybe k (root_tree self.old root)) (λ k. uses_maybe k (root_tree self.new r))) }
        ensures bound { OnOk result (length self.new ≤ length self.old + 64 * (max (height_maybe (root_tree self.old root)) (height_maybe (build items.now)) + 1) + 2 * length items.now) }
        ensures err { OnErr result (self.new ≡ self.old) }
    {
        let whole = self.draft_of(root);
        let draft = self.draft_splice(whole, from, to, items)?;
        self.add(draft)
    }
}
