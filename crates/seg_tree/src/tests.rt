//! Worked trees, and many edits of a long list.
ghost use Rattle.std.specs.Prelude.{◌≡◌, ◌<◌, ◌≤◌, length, IfOk, OnOk};
ghost use Rattle.seg_tree.specs.Trees.{run_maybe};
ghost use Rattle.seg_tree.specs.Table.{root_tree, IsRoot};

use crate::{Node, Nodes, Seen};
use std::alloc::{AllocError, Global};
use std::process::Abort;
use std::test::Fail;

/// The numbers of items of a tree's leaves, in order.
fn leaf_sizes(nodes: &Nodes, node: Node, out: &mut Vec<usize>) -> Result<(), AllocError>
    requires { node < length nodes.now }
{
    match nodes.look(node) {
        Seen::Leaf(items) => {
            out.push(items.len())?;
            Ok(())
        }
        Seen::Branch(left, right) => {
            leaf_sizes(nodes, left, out)?;
            leaf_sizes(nodes, right, out)
        }
    }
}

/// Asserts the numbers of items of a tree's leaves, and its height.
fn assert_shape(
    rt: &impl Abort,
    alloc: Global,
    nodes: &Nodes,
    root: Option<Node>,
    sizes: &[usize],
    height: u32,
) -> Result<(), AllocError>
    requires { IsRoot nodes.now root }
{
    let mut found = Vec::new(alloc);
    let mut found_height = 0;
    if let Some(node) = root {
        leaf_sizes(nodes, node, &mut found)?;
        found_height = nodes.height(node);
    }
    assert_eq!(rt; found.as_slice(), sizes);
    assert_eq!(rt; found_height, height);
    Ok(())
}

/// The numbers from 0 on.
fn numbers(alloc: Global, count: u64) -> Result<Vec<u64>, AllocError> {
    let mut out = Vec::new(alloc);
    for i in 0..count {
        out.push(i)?;
    }
    Ok(out)
}

#[test]
fn builds_and_splits_seventeen(rt: HostRuntime) -> Result<(), Fail> {
    let alloc = rt.alloc();
    let mut nodes = Nodes::new(alloc);
    let items = numbers(alloc, 17)?;
    assert!(rt; items.len() <= 65536);
    let root = nodes.build(&items)?;
    assert_shape(&rt, alloc, &nodes, root, &[8, 8, 1], 2)?;
    assert_eq!(rt; nodes.count(), 5);
    let Some(root) = root else {
        return Ok(());
    };
    assert_eq!(rt; nodes.len(root), 17);
    assert_eq!(rt; nodes.run_of(root)?.as_slice(), items.as_slice());
    let (front, back) = nodes.split(root, 8)?;
    assert_shape(&rt, alloc, &nodes, front, &[8], 0)?;
    assert_shape(&rt, alloc, &nodes, back, &[8, 1], 1)?;
    Ok(())
}

#[test]
fn joins_small_leaves(rt: HostRuntime) -> Result<(), Fail> {
    let alloc = rt.alloc();
    let mut nodes = Nodes::new(alloc);
    let left = nodes.build(&[1, 2, 3, 4])?;
    let right = nodes.build(&[5, 6, 7, 8])?;
    let eight = nodes.concat(left, right)?;
    assert_shape(&rt, alloc, &nodes, eight, &[8], 0)?;
    let left = nodes.build(&[1, 2, 3, 4])?;
    let right = nodes.build(&[5, 6, 7, 8, 9])?;
    let nine = nodes.concat(left, right)?;
    assert_shape(&rt, alloc, &nodes, nine, &[4, 5], 1)?;
    Ok(())
}

/// The number of items below a root, where there is one.
fn items_below(nodes: &Nodes, root: &Option<Node>) -> u32
    requires { IsRoot nodes.now root.now }
    ensures value { result ≡ length (run_maybe (root_tree nodes.now root.now)) }
    ensures short { result ≤ 65536 }
{
    match root {
        Some(node) => nodes.len(*node),
        None => 0,
    }
}

/// One edit of a tree and of the plain list beside it: an item is replaced, taken out or put in.
fn edit(
    nodes: &mut Nodes,
    root: Option<Node>,
    plain: &mut Vec<u64>,
    step: u64,
) -> Result<Option<Node>, AllocError>
    requires { IsRoot nodes.old root }
    ensures root { IfOk result (λ r. IsRoot nodes.new r) }
    ensures grown { OnOk result (length nodes.old ≤ length nodes.new) }
{
    let len = items_below(nodes, &root);
    let from = (step % 65521 * 7919 % (u64::from(len) + 1)) as u32;
    let cut = ((3 - step % 3) / 2) as u32;
    let to = (from + cut).min(len);
    if from < to && (from as usize) < plain.len() {
        let _ = plain.remove(from as usize);
    }
    if step % 3 == 1 || len - (to - from) > 65535 {
        return nodes.splice(root, from, to, &[]);
    }
    if from as usize <= plain.len() {
        plain.insert(from as usize, step)?;
    }
    nodes.splice(root, from, to, &[step])
}

#[test]
fn splices_a_long_list_a_thousand_times(rt: HostRuntime) -> Result<(), Fail> {
    let alloc = rt.alloc();
    let mut nodes = Nodes::new(alloc);
    let mut plain = numbers(alloc, 65536)?;
    assert!(rt; plain.len() <= 65536);
    let mut root = nodes.build(&plain)?;
    for step in 0..1000 {
        let before = nodes.count();
        root = edit(&mut nodes, root, &mut plain, step)?;
        assert!(rt; nodes.count() - before < 100, "at {step}");
    }
    let Some(node) = root else {
        return Ok(());
    };
    assert_eq!(rt; nodes.run_of(node)?.as_slice(), plain.as_slice());
    Ok(())
}
