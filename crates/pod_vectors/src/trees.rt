// The tree of an image's dependencies, or why it has none.
use crate::image_texts::ImageText;
use crate::images::stored_images;
use crate::pods::no_memory_number;
use ac_types::Sequence;
use dep_match::{DepError, DepNode, DepTree, Stored, closure};
use render::RenderError;
use scripts::{Page, Unread};

fn add_copy(page: &mut Page, nodes: &mut Vec<DepNode>, node: &DepNode) {
    if let Some(copy) = page.made(DepNode::copy(node)) {
        page.push(nodes, copy);
    }
}

// A tree of copied nodes, copied.
fn copied_tree(page: &mut Page, tree: &DepTree) -> Option<DepTree> {
    let copy = page.made(tree.copy())?;
    let mut nodes = Vec::new(page.alloc());
    for node in copy.nodes.as_slice() {
        add_copy(page, &mut nodes, node);
    }
    Some(DepTree {
        nodes: Sequence::from_vec(nodes),
    })
}

fn print_node(page: &mut Page, number: usize, node: &DepNode) {
    page.tell(&number);
    page.put(": image ");
    page.tell(&node.image);
    page.put(" needs");
    for child in node.children.as_slice() {
        page.put(" ");
        page.tell(child);
    }
    page.put("\n");
}

fn print_nodes(page: &mut Page, tree: &DepTree) {
    for (number, node) in tree.nodes.as_slice().iter().enumerate() {
        print_node(page, number, node);
    }
}

fn print_tree(page: &mut Page, tree: &DepTree, whole: bool) {
    match copied_tree(page, tree) {
        Some(tree) if whole => print_nodes(page, &tree),
        Some(tree) => page.tell_both(&tree.nodes.len(), &"nodes"),
        None => (),
    }
}

fn print_error(page: &mut Page, error: &DepError) {
    page.tell_both(&error.number().unwrap_or(0), error);
    if let DepError::Cycle(key) = error {
        page.put(": ");
        page.put_byte(key.bytes[0]);
    }
}

fn print_copied_error(page: &mut Page, error: &DepError) {
    if let Some(copy) = page.made(error.copy()) {
        print_error(page, &copy);
    }
}

fn first_tree(page: &mut Page, list: &[Stored], whole: bool) {
    if list.is_empty() {
        return page.unread(Unread::Missing);
    }
    match closure(page.alloc(), list, 0) {
        Ok(tree) => print_tree(page, &tree, whole),
        Err(error) => print_copied_error(page, &error),
    }
}

/// `tree`: the nodes of the first image's tree, or why it has none. `tree-size`: how many nodes.
pub fn tree_answer(page: &mut Page, images: &[ImageText], whole: bool) {
    let list = stored_images(page, images);
    first_tree(page, list.as_slice(), whole);
}

fn number_text(number: Option<u8>) -> &'static str {
    if number.is_none() { "none" } else { "one" }
}

/// `numbers-of-no-memory`: whether want of memory has a number among trees, roots and pod manifests.
pub fn no_memory_answer(page: &mut Page) {
    let tree = number_text(DepError::NoMemory.number());
    let root = number_text(RenderError::NoMemory.number());
    let pod = number_text(no_memory_number());
    page.put_all(&["of a tree ", tree, ", of a root ", root]);
    page.put_all(&[", of a pod manifest ", pod]);
}
