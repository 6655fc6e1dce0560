//! Law of parts: nodes are read back from them.

ghost use Rattle.std.specs.Prelude.{◌≡◌, List};
ghost use Rattle.bz_tree.specs.Tree.{Item, Statement, items_of};
ghost use Rattle.bz_tree.specs.Rows.{items_parts, parts_of};
ghost use Rattle.bz_tree.specs.FromParts.{nodes_of_parts};

/// States that nodes are read back from their parts, and the nodes of a statement from its parts.
pub fn nodes_of_their_parts()
    ensures nodes { (nodes : List Item) → nodes_of_parts (items_parts (items_of nodes)) ≡ nodes }
    ensures statement { (s : Statement) → nodes_of_parts (parts_of s) ≡ s.nodes }
{}
