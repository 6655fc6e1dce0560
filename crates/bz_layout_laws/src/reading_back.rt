//! Laws on brackets and statements that stand in one stated form: they are read back.

ghost use Rattle.std.specs.Prelude.{◌≡◌, ℕ, List, ◌∷◌, Bool, true, false, ◌&&◌, ◌==◌, length, [], None};
ghost use Rattle.bz_tree.specs.declared.tree.GroupKind.{GroupKind};
ghost use Rattle.bz_tree.specs.Kinds.{is_one};
ghost use Rattle.bz_tree.specs.Tree.{Segment, group, segs_of};
ghost use Rattle.bz_tree.specs.Owners.{Inner, no_empty_cell, inside};
ghost use Rattle.bz_tree.specs.Cells.{no_token, inside_by_cells, entries_of};
ghost use Rattle.bz_layout_laws.specs.Written.{written_entries, HaveNodes};
ghost use Rattle.bz_tree.specs.Brackets.{with_comma_nodes, is_paren, group_of};
ghost use Rattle.bz_tree.specs.Statement.{segment_of};
ghost use Rattle.bz_tree.specs.Elements.{with_rule_call};
ghost use Rattle.bz_token.specs.Common.{is_filled};

/// Segments, each with a node, and end comments that stand in a bracket as `written_entries` has them are read
/// back: as entries, and where lines make such entries. Then no segment is empty.
pub fn owners_read_back()
    ensures entries { (trailing : Bool) (segs : List Segment) (end : List (List ℕ)) → HaveNodes segs
        → inside_by_cells (written_entries trailing segs end)
        ≡ record { segs = segs; trailing = trailing && is_filled segs; end = end } }
    ensures lines { (owns : List Inner) (trailing : Bool) (segs : List Segment) (end : List (List ℕ)) → HaveNodes segs
        → entries_of no_token owns ≡ written_entries trailing segs end
        → (inside owns ≡ record { segs = segs; trailing = trailing && is_filled segs; end = end })
        × (no_empty_cell owns ≡ true) }
{}

/// So a group is read back whose inside stands so.
pub fn group_read_back()
    ensures { (kind : GroupKind) (owns : List Inner) (trailing : Bool) (segs : List Segment) (end : List (List ℕ))
        → HaveNodes segs → entries_of no_token (with_comma_nodes (is_one kind) owns) ≡ written_entries trailing segs end
        → (group_of kind owns
        ≡ group kind (segs_of segs) (is_paren kind && (length segs == 1) && (trailing && is_filled segs)) end)
        × (no_empty_cell (with_comma_nodes (is_one kind) owns) ≡ true) }
{}

/// Outside brackets a statement is read back that stands so: the comments above it, its nodes, the comment beside
/// the last.
pub fn statement_read_back()
    ensures { (owns : List Inner) (s : Segment) → is_filled s.nodes ≡ true
        → entries_of no_token (with_comma_nodes true owns) ≡ written_entries false (s ∷ []) []
        → segment_of owns ≡ with_rule_call s }
{}

/// Outside brackets comment lines alone are read back.
pub fn comment_lines_read_back()
    ensures { (owns : List Inner) (texts : List (List ℕ)) → entries_of no_token (with_comma_nodes true owns)
        ≡ written_entries false [] texts
        → segment_of owns ≡ record { before = texts; nodes = []; suffix = None } }
{}
