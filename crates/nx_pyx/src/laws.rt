//! What holds of the notation itself, apart from the code that reads and writes it.
ghost use Rattle.std.specs.Prelude.{ℕ, ◌+◌, ◌≤◌, All, List, ◌⊎◌, ◌≡◌, ◌↔◌, ◌∷◌, ◌++◌, [], length, true, false, None, Some, is_some};
ghost use Rattle.std.specs.List.{list_any, count_by};
ghost use Rattle.nx_tree.specs.declared.node.Kind.{Kind};
ghost use Rattle.nx_tree.specs.Document.{IsDocument};
ghost use Rattle.nx_tree.specs.Edit.{has_children};
ghost use Rattle.nx_tree.specs.Forest.{OrderedTree};
ghost use Rattle.nx_pyx.specs.Event.{Event, event_by};
ghost use Rattle.nx_pyx.specs.Fault.{early_fault, events_of, first_fault, makes_node, standing};
ghost use Rattle.nx_pyx.specs.Open.{OpenAre, is_start, EndWithAttributes};
ghost use Rattle.nx_pyx.specs.Outcome.{HasOneReading, HasOneFault, StaysTooLong};
ghost use Rattle.nx_pyx.specs.declared.error.PyxFault.TheVariants.{LongLine};
ghost use Rattle.nx_pyx.specs.Reading.{Reads};
ghost use Rattle.nx_pyx.specs.Text.{text, escaped, node_line};
ghost use Rattle.nx_pyx.specs.LineStart.{line_start};
ghost use Rattle.nx_pyx.specs.Field.{greatest_position, is_path, positions_of};
ghost use Rattle.nx_pyx.specs.Path.{path_text};

/// The canonical text of a document reads as that document.
pub fn writing()
    ensures { (tree : OrderedTree) → IsDocument tree → Reads (text tree) tree }
{}

/// The line of a node with a content is how it begins and then the content with its escapes, which are those of its
/// parts one after the other.
pub fn line_in_parts()
    ensures line { (kind : Kind) (name content : List ℕ) → has_children kind ≡ false → 1 ≤ length content → node_line kind name content ≡ line_start kind name ++ escaped content }
    ensures parts { (front back : List ℕ) → escaped (front ++ back) ≡ escaped front ++ escaped back }
{}

/// Every byte list either reads as exactly one document or has exactly one fault.
pub fn reading()
    ensures { (stream : List ℕ) → HasOneReading stream ⊎ HasOneFault stream }
{}

/// A line that has one of the five codes shows that it is too long as soon as it will be whatever
/// comes behind, and not before.
pub fn early()
    ensures { (code : ℕ) (bytes : List ℕ) → is_some (event_by code []) ≡ true → (early_fault (code ∷ bytes) ≡ Some LongLine) ↔ StaysTooLong (code ∷ bytes) }
{}

/// What stands after lines, told of the whole list of their events. Which elements are open after
/// lines without a fault, the innermost first; whether an element has come; how many nodes there
/// are, the document's own root counted; and, where an attribute may come next, the names of those
/// that the innermost element has, the last one first.
pub fn standing()
    ensures opened { (ls : List (List ℕ)) → first_fault [] ls ≡ None → (names : List (List ℕ)) → OpenAre names (events_of ls) ↔ ((standing (events_of ls)).open_names ≡ names) }
    ensures rooted { (es : List Event) → (standing es).rooted ≡ list_any is_start es }
    ensures nodes { (es : List Event) → (standing es).nodes ≡ 1 + count_by makes_node es }
    ensures attributes { (es : List Event) (names : List (List ℕ)) → EndWithAttributes es names ↔ ((standing es).attributes ≡ Some names) }
{}

/// Each path has one text, and what is read as a path is the text of its positions.
pub fn paths()
    ensures read { (positions : List ℕ) → All (λ p. p ≤ greatest_position) positions → (is_path (path_text positions) ≡ true) × (positions_of (path_text positions) ≡ positions) }
    ensures written { (text : List ℕ) → is_path text ≡ true → All (λ p. p ≤ greatest_position) (positions_of text) × (path_text (positions_of text) ≡ text) }
{}
