//! Laws of the labels. Each stands on the contract of a function that does nothing.

ghost use Rattle.std.specs.Prelude.{◌≡◌, ◌≢◌, ◌↔◌, ℕ, ◌<◌, List, Option, Some, None, slice_index_or};
ghost use Rattle.std.specs.List.{Contains};
ghost use Rattle.asset_names.specs.Arrows.{Arrow};
ghost use Rattle.asset_cycles.specs.Cyclic.{cycle_labels};
ghost use Rattle.asset_cycles.specs.Members.{members_of, own_labels};
ghost use Rattle.asset_cycles.specs.Textbook.{Reaches, OnOneCycle};

/// Two nodes have one label exactly if they are on one cycle, and a node has none exactly if it does not reach itself.
pub fn labels_are_cycles()
    ensures same { (arrows : List Arrow) (count u v : ℕ) → u < count → v < count → let labels = cycle_labels arrows count in
        (((slice_index_or labels u None ≡ slice_index_or labels v None) × (slice_index_or labels u None ≢ None)) ↔ OnOneCycle arrows u v) }
    ensures none { (arrows : List Arrow) (count u : ℕ) → u < count →
        ((slice_index_or (cycle_labels arrows count) u None ≡ None) ↔ (¬ Reaches arrows u u)) }
{}

/// The label of a node is the least node that is on one cycle with it.
pub fn label_is_least()
    ensures { (arrows : List Arrow) (count u label : ℕ) → u < count → ((slice_index_or (cycle_labels arrows count) u None ≡ Some label)
        ↔ ((label < count) × OnOneCycle arrows u label × ((n : ℕ) → n < label → ¬ OnOneCycle arrows u n))) }
{}

/// The members of a label are the nodes that have it, and each label that a node has is listed among the labels.
pub fn members_have_their_label()
    ensures members { (labels : List (Option ℕ)) (label n : ℕ) → Contains (members_of labels label) n ↔ (slice_index_or labels n None ≡ Some label) }
    ensures listed { (arrows : List Arrow) (count u label : ℕ) → slice_index_or (cycle_labels arrows count) u None ≡ Some label →
        Contains (own_labels (cycle_labels arrows count)) label }
{}
