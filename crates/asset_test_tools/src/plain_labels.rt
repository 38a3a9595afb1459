//! A plain list of labels, which is relabelled by scanning: a yardstick for groups.

/// Returns the label of the node in the list, or 0 past its end.
pub fn label_in(list: &[usize], node: usize) -> usize {
    match list.get(node) {
        Some(label) => *label,
        None => 0,
    }
}

/// Joins two groups in the list, by a scan.
pub fn join_in(list: &mut [usize], i: usize, j: usize) {
    let a = label_in(list, i);
    let b = label_in(list, j);
    for label in list.iter_mut() {
        if *label == a || *label == b {
            *label = if a < b { a } else { b };
        }
    }
}
