// The labels at or below the records of a document.
use nx_names::LabelMap;

/// For each record of a document the labels of the nodes in its part and in all parts below it.
#[derive(Drop)]
pub struct Names {
    pub(crate) map: LabelMap,
}
