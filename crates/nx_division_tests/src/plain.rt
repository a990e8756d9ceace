// What a split is, by plain and slow functions whose contracts are the definitions.
mod clusters;
mod entries;
mod neighbours;
mod paths;
mod plans;
mod separator;
mod split;
mod weights;

pub(crate) use clusters::are_light;
pub(crate) use plans::is_feasible_plan;
pub(crate) use separator::{are_ordered, separator_plan};
pub(crate) use split::is_split;
pub(crate) use weights::{part_weight, point};
