//! Edits of pieces: a tree taken out, a proxy taken away, replaced by another one, by a row or by items, another content of a
//! node, a node or a proxy planted, and roots divided. It stands on the pieces of `nx_piece`.
//!
//! What a piece is afterwards is said over its forest with gaps: `specs/Cutting.antt`, `Setting.antt`, `Planting.antt`,
//! `Dividing.antt`.
#![tactic(auto)]

mod cutting;
mod falling;
mod laws;
mod planting;
mod roots;
mod setting;
mod shortening;
mod widening;

pub use cutting::{Removed, remove_tree};
pub use falling::{Fall, fall_at};
pub use laws::{edits_bring_content, edits_keep_contents};
pub use planting::{plant_node, plant_proxy};
pub use roots::{divide_roots, plant_root};
pub use setting::set_content;
pub use shortening::{remove_proxy, replace_proxy};
pub use widening::{replace_by_items, replace_by_row};
