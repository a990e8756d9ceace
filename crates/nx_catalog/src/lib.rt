//! The catalog of a store: where each document stands, by its name, and the rules of the split matrix. Its
//! bytes are read and written, and the records keep them. What a catalog says, and its bytes, stands in
//! `specs/Catalog.antt`.
#![tactic(auto)]

mod catalog;
pub mod laws;
mod reading;
mod saving;
mod store;
mod writing;

pub use catalog::{Catalog, Named};
pub use reading::catalog_of;
pub use saving::RuleError;
pub use store::load_catalog;
