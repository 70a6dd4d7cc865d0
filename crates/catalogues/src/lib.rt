//! Designs that are handed in: catalogues that hold block lists and give them away, and how they are asked.
#![tactic(auto)]

mod asking;
mod catalogue;
mod consulting;
mod dropping;
mod list;
mod outcome;
mod source;
mod text;

pub use catalogue::{Catalogue, Entry, OfferEnd};
pub use consulting::consult;
pub use list::ListCatalogue;
pub use outcome::{ConsultEnd, Consulted, Rejected, Rejections};
pub use source::{LoadEnd, SourceCatalogue};
pub use text::{CatalogueEnd, read_catalogue};

#[cfg(test)]
mod tests;
