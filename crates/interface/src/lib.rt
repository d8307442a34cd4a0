// What the machine and its callers speak of: requests, answers, refusals, limits, and what a page is.
// It promises document 01's number and value for each answer, and one table of refusals (specs/Refusals) that every machine decides by.
// It stands on `basics` alone.
#![tactic(auto)]

pub mod answer;
pub mod page;
pub mod request;

pub use answer::{Answer, Refusal};
pub use page::{Attributes, Backing, ImagePageNo, PageNo, Slot};
pub use request::Request;
