// The least parts of a state in bytes: a flag, a word, the marks of frames and an area, each written, read and, where not every byte will do, tested; and rows.
// It promises: the bytes, and what is read of them, are those of layout/specs/Layout (`digits`, `marks_bytes`, `area_bytes` and what stands beside them there),
// and a row of values in bytes is that of layout/specs/Rows, whatever their form.
// It stands on `layout` for the definitions and their laws, and on `frames` and `areas` for what is laid out.
#![tactic(auto)]

pub use area::{AreaForm, decode_area, encode_area, is_area};
pub use bytes::{Canonical, Form, are_canonical, decode_row, encode_row};
pub use held::{MarksForm, decode_marks, encode_marks};
pub use word::flag;

pub mod area;
pub mod bytes;
pub mod held;
pub mod word;
