// What is refused of the calls that can meet few rows of the table in a sound state: reads and writes, with one look-up of their page, and the calls that name
// no page and pack no areas anew, which are rewinds, reports and comparisons. Only these rows are asked.
// It promises: what is decided has the number of the one table of refusals, whatever the frames of the pool and the shares are; an accepted read or write comes
// with what stands at its page.
// It stands on `rows` and `limits` for what is asked, and on `page_decision` for the order of the rows.
#![tactic(auto)]

pub mod access;
pub mod unpaged;
