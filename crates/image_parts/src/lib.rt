// What the kinds of statements share: names, tables, conditions, and what stands in front of something else. `specs/Layout.antt` has
// the layout of the whole statement and its two round trips. Each `is_..` tests the bytes of one format. Counts have 2 bytes.
#![tactic(auto)]

pub mod condition;
pub mod heads;
pub mod names;
pub mod table;
