// The bound statement's image, part by part: these writers alone know its byte positions. Each wants room for its bytes and leaves all else
// as it was. `specs/Layout.antt` has the layout; `specs/Bundles.antt` and `specs/Runs.antt` say how lists, records and expressions are put
// together of such parts.
#![tactic(auto)]

pub mod bundles;
pub mod columns;
pub mod fields;
pub mod nodes;
pub mod values;
