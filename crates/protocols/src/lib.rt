//! Sharemind's ring and bit protocols for three miners, on lent tapes; docs/SPECIFICATION.md states what they compute.
//! Each protocol answers the new shares and the moved place record, and writes the words that each party receives into
//! its lent list; or it answers that a tape is spent or a list too short, and draws and writes nothing.
#![tactic(auto)]

pub mod below;
pub mod bit;
pub mod bits;
pub mod draws;
pub mod equal;
mod fixed_lengths;
pub mod lent;
mod list;
pub mod local;
pub mod masked;
pub mod multiply;
pub mod open;
pub mod outcome;
pub mod place;
pub mod promises;
pub mod reshare;
pub mod ring;
pub mod shares;
pub mod store;
