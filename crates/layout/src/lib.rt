// How pictures lie on a page. The marks that show it are for crate `canvas` to write.
#![tactic(auto)]

mod margins;
mod number;
mod part;
mod pose;

pub use margins::{Margins, margins_after, uncut};
pub use number::ZERO;
pub use part::{Part, across_of, down_of, whole};
pub use pose::{Pose, composed, pose_of, upright};
