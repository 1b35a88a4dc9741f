// Looking for marked places: most marks of a row are 0, and stretches of them are passed over at once. For the layers above.
#![tactic(auto)]

pub mod gap;
pub mod next;
