// One group of a folding: its least rows, height and width stand in specs/, what they come to in proofs/.
#![tactic(auto)]

// Over all widths, heights and limits: there is none.
pub const NONE: u32 = 4000000;
