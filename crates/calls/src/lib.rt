// What a sheet answers, and the interface through which a replay calls it.
//
// refusal  why a call is denied
// answer   what a granted step, a granted fair copy and a verdict tell
// calls    the six calls, by the definitions of what they answer and leave; that there is one answer at most
#![tactic(auto)]

pub mod answer;
pub mod calls;
pub mod refusal;
