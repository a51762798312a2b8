// The exports of the C face: each call of `capi` under its own name, for programs in C and Rust. Slices come as pointer
// and length, answers go back as structs by value. Each export calls the function of `capi` that has its name and promises
// what that promises; it asks nothing of its caller.
#![tactic(auto)]

mod numbers;
mod seals;
mod signatures;
mod telling;
mod text;
mod walking;
