//! Evaluation of the nodes of a bank under values of the constants.
//!
//! The meaning is that of SMT-LIB 2.6 for Booleans and integers and of cvc5's theory of finite sets; sets are computed as runs of neighbouring integers. A call goes once over the numbers up to the greatest that it is asked for, and evaluates each node that stands under the asked ones once; it recurses at no depth.
#![tactic(auto)]

mod calls;
mod constants;
mod error;
mod laws;
mod marks;
mod node;
mod pass;
#[cfg(test)]
mod tests;
mod values;

pub use calls::{all_true, eval_bool, eval_int, eval_set};
pub use error::EvalError;
pub use laws::none_is_false;
