// The five lists over two views, and key equality. One walk serves all lists; what a covering difference alone does is in the file of its name.
#![tactic(auto)]

mod call;
mod covering_difference;
pub mod equality;
mod sides;

pub use call::list;
