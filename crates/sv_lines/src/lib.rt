//! The text of modules, read line by line, as definitions: what each line comes to after the lines before it, and which texts are
//! those of no modules. The files of `proofs/` have what follows from them; the code that reads is `sv_reader`.
#![tactic(auto)]

mod laws;
mod wire;

pub use laws::has_one_list;
pub use wire::Wire;
