//! Reads the text of modules back as modules: `read_modules` answers the modules of which a text is the texts, or the place of the
//! first line that cannot stand.
#![tactic(auto)]

mod error;
mod modules;
mod reader;
mod reading;

pub use error::SvErr;
pub use reader::read_modules;
pub use sv_lines::has_one_list;
pub use sv_tree::SvModule;
