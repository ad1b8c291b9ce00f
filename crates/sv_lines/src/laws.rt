//! A law over the texts of modules, the contract of a function that does nothing.
ghost use Rattle.sv_lines.specs.Laws.{HasOneList};

/// A text is that of at most one list of modules.
pub fn has_one_list()
    ensures { HasOneList }
{}
