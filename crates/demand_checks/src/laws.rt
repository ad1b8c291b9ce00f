//! Laws of the violations of threads and files, each the contract of a function that does nothing.
ghost use Rattle.demand_checks.specs.Files.{FileLists, FirstOfFile};
ghost use Rattle.demand_checks.specs.Merged.{ListsMerge};

/// The violations of V2 and V6, of V3 to V5 and of V7 and V8 of a thread, put in order of the rules, are the violations of the
/// thread.
pub fn lists_merge()
    ensures { ListsMerge }
{}

/// The violations of all threads of all processes, one list after the other, are those of the file.
pub fn file_lists()
    ensures { FileLists }
{}

/// Where the processes and threads before one keep their demands, the first violation of that thread is the first of the file.
pub fn first_of_file()
    ensures { FirstOfFile }
{}
