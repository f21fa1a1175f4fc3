//! Theorems about packing. Each is the contract of a function with an empty body.
ghost use Rattle.bt_jobs.specs.PackLaws.{LinesAreOne, ScriptPacks, PackIsOne};

/// States that a text has only one list of lines.
pub fn one_split()
    ensures { LinesAreOne }
{}

/// States that the script of an accepted stream's items packs to that stream.
///
/// The options are the same.
pub fn script_packs()
    ensures { ScriptPacks }
{}

/// States that the lines of a script pack to one stream, and to one end.
pub fn one_packing()
    ensures { PackIsOne }
{}
