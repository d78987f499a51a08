//! Laws of the texts of scripts.

ghost use Rattle.run_script.specs.ScriptLaws.{FaultsAreUnique, ScriptsAreUnique};
ghost use Rattle.run_script.specs.ScriptLaws.{ScriptsHaveNoFault};

/// Bytes spell one script at most.
pub fn scripts_are_unique()
    ensures { ScriptsAreUnique }
{}

/// Bytes have one first invalid line at most.
pub fn faults_are_unique()
    ensures { FaultsAreUnique }
{}

/// Bytes that spell a script have no invalid line.
pub fn scripts_have_no_fault()
    ensures { ScriptsHaveNoFault }
{}
