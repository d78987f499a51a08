//! Laws of the errors of files that the commands report.

ghost use Rattle.tool_laws.specs.FaultLaws.{StaticFaultsAreTold, ToldFaultsAreThere};

use heyvl_syntax::sources_have_no_fault;
use spelled_files::spelling_is_unique;

/// If the bytes spell a file with a static error, every command that reads HeyVL, except `print`,
/// reports the first one and nothing else.
pub fn static_faults_are_told()
    ensures { StaticFaultsAreTold }
{
    sources_have_no_fault();
    spelling_is_unique();
}

/// An error that a command reports is the first of the bytes, or the first static one of the file
/// that they spell.
pub fn told_faults_are_there()
    ensures { ToldFaultsAreThere }
{}
