//! Laws of the definitions of tokens and of the errors of a file.

ghost use Rattle.heyvl_syntax.specs.SourceFaults.{FilesHaveNoTokenFault, SourceFaultsAreUnique};
ghost use Rattle.heyvl_syntax.specs.SourceFaults.{SourceFaultsStandInside, SourcesHaveNoFault};
ghost use Rattle.heyvl_syntax.specs.SourceFaults.{TokenFaultsAreUnique};
ghost use Rattle.heyvl_syntax.specs.TokenLaws.{FaultsAreUnique, TokensAreFew, TokensAreUnique};
ghost use Rattle.heyvl_syntax.specs.TokenLaws.{TokensExcludeFaults, TokensOrFault};
ghost use Rattle.heyvl_syntax.specs.TokenLaws.{TokensStandInOrder};

/// States that bytes have at most one list of tokens.
pub fn tokens_are_unique()
    ensures { TokensAreUnique }
{}

/// States that bytes have at most one leftmost error.
pub fn faults_are_unique()
    ensures { FaultsAreUnique }
{}

/// States that bytes with a list of tokens have no leftmost error.
pub fn tokens_exclude_faults()
    ensures { TokensExcludeFaults }
{}

/// States that all bytes have a list of tokens or a leftmost error.
pub fn tokens_or_fault()
    ensures { TokensOrFault }
{}

/// States that the tokens of bytes do not overlap and are in order, that the bytes of each span
/// spell its token, and that literals are within the limits.
pub fn tokens_stand_in_order()
    ensures { TokensStandInOrder }
{}

/// States that bytes have at most as many tokens as there are bytes.
pub fn tokens_are_few()
    ensures { TokensAreFew }
{}

/// States that tokens have at most one first error.
pub fn token_faults_are_unique()
    ensures { TokenFaultsAreUnique }
{}

/// States that tokens that spell a file within the limits have no first error.
pub fn files_have_no_token_fault()
    ensures { FilesHaveNoTokenFault }
{}

/// States that bytes have at most one first error.
pub fn source_faults_are_unique()
    ensures { SourceFaultsAreUnique }
{}

/// States that bytes that spell a file within the limits have no first error.
pub fn sources_have_no_fault()
    ensures { SourcesHaveNoFault }
{}

/// States that the place of a first error begins at a byte of the file, or at its end.
pub fn source_faults_stand_inside()
    ensures { SourceFaultsStandInside }
{}
