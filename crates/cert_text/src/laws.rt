//! Laws of the texts of certificates.

ghost use Rattle.cert_text.specs.TextLaws.{FaultsAreUnique, TextsAreUnique};

/// Bytes spell one list of certificates at most.
pub fn texts_are_unique()
    ensures { TextsAreUnique }
{}

/// Bytes have one first invalid line at most.
pub fn faults_are_unique()
    ensures { FaultsAreUnique }
{}
