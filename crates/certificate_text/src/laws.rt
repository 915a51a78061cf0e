//! Laws about the definitions, apart from any code.

ghost use Rattle.certificate_text.specs.Laws.{
  BadLinesAreOne,
  CertificatesAreOne,
  CertificatesHaveNoFault,
  EachTextIsAnswered,
};

/// A text is the certificate of at most one pair of tables.
pub fn certificates_are_one()
    ensures { CertificatesAreOne }
{}

/// A certificate isn't of an old version and has no bad line: its only fault is that memory runs
/// out.
pub fn certificates_have_no_fault()
    ensures { CertificatesHaveNoFault }
{}

/// Each text is a certificate, or is of the old version, or has a bad line.
pub fn each_text_is_answered()
    ensures { EachTextIsAnswered }
{}

/// A text has at most one first line with which no certificate continues.
pub fn bad_lines_are_one()
    ensures { BadLinesAreOne }
{}
