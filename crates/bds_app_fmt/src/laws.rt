//! What is printed of a script is its canonical text, and is formatted as it is.

ghost use Rattle.bds_app_fmt.specs.FormattedAgain.{GivesCanonical, PrintsCanonical, PrintsItself};

/// What a call that ends well prints is the canonical text of the script that was read; `given` says it of each text
/// that was read and each that was printed.
pub fn canonical_text_is_printed()
    ensures printed { PrintsCanonical }
    ensures given { GivesCanonical }
{}

/// What was printed is printed again, where it is read.
pub fn canonical_text_is_printed_again()
    ensures { PrintsItself }
{}
