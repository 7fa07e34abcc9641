//! What cut labels show.

ghost use Rattle.sbpl_cert.specs.Cut.{CutLabelsShow, CutRowsAreOne};

/// Where labels, a guide and a low show their bound, so do the labels that are cut to what the low needs. So a certificate
/// needs no row for each state.
pub fn cut_labels_show()
    ensures shows { CutLabelsShow }
{}

/// The rows of labels that are cut to what a low needs are determined by the labels, the low, and what the guide says at
/// the states.
pub fn cut_rows_are_one()
    ensures one { CutRowsAreOne }
{}
