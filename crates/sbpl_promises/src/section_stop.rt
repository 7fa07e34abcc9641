//! Why the checking of a text of labels ends.

use sbpl_report::{Flaw, LabelFault};

/// Why the checking of sections ends before the last line.
#[derive(Clone, Copy)]
pub enum SectionStop {
    /// A section has this first flaw.
    Flaw(Flaw),
    /// The text has this first fault.
    Fault(LabelFault),
    /// Memory ran out.
    NoMemory,
}
