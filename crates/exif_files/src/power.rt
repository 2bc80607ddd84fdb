//! What a loss of power leaves.

ghost use Rattle.exif_files.specs.PowerLoss.{LossLaw, NewLossLaw};

/// At any moment of a replacement a loss of power leaves the old file or the new one, whole, if the
/// disk had the old one and its name when it began. It does nothing: its contract is the law.
pub fn loss_law()
    ensures { LossLaw }
{}

/// At any moment while a new file is made a loss of power leaves nothing under its name or the
/// whole file, if no call failed. It does nothing: its contract is the law.
pub fn new_loss_law()
    ensures { NewLossLaw }
{}
