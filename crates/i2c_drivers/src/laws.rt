//! The laws of the lines of drivers: their pieces are the whole, they ask within the limits, and they print lines of a section.

ghost use Rattle.i2c_drivers.specs.Laws.{AsksWithinLimits, NoLineIsJournal, PiecesAreTheRead, PiecesAreTheWrite, PiecesHaveBytes, PiecesKeepToPages};

/// The pieces of a read follow each other from its first byte to its last.
#[tactic(auto, using(crate::proofs::PieceLemmas::read_follows))]
pub fn the_pieces_are_the_read()
    ensures { PiecesAreTheRead }
{}

/// The pieces of a write have its bytes, one piece after the other.
#[tactic(auto, using(crate::proofs::PieceLemmas::writes_all))]
pub fn the_pieces_are_the_write()
    ensures { PiecesAreTheWrite }
{}

/// Each piece of a write has bytes, which are all of one page.
#[tactic(auto, using(crate::proofs::PieceLemmas::has_bytes, crate::proofs::PieceLemmas::keeps_to_page))]
pub fn a_piece_keeps_to_its_page()
    ensures some { PiecesHaveBytes }
    ensures page { PiecesKeepToPages }
{}

/// Each transfer of a line is within the limits of transfers.
pub fn each_transfer_is_within_the_limits()
    ensures { AsksWithinLimits }
{}

/// What a line prints is lines of a section, of which none is `journal`.
pub fn no_line_is_journal()
    ensures { NoLineIsJournal }
{}
