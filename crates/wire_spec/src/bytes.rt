//! The laws of a byte on the wires: clock by clock it is one event of each target that has heard, also where it is cut.
ghost use Rattle.wire_spec.specs.Sites.{node_table};
ghost use Rattle.wire_spec.specs.Laws.{BitsAreTheByte, PutIsOneEvent, PutsAreEvents, GetIsOneEvent, GetsAreEvents, CutPutIsPartway, CutAddressIsPartway, CutGetIsPartway};

/// A byte goes over SDA in eight bits, the most significant one first (UM10204 section 3.1.5).
pub fn the_bits_of_a_byte_are_the_byte()
    ensures { BitsAreTheByte }
{}

/// A byte that is put, clock by clock, is one event of each target that has heard, and is acknowledged where one of them
/// acknowledges it (UM10204 section 3.1.6).
pub fn a_byte_that_is_put_is_one_event()
    ensures target { PutIsOneEvent node_table }
    ensures lines { PutsAreEvents node_table }
{}

/// A byte that is read, clock by clock, is one event of each target that has heard, and the controller reads the AND of what
/// they send (UM10204 section 3.1.1).
pub fn a_byte_that_is_read_is_one_event()
    ensures target { GetIsOneEvent node_table }
    ensures lines { GetsAreEvents node_table }
{}

/// A byte that is cut after some bits is no event yet: each target stands partway, and the bits that are missing may follow.
pub fn a_byte_that_is_cut_stands_partway()
    ensures put { CutPutIsPartway node_table }
    ensures address { CutAddressIsPartway node_table }
    ensures get { CutGetIsPartway node_table }
{}
