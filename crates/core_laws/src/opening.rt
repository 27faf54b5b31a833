//! At the opening of a core all is so that is kept between two steps of it.
ghost use Rattle.core_laws.specs.Core.{Run, Whole, CoreKept};
ghost use Rattle.core_laws.specs.Opens.{IsOpened};

/// At the opening all that is kept is so.
pub fn an_opening_keeps_the_whole()
    ensures { (run : Run) (whole : Whole) → IsOpened run whole → CoreKept run whole }
{}
