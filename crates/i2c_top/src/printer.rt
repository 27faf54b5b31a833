//! A caller that prints.
ghost use Rattle.std.specs.Prelude.{◌≡◌, ℕ, List};
ghost use Rattle.i2c_base.specs.declared.reply.Reply.{Reply};

use addr_atr::AtrCaller;
use caller_core::Script;
use i2c_base::Caller;
use reg_cache::CachedCaller;

/// A caller that prints what came of its transfers: a section of the report.
pub trait Printer: Caller {
    /// What it prints after these replies.
    ghost printed: { Self.Script → List Reply → List ℕ };

    /// What it has printed.
    fn text(&self) -> &[u8]
        ensures { result.now ≡ printed (Self.script self.now) (Self.taken self.now) };
}

impl Printer for Script {
    ghost use Rattle.caller_core.specs.Scripts.{commands_of, section_text};

    ghost printed = { λ s rs. section_text (commands_of s) rs };

    fn text(&self) -> &[u8] {
        Script::text(self)
    }
}

/// A script behind translators prints what it does over the board as written.
impl<'m> Printer for AtrCaller<'m> {
    ghost use Rattle.caller_core.specs.Scripts.{commands_of, section_text};

    ghost printed = { λ s rs. section_text (commands_of s.script) rs };

    fn text(&self) -> &[u8] {
        Script::text(self.script())
    }
}

/// Its section has all replies, hits included.
impl Printer for CachedCaller {
    ghost use Rattle.caller_core.specs.Scripts.{commands_of, section_text};
    ghost use Rattle.cache_laws.specs.Cache.{answered};
    ghost use Rattle.reg_cache.specs.Cached.{cached};

    ghost printed = { λ s rs. section_text (commands_of s.script) (answered (cached s) rs) };

    fn text(&self) -> &[u8] {
        CachedCaller::text(self)
    }
}
