//! What the cache comes to, in laws over the definitions alone.
ghost use Rattle.std.specs.Prelude.{◌≡◌, ℕ, Bool, List, Some};
ghost use Rattle.i2c_base.specs.declared.entry.Entry.{Entry};
ghost use Rattle.i2c_base.specs.Board.{BoardView};
ghost use Rattle.i2c_spec.specs.History.{History, history};
ghost use Rattle.i2c_spec.specs.Plain.{IsPlainBoard};
ghost use Rattle.i2c_spec.specs.Rules.{MeetsRules};
ghost use Rattle.bus_spec.specs.Readings.{replies, order};
ghost use Rattle.cache_laws.specs.Cache.{Cached, cached_asks, asked_cached, left_cached};
ghost use Rattle.cache_laws.specs.Order.{MayBeCached, IsReplayed};
ghost use Rattle.cache_laws.specs.Fair.{IsFair, LeavesHitsOut};

use i2c_spec::an_accepted_board_is_a_tree;

/// Where all transfers are harmless for what is kept, the full order of a journal of cached callers replays: the flat world that
/// does each hit as a transfer gives each caller the journal's replies with the hits filled in, and leaves the same devices but for
/// the pointers of sensors that are kept.
pub fn hits_are_what_reads_would_give()
    ensures { (b : BoardView) → IsPlainBoard b → MeetsRules b → (xs : ℕ → Cached) (cached : ℕ → Bool) → MayBeCached b xs cached
        → (callers : ℕ) (past : List Entry) (told : History) → history b (cached_asks xs) (order past) ≡ Some told
        → ((c : ℕ) → replies past c ≡ told.replies c) → IsReplayed b xs cached callers past told.states }
{
    an_accepted_board_is_a_tree();
}

/// Of a fair caller no hit is asked for: all are left out.
pub fn all_hits_are_left_out()
    ensures { (b : BoardView) (x : Cached) → IsFair b x.asks x.left → LeavesHitsOut x }
{}

/// A fair caller with its hits filled in is fair.
pub fn cached_callers_are_fair()
    ensures { (b : BoardView) (x : Cached) → IsFair b x.asks x.left → IsFair b (asked_cached x) (left_cached x) }
{}
